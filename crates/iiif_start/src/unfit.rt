//! Why an image can't be served.

ghost use Rattle.std.specs.Prelude.{◌≡◌, ◌<◌, ℕ, List, OnOk, true, length};
ghost use Rattle.std.specs.List.{list_all};
ghost use Rattle.std.specs.Io.KnownBytes.{Appends};
ghost use Rattle.iiif_advice.specs.Lines.{is_line_byte};
ghost use Rattle.iiif_start.specs.Statuses.{unfit_number};
ghost use Rattle.iiif_start.specs.Told.{unfit_lines};

use crate::name::Word;
use crate::reason::Reason;
use iiif_advice::advice;
use iiif_fault::Numbered;
use iiif_tiff_read::OpenFault;
use std::io;
use std::io::Write;

/// Why an image can't be served.
#[derive(Clone, Copy, Debug, PartialEq, Eq)]
pub enum Unfit {
    /// Its file can't be opened, for the system's reason.
    Closed(Reason),
    /// Under its path there is no plain file.
    NotPlain,
    /// Its file isn't one that is read.
    Refused(OpenFault),
    /// The manifest lists no digest of its file.
    Unlisted,
    /// Its file doesn't have the digest that the manifest lists.
    Differs,
}

impl Unfit {
    /// Returns the number of the fault.
    pub fn number(&self) -> u8
        ensures { result ≡ unfit_number self.now }
    {
        match self {
            Unfit::Closed(_) | Unfit::NotPlain | Unfit::Unlisted | Unfit::Differs => 0,
            Unfit::Refused(fault) => fault.number(),
        }
    }

    /// Returns the remedy: one line, without its end.
    pub fn remedy(&self) -> &'static str
        ensures one_line { list_all is_line_byte result.now ≡ true }
        ensures some { 0 < length result.now }
    {
        match self {
            Unfit::Closed(reason) => remedy_of_closed(*reason),
            Unfit::NotPlain => "it is no plain file: a folder, a pipe or a device is none",
            Unfit::Refused(fault) => advice(fault),
            Unfit::Unlisted =>
                "the manifest doesn't list it: look at the path, which the manifest has behind its own folder",
            Unfit::Differs =>
                "it differs from its digest in the manifest: put the file back, or look at which one the path leads to",
        }
    }

    /// Says of an image why it can't be served, and in a second line what to do. The name is escaped as in the log. It needs no memory.
    pub(crate) fn report<W: Write>(&self, out: &mut W, name: Word<'_>) -> io::Result<()>
        ensures { OnOk result ((remedy : List ℕ) × (list_all is_line_byte remedy ≡ true) ×
            Appends (W.contents out.old) (W.contents out.new) (unfit_lines name.entry.0.now (unfit_number self.now) remedy)) }
    {
        put_lines(out, name, self.number(), self.remedy())
    }
}

/// Returns the remedy for a file that the system doesn't open: one line, without its end.
fn remedy_of_closed(reason: Reason) -> &'static str
    ensures one_line { list_all is_line_byte result.now ≡ true }
    ensures some { 0 < length result.now }
{
    match reason {
        Reason::Missing => {
            "it can't be opened, there is no such file: look at the path, and whether its disk is mounted"
        }
        Reason::Denied => {
            "it can't be opened, permission denied: look at the rights of the user that the server runs as, of each folder too"
        }
        Reason::ProcessFull => {
            "it can't be opened, too many open files (EMFILE): raise the limit of the process, or lower --open-files"
        }
        Reason::SystemFull => {
            "it can't be opened, too many open files of the system (ENFILE): raise fs.file-max"
        }
        Reason::Device => {
            "it can't be opened, a device failed (EIO): look at the disk, and at the system's log"
        }
        Reason::Taken | Reason::NoAddress | Reason::Other => {
            "it can't be opened: look at the path and at the rights of the user that the server runs as"
        }
    }
}

/// Writes of an image the number of its fault, and in a second line what to do.
fn put_lines<W: Write>(
    out: &mut W,
    name: Word<'_>,
    number: u8,
    remedy: &'static str,
) -> io::Result<()>
    ensures { OnOk result (Appends (W.contents out.old) (W.contents out.new) (unfit_lines name.entry.0.now number remedy.now)) }
{
    writeln!(out, "image {name}: {number}")?;
    writeln!(out, "{remedy}")
}

/// Says of images why they can't be served, each in a line and a second one that says what to do. It needs no memory.
pub fn report_unfit<W: Write>(out: &mut W, images: &[((&str, &str), Unfit)]) -> io::Result<()> {
    for ((name, _), unfit) in images {
        unfit.report(out, Word(name))?;
    }
    Ok(())
}
