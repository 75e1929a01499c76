//! A word for a server that runs.

ghost use Rattle.std.specs.Prelude.{◌≤◌};

use iiif_command_line::{LineFault, Telling};
use iiif_io::Outlet;
use iiif_services::{Command, read_reply, tell};
use iiif_start::{Origins, Stop, report_fault};
use std::alloc::Global;
use std::net::Net;

/// Reports a word for a server that is at fault, and gives the program's status.
pub(crate) fn report_telling<E: Outlet>(err: &mut E, fault: LineFault) -> u8
    ensures { result ≤ 2 }
{
    let origins = Origins {
        list: None,
        folder: None,
        images: &[],
    };
    report_fault(err, fault, &origins)
}

/// Tells a server a word, and writes its reply. The status is that of the reply: 1 too where none comes.
pub(crate) fn tell_word<R, O, E>(
    rt: &R,
    alloc: Global,
    telling: Telling<'_>,
    out: &mut O,
    err: &mut E,
) -> u8
where
    R: Net,
    O: Outlet,
    E: Outlet,
    ensures { result ≤ 2 }
{
    let Some(command) = Command::named(telling.word.as_bytes()) else {
        return report_telling(err, LineFault::Tell);
    };
    let mut text = Vec::new(alloc);
    if tell(rt, telling.path, command, &mut text).is_err() {
        return Stop::Tell.report(err);
    }
    match read_reply(&text) {
        Some((0, told)) => {
            if out.write_all(told).is_err() {
                return Stop::Write.report(err);
            }
            0
        }
        Some((status, told)) => {
            // Where it can't be written, the status says it.
            let _ = err.write_all(told);
            status
        }
        None => Stop::Tell.report(err),
    }
}
