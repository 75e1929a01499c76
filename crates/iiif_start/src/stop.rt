//! Why the program ends without an answer.

ghost use Rattle.std.specs.Prelude.{◌≡◌};
ghost use Rattle.iiif_start.specs.Statuses.{status_of};

use crate::name::Word;
use crate::reason::Reason;
use crate::unfit::Unfit;
use std::io::Write;

/// The remedy where calls at work were cut off at the end.
const CUT: &str =
    "calls were at work when the time was over: --drain-seconds for drain, three seconds for stop";

/// The remedy where no server is told.
const UNTOLD: &str =
    "no server replies at that socket: is it the --control of one that runs, and is this its user?";

/// Why the program ends without an answer.
#[derive(Clone, Copy, Debug, PartialEq, Eq)]
pub enum Stop<'a> {
    /// An image can't be served: its name, and why.
    Image(&'a str, Unfit),
    /// Of the images that were checked one is at fault, which was said of it.
    Faulty,
    Memory,
    Write,
    Source,
    /// It can't listen: what the system said.
    Listen(Reason),
    /// It was told to end, and calls at work were cut off.
    Cut,
    /// The file of its record can't be made.
    Record,
    /// No server is told by the socket that was named, or none that replies.
    Tell,
}

impl<'a> Stop<'a> {
    /// Says it in a line, of an image, where it can't listen and at its own end with a second one that says what to do, and gives the
    /// program's status: 2 where an image is at fault, else 1.
    pub fn report<E: Write>(self, err: &mut E) -> u8
        ensures { result ≡ status_of self.entry }
    {
        match self {
            Stop::Image(name, unfit) => {
                // Where the words can't be written, the status says it.
                let _ = unfit.report(err, Word(name));
                2
            }
            Stop::Faulty => 2,
            Stop::Memory => report_end(err, "run: memory", 1),
            Stop::Write => report_end(err, "run: write", 1),
            Stop::Source => report_end(err, "run: source", 1),
            Stop::Record => report_end(err, "run: record", 1),
            Stop::Listen(reason) => {
                let _ = report_end(err, "run: listen", 1);
                report_end(err, remedy_of_listening(reason), 1)
            }
            Stop::Cut => {
                let _ = report_end(err, "run: cut", 1);
                report_end(err, CUT, 1)
            }
            Stop::Tell => {
                let _ = report_end(err, "run: tell", 1);
                report_end(err, UNTOLD, 1)
            }
        }
    }
}

/// Returns the remedy where the system doesn't let the program listen.
fn remedy_of_listening(reason: Reason) -> &'static str {
    match reason {
        Reason::Taken => {
            "the address is taken (EADDRINUSE): another process listens there, or another option names it"
        }
        Reason::NoAddress => "this machine has no such address (EADDRNOTAVAIL)",
        Reason::Denied => {
            "permission denied (EACCES): a port below 1,024 is for root, or for who has CAP_NET_BIND_SERVICE"
        }
        Reason::ProcessFull => {
            "too many open files (EMFILE): raise the limit of the process, or lower --open-files"
        }
        Reason::SystemFull => "too many open files of the system (ENFILE): raise fs.file-max",
        Reason::Missing | Reason::Device | Reason::Other => {
            "an address is an IP address or a host's name, and a port: 127.0.0.1:8080, [::1]:8080"
        }
    }
}

/// Says why the program ends, in a line, and gives its status back. Where the line can't be written, that is no fault.
pub fn report_end<E: Write>(err: &mut E, line: &str, status: u8) -> u8
    ensures { result ≡ status }
{
    let _ = writeln!(err, "{line}");
    status
}
