//! Why the system refused a file or an address.

use std::io::{Error, ErrorKind};

/// The errors of Linux that have no kind: the process, and the system, have as many open files as they may, and a device failed.
const EIO: i32 = 5;

const ENFILE: i32 = 23;

const EMFILE: i32 = 24;

/// Why the system refused a file or an address.
#[derive(Clone, Copy, Debug, PartialEq, Eq)]
pub enum Reason {
    /// There is nothing of that name.
    Missing,
    /// The process may not have it.
    Denied,
    /// The process has as many open files as it may.
    ProcessFull,
    /// The system has as many open files as it may.
    SystemFull,
    /// A device failed.
    Device,
    /// Another one has the address.
    Taken,
    /// The machine has no such address.
    NoAddress,
    Other,
}

impl Reason {
    /// Finds the reason that the system gave.
    pub fn new(error: &Error) -> Reason {
        match error.kind() {
            ErrorKind::NotFound => Reason::Missing,
            ErrorKind::PermissionDenied => Reason::Denied,
            ErrorKind::AddrInUse => Reason::Taken,
            ErrorKind::AddrNotAvailable => Reason::NoAddress,
            _ => of_code(error.raw_os_error()),
        }
    }
}

/// Returns the reason of a code that has no kind.
fn of_code(code: Option<i32>) -> Reason {
    match code {
        Some(EIO) => Reason::Device,
        Some(ENFILE) => Reason::SystemFull,
        Some(EMFILE) => Reason::ProcessFull,
        _ => Reason::Other,
    }
}
