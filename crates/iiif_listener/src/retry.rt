//! Retries of a listener that could not take a connection.

ghost use Rattle.std.specs.Prelude.{◌≡◌};
ghost use Rattle.iiif_listener.specs.Failures.{is_lasting as lasts, is_passing as passes, is_silence as silent, retry_after};

use std::io::ErrorKind;

/// The next try of a listener that could not take a connection.
#[derive(Clone, Copy, PartialEq, Eq)]
pub enum Retry {
    /// The connection was gone before it was taken: at once.
    AtOnce,
    /// Nobody came for a while: at once, too.
    Silent,
    /// Files, memory or the like run out: in a while.
    Later,
    /// The socket is stopped, or was never one that listens.
    Never,
}

/// Returns whether a socket that failed so doesn't listen, and won't.
fn is_lasting(kind: ErrorKind) -> bool
    ensures { result ≡ lasts kind }
{
    match kind {
        ErrorKind::InvalidInput => true,
        _ => false,
    }
}

/// Returns whether a listener that failed so goes on at once.
fn is_passing(kind: ErrorKind) -> bool
    ensures { result ≡ passes kind }
{
    match kind {
        ErrorKind::ConnectionAborted | ErrorKind::ConnectionReset | ErrorKind::Interrupted => true,
        _ => false,
    }
}

/// Returns whether a wait came to its end, and nothing else failed.
pub(crate) fn is_silence(kind: ErrorKind) -> bool
    ensures { result ≡ silent kind }
{
    match kind {
        ErrorKind::WouldBlock | ErrorKind::TimedOut => true,
        _ => false,
    }
}

/// Returns when a listener tries again after a failure of this kind, however many came before it.
pub fn after_failure(kind: ErrorKind) -> Retry
    ensures { result ≡ retry_after kind }
{
    if is_passing(kind) {
        Retry::AtOnce
    } else if is_silence(kind) {
        Retry::Silent
    } else if is_lasting(kind) {
        Retry::Never
    } else {
        Retry::Later
    }
}
