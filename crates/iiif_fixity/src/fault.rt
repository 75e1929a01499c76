//! Faults of manifests.

use thiserror::Error;

/// Why a line is no entry of a manifest.
#[derive(Clone, Copy, Debug, PartialEq, Eq, Error)]
pub enum EntryFault {
    #[error("the text isn't UTF-8")]
    Encoding,
    #[error("a line begins with 64 hexadecimal digits and a space")]
    Digest,
    #[error("there is no name behind the digest")]
    Name,
    #[error("that name is listed above")]
    Twice,
    #[error("out of memory")]
    NoMemory,
}

/// The line of a manifest that is at fault, counted from 1, and why. A text that isn't UTF-8 is at fault in line 0, as a whole.
#[derive(Clone, Copy, Debug, PartialEq, Eq, Error)]
#[error("line {line}: {fault}")]
pub struct ManifestFault {
    pub line: u64,
    pub fault: EntryFault,
}
