//! How calls end.

use iiif_keys::Fault;

/// An answer that was sent whole.
#[derive(Clone, Copy, Debug, PartialEq, Eq)]
pub struct Sent {
    /// The status of HTTP.
    pub status: u16,
    /// How many bytes were written.
    pub bytes: u64,
    /// The greatest number of the answer's samples and sums that were held at once; 0 where no image was made.
    pub held: u64,
}

/// Cause of an answer that is cut off.
#[derive(Clone, Copy, Debug, PartialEq, Eq)]
pub enum Cause {
    /// The writer failed.
    Writer,
    /// The rest of the image could not be loaded.
    Load(Fault),
}

/// An answer that was cut off.
#[derive(Clone, Copy, Debug, PartialEq, Eq)]
pub struct Cut {
    /// How many bytes were written.
    pub sent: u64,
    pub cause: Cause,
}
