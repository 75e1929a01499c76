//! An answer, as a line tells it.

use crate::moment::Moment;

/// Why an answer was cut off.
#[derive(Clone, Copy, Debug, PartialEq, Eq)]
pub enum CutCause {
    /// Its reader closed or reset the connection.
    Viewer,
    /// Nothing of it was taken for as long as is waited.
    Slow,
    /// It was taken below the least rate.
    Rate,
    /// A read of the image's file failed.
    Source,
    /// Memory was refused.
    Memory,
    /// Another connection was given the place of its reader's.
    Ousted,
}

/// Why an answer's status is 500, as the answer itself says.
#[derive(Clone, Copy, Debug, PartialEq, Eq)]
pub enum Failure {
    /// A read of the image's file failed.
    Source,
    /// Memory was refused.
    Memory,
}

/// How an answer ended.
#[derive(Clone, Copy, PartialEq, Eq)]
pub enum Outcome {
    /// It was sent whole, with this status of HTTP.
    Whole(u16),
    /// It was sent whole, with the status 500, for this cause.
    Failed(Failure),
    /// It was cut off, for this cause.
    Cut(CutCause),
}

/// An answer, as its line tells it.
#[derive(Clone, Copy)]
pub struct Answered<'a> {
    /// When it was done with.
    pub at: Moment,
    /// The call's method, empty where no call could be read.
    pub method: &'a [u8],
    /// The call's target as it came, empty where no call could be read.
    pub target: &'a [u8],
    pub outcome: Outcome,
    /// How many bytes were written, those of the head too.
    pub bytes: u64,
    /// How long the answer took, in milliseconds.
    pub millis: u64,
}
