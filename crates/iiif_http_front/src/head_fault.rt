//! Faults of heads.

use iiif_fault::Numbered;
use thiserror::Error;

/// A reason for which no call is read.
#[derive(Clone, Copy, Debug, PartialEq, Eq, Error)]
pub enum HeadFault {
    /// Malformed head, one of more than 64 fields, or one that announces a body. Returned as soon as the lines are whole that show it.
    #[error("not the head of a request")]
    Bad,
    /// No end of the head within 8,192 bytes.
    #[error("the head of the request is too long")]
    TooLong,
    /// End of the input inside a head.
    #[error("the input ended inside a head")]
    Cut,
    /// Failed read, before a head was whole.
    #[error("the device failed")]
    Io,
    /// Out of memory for the call of a whole head.
    #[error("out of memory")]
    NoMemory,
}

impl Numbered for HeadFault {
    ghost use Rattle.iiif_http_front.specs.Reading.{fault_number};

    ghost number_of = { fault_number };

    fn number(&self) -> u8 {
        match self {
            HeadFault::Bad => 1,
            HeadFault::TooLong => 2,
            HeadFault::Cut => 3,
            HeadFault::Io => 4,
            HeadFault::NoMemory => 5,
        }
    }
}
