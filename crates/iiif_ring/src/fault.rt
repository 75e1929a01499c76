//! Why names make no ring.

use thiserror::Error;

/// Why names make no ring: the first that applies.
#[derive(Clone, Copy, Debug, PartialEq, Eq, Error)]
pub enum RingFault {
    /// There is no name.
    #[error("no names")]
    Empty,
    /// A name stands there twice.
    #[error("a name stands there twice")]
    Twice,
    /// There are more than 64 names.
    #[error("more than 64 names")]
    TooMany,
    /// Memory was refused.
    #[error("out of memory")]
    NoMemory,
}

impl RingFault {
    ghost use Rattle.std.specs.Prelude.{◌≡◌};
    ghost use Rattle.iiif_ring.specs.Faults.{number_of};

    /// The number by which the fault is known outside, 1 to 4.
    pub const fn number(self) -> u8
        ensures { result ≡ number_of self }
    {
        match self {
            RingFault::Empty => 1,
            RingFault::Twice => 2,
            RingFault::TooMany => 3,
            RingFault::NoMemory => 4,
        }
    }
}
