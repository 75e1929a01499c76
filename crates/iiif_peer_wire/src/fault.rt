//! Why a message was not read or written.

use thiserror::Error;

/// Why a message was not read or written. After a fault the stream is to be closed.
#[derive(Clone, Copy, Debug, PartialEq, Eq, Error)]
pub enum WireFault {
    /// Another message, another version, or an ask for no known group.
    #[error("not a message of this version")]
    Magic,
    /// The stream ended inside a message.
    #[error("the stream ended inside a message")]
    Short,
    /// A key above 4,096 bytes, or a value above 64 MiB.
    #[error("a key or a value is too long")]
    Long,
    /// A reply for another key than the one that was asked.
    #[error("a reply for another key")]
    Key,
    /// A reply whose digest is not that of its key and value.
    #[error("a reply whose digest is wrong")]
    Digest,
    /// A status above 4, or a fault with a value.
    #[error("a reply whose status is wrong")]
    Status,
    /// The device failed.
    #[error("the device failed")]
    Io,
    /// Memory was refused.
    #[error("out of memory")]
    NoMemory,
}

impl WireFault {
    ghost use Rattle.std.specs.Prelude.{◌≡◌};
    ghost use Rattle.iiif_peer_wire.specs.Faults.{number_of};

    /// The number by which the fault is known outside, 1 to 8.
    pub const fn number(self) -> u8
        ensures { result ≡ number_of self }
    {
        match self {
            WireFault::Magic => 1,
            WireFault::Short => 2,
            WireFault::Long => 3,
            WireFault::Key => 4,
            WireFault::Digest => 5,
            WireFault::Status => 6,
            WireFault::Io => 7,
            WireFault::NoMemory => 8,
        }
    }
}
