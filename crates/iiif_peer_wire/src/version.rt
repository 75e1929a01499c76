//! Versions of the messages.

/// A version of the messages. They differ in their first four bytes alone: `IGA1` and `IGR1`, or `IGA2` and `IGR2`.
#[derive(Clone, Copy, PartialEq, Eq)]
pub enum Version {
    /// For images of 8 bits a sample.
    One,
    /// For images of 16 bits a sample.
    Two,
}

impl Version {
    ghost use Rattle.std.specs.Prelude.{◌≡◌};
    ghost use Rattle.iiif_peer_wire.specs.Messages.{digit_of};

    /// The digit by which the version is known, in ASCII.
    pub const fn digit(self) -> u8
        ensures { result ≡ digit_of self }
    {
        match self {
            Version::One => b'1',
            Version::Two => b'2',
        }
    }
}
