//! The byte order of a file.

ghost use Rattle.std.specs.Prelude.{◌≡◌};
ghost use Rattle.std.specs.Int.{w16, w32};
ghost use Rattle.iiif_tiff.specs.Tiff.{number};
ghost use Rattle.iiif_tiff_read.specs.Code.{endian};

/// Byte order of a file's numbers (TIFF 6.0, section 2): II files are little-endian, MM files big-endian.
#[derive(Clone, Copy)]
pub enum ByteOrder {
    /// The low byte comes first.
    Little,
    /// The high byte comes first.
    Big,
}

impl ByteOrder {
    /// Decodes a number of two bytes.
    pub fn short(self, bytes: [u8; 2]) -> u16
        ensures { result ≡ number (endian self) w16 bytes 0 }
    {
        match self {
            ByteOrder::Little => u16::from_le_bytes(bytes),
            ByteOrder::Big => u16::from_be_bytes(bytes),
        }
    }

    /// Decodes a number of four bytes.
    pub fn long(self, bytes: [u8; 4]) -> u32
        ensures { result ≡ number (endian self) w32 bytes 0 }
    {
        match self {
            ByteOrder::Little => u32::from_le_bytes(bytes),
            ByteOrder::Big => u32::from_be_bytes(bytes),
        }
    }
}
