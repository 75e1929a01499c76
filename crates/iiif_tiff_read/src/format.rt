//! The format of stored samples.

ghost use Rattle.std.specs.Prelude.{◌≡◌, ◌*◌, ◌≤◌};
ghost use Rattle.iiif_pixel.specs.Geometry.{channels_of, top_of};
ghost use Rattle.iiif_tiff.specs.Tiff.{white_of};
ghost use Rattle.iiif_tiff_read.specs.Code.{unit_bits, units_of};

use crate::byte_order::ByteOrder;
use iiif_pixel::{Depth, Kind};

/// Format of stored samples.
#[derive(Clone, Copy)]
pub struct Format {
    pub kind: Kind,
    /// Bits of a stored sample: 1, 8 or 16.
    pub bits: u32,
    pub order: ByteOrder,
    pub white_is_zero: bool,
}

impl Format {
    /// Counts the units of a pixel. A unit is a sample of 8 bits or of one, or one of the two bytes of a sample of 16 bits.
    pub fn units(self) -> usize
        ensures units { result ≡ channels_of self.kind * units_of self.bits }
        ensures bound { result ≤ 6 }
    {
        if self.bits == 16 {
            self.kind.channels() * 2
        } else {
            self.kind.channels()
        }
    }

    /// Returns how many bits a unit has.
    pub fn unit_bits(self) -> u32
        ensures { result ≡ unit_bits self.bits }
    {
        if self.bits == 16 { 8 } else { self.bits }
    }

    /// Returns the depth of samples once they are read: a sample of one bit becomes one of eight.
    pub fn depth(self) -> Depth
        ensures { top_of result ≡ white_of self.bits }
    {
        if self.bits == 16 {
            Depth::Sixteen
        } else {
            Depth::Eight
        }
    }
}
