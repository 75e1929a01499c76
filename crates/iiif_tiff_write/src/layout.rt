//! Lengths of files.

ghost use Rattle.std.specs.Prelude.{◌≡◌, ◌<◌, ◌^◌, ◌↔◌, IsTrue, length};
ghost use Rattle.iiif_pixel.specs.Picture.{Picture, dim_of};
ghost use Rattle.iiif_tiff_write.specs.File.{file, file_len};

use crate::kind::OutKind;
use iiif_pixel::Dim;

/// Returns whether the file of a picture of this size is shorter than 2^32 bytes, as its 32-bit offsets need it to be.
pub fn fits(kind: OutKind, dim: Dim) -> bool
    ensures { IsTrue result ↔ (file_len kind dim < 2 ^ 32) }
{
    let strip_len = kind.row_len(dim.w).saturating_mul(u64::from(dim.h));
    strip_len < (1 << 32) - u64::from(kind.strip_offset())
}

/// Returns the bytes of the whole file of a picture of this size, head and rows. `fits` is a test of the condition.
pub fn total_len(kind: OutKind, dim: Dim) -> u64
    requires { file_len kind dim < 2 ^ 64 }
    ensures value { result ≡ file_len kind dim }
    ensures of_file { (p : Picture) → dim_of p ≡ dim → length (file p kind) ≡ result }
{
    u64::from(kind.strip_offset()) + kind.row_len(dim.w) * u64::from(dim.h)
}
