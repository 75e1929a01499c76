//! The head of a file: its header, its directory, and the values that stand outside of the directory.

ghost use Rattle.std.specs.Prelude.{◌≡◌, ◌<◌, ◌^◌, ◌++◌, length};
ghost use Rattle.iiif_pixel.specs.Picture.{Picture, dim_of};
ghost use Rattle.iiif_tiff_write.specs.File.{file, file_len, head_of, strip, strip_offset};

use crate::head_bytes::Head;
use crate::kind::OutKind;
use iiif_pixel::Dim;
use iiif_tiff::tag;

/// Makes the bytes in front of the rows in the file of a picture of this size. `fits` is a test of the condition.
pub fn head(kind: OutKind, dim: Dim) -> Head
    requires { file_len kind dim < 2 ^ 32 }
    ensures value { result ≡ head_of kind dim }
    ensures len { length result ≡ strip_offset kind }
    ensures of_file { (p : Picture) → dim_of p ≡ dim → result ++ strip kind p ≡ file p kind }
{
    let strip_len = (kind.row_len(dim.w) * u64::from(dim.h)) as u32;
    let mut head = Head::new();
    head.put_header();
    head.put_short(12);
    head.put_long_field(tag::IMAGE_WIDTH, dim.w);
    head.put_long_field(tag::IMAGE_LENGTH, dim.h);
    head.put_bits_per_sample(kind);
    head.put_short_field(tag::COMPRESSION, 1);
    head.put_short_field(tag::PHOTOMETRIC_INTERPRETATION, kind.photometric());
    head.put_long_field(tag::STRIP_OFFSETS, kind.strip_offset());
    head.put_short_field(tag::SAMPLES_PER_PIXEL, u16::from(kind.samples_per_pixel()));
    head.put_long_field(tag::ROWS_PER_STRIP, dim.h);
    head.put_long_field(tag::STRIP_BYTE_COUNTS, strip_len);
    head.put_rational_field_at(tag::X_RESOLUTION, 158);
    head.put_rational_field_at(tag::Y_RESOLUTION, 166);
    head.put_short_field(tag::RESOLUTION_UNIT, 1);
    head.put_long(0);
    head.put_outside(kind);
    head
}
