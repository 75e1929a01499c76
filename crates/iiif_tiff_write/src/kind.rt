//! Kinds of files.

use iiif_pixel::{Depth, Kind, Quality};

/// A kind of file: what a pixel is (TIFF 6.0, PhotometricInterpretation and SamplesPerPixel), and how many bits a sample has.
#[derive(Clone, Copy, Debug, PartialEq, Eq)]
pub enum OutKind {
    /// Grayscale of 8 bits (section 4).
    Gray,
    /// Red, green and blue of 8 bits each (section 6).
    Rgb,
    /// Bilevel, one bit (section 3).
    Bitonal,
    /// Grayscale of 16 bits.
    Gray16,
    /// Red, green and blue of 16 bits each.
    Rgb16,
}

impl OutKind {
    ghost use Rattle.std.specs.Prelude.{◌≡◌};
    ghost use Rattle.iiif_pixel.specs.Picture.{Picture};
    ghost use Rattle.iiif_pixel.specs.Operations.{quality};
    ghost use Rattle.iiif_tiff_write.specs.File.{photometric, row_len, strip_offset};
    ghost use Rattle.iiif_tiff_write.specs.OutKind.{kind_of, out_depth, out_kind_of, samples_per_pixel};
    ghost use Rattle.iiif_tiff_write.specs.Reading.{Holds, IsOf};

    /// Chooses the kind of file for a picture of this kind and depth in a quality (IIIF Image API 3.0, 4.4). A file of that kind
    /// holds the picture in that quality without loss.
    pub fn for_quality(source: Kind, depth: Depth, to: Quality) -> OutKind
        ensures kind { result ≡ out_kind_of source depth to }
        ensures holds { (p : Picture) → IsOf source depth p → Holds result (quality p to) }
    {
        OutKind::in_quality(source, depth, to)
    }

    fn in_quality(source: Kind, depth: Depth, to: Quality) -> OutKind
        ensures { result ≡ out_kind_of source depth to }
    {
        match to {
            Quality::Default | Quality::Color => OutKind::with_samples(source, depth),
            Quality::Gray => OutKind::with_samples(Kind::Gray, depth),
            Quality::Bitonal => OutKind::Bitonal,
        }
    }

    /// Chooses the kind that stores samples unchanged.
    fn with_samples(source: Kind, depth: Depth) -> OutKind
        ensures { result ≡ kind_of source depth }
    {
        match (source, depth) {
            (Kind::Gray, Depth::Eight) => OutKind::Gray,
            (Kind::Rgb, Depth::Eight) => OutKind::Rgb,
            (Kind::Gray, Depth::Sixteen) => OutKind::Gray16,
            (Kind::Rgb, Depth::Sixteen) => OutKind::Rgb16,
        }
    }

    /// Returns the samples of a pixel, as the field SamplesPerPixel has them (TIFF 6.0, sections 4 and 6).
    pub fn samples_per_pixel(self) -> u8
        ensures { result ≡ samples_per_pixel self }
    {
        match self {
            OutKind::Gray | OutKind::Bitonal | OutKind::Gray16 => 1,
            OutKind::Rgb | OutKind::Rgb16 => 3,
        }
    }

    /// Returns the depth of the pictures that a file of the kind is written from. Bits are written from black and white in 8 bits.
    pub fn depth(self) -> Depth
        ensures { result ≡ out_depth self }
    {
        match self {
            OutKind::Gray | OutKind::Rgb | OutKind::Bitonal => Depth::Eight,
            OutKind::Gray16 | OutKind::Rgb16 => Depth::Sixteen,
        }
    }

    /// Returns the field PhotometricInterpretation: 1, BlackIsZero, or 2, RGB.
    pub(crate) fn photometric(self) -> u16
        ensures { result ≡ photometric self }
    {
        match self {
            OutKind::Gray | OutKind::Bitonal | OutKind::Gray16 => 1,
            OutKind::Rgb | OutKind::Rgb16 => 2,
        }
    }

    /// Returns the offset of the strip, in bytes.
    pub(crate) fn strip_offset(self) -> u32
        ensures { result ≡ strip_offset self }
    {
        match self {
            OutKind::Gray | OutKind::Bitonal | OutKind::Gray16 => 174,
            OutKind::Rgb | OutKind::Rgb16 => 180,
        }
    }

    /// Returns the bytes of a row of `w` pixels.
    pub(crate) fn row_len(self, w: u32) -> u64
        ensures { result ≡ row_len self w }
    {
        match self {
            OutKind::Gray => u64::from(w),
            OutKind::Rgb => u64::from(w) * 3,
            OutKind::Bitonal => u64::from(w).div_ceil(8),
            OutKind::Gray16 => u64::from(w) * 2,
            OutKind::Rgb16 => u64::from(w) * 6,
        }
    }
}
