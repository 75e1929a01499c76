//! Checks of the fields that tell the sides and the samples of an image.

ghost use Rattle.std.specs.Prelude.{◌≡◌, ◌^◌, ◌<◌, ◌≤◌, ◌==◌, ◌&&◌, if◌then◌else◌, is_some, nat_le, IfSome, IfOk, IfErr};
ghost use Rattle.std.specs.List.{list_all};
ghost use Rattle.iiif_pixel.specs.Geometry.{channels_of};
ghost use Rattle.iiif_tiff.specs.Tiff as tiff;
ghost use Rattle.iiif_tiff.specs.Tiff.{IsReadable, sides, samples_per_pixel, bits_per_sample, planar_configuration};
ghost use Rattle.iiif_tiff.specs.Tiff.{extra_samples, sample_format, tile_side, value_or, channels, bits};
ghost use Rattle.iiif_tiff_read.specs.Code.{AreBits, HasSides, IsNotMemory, Tells, TellsWhere};

use crate::fault::OpenFault;
use crate::fields::Fields;
use iiif_pixel::{Dim, Kind};
use iiif_source::Source;
use iiif_tiff::{MAX_AREA, MAX_SIDE, tag};

/// The most pixels that a tile is wide or high.
const MAX_TILE_SIDE: u32 = 1 << 20;

/// Returns whether all values are this one.
fn all_are(values: &[u32], value: u32) -> bool
    ensures { result ≡ list_all (λ v. v == value) values.now }
{
    values.iter().all(|v| *v == value)
}

/// Returns the bits of a sample, if all channels have eight or sixteen, or the only one has one.
fn depth(bits: &[u32], channels: u32) -> Option<u32>
    ensures { result ≡ (if list_all (λ v. v == 8) bits.now then Some 8 else
        (if list_all (λ v. v == 16) bits.now then Some 16 else
        (if channels == 1 && list_all (λ v. v == 1) bits.now then Some 1 else None))) }
{
    if all_are(bits, 8) {
        Some(8)
    } else if all_are(bits, 16) {
        Some(16)
    } else if channels == 1 && all_are(bits, 1) {
        Some(1)
    } else {
        None
    }
}

/// Returns whether a sample of 0 is white (TIFF 6.0, section 8, PhotometricInterpretation): one sample is WhiteIsZero (0) or BlackIsZero
/// (1), three are RGB (2), where 0 is black. None for any other interpretation, such as a palette (3).
pub fn white_is_zero(channels: u32, photometric: u32) -> Option<bool>
    ensures known { is_some result ≡ (if channels == 1 then nat_le photometric 1 else photometric == 2) }
    ensures white { IfSome result (λ white. white ≡ (photometric == 0)) }
{
    match (channels, photometric) {
        (1, 0) => Some(true),
        (1, 1) => Some(false),
        (1, _) => None,
        (_, 2) => Some(false),
        _ => None,
    }
}

impl<'a, R, S: Source<R>> Fields<'a, R, S> {
    /// Reads the width and the height of the image.
    #[tactic(auto, unfolding(iiif_tiff::specs::Tiff::sides))]
    pub fn sides(&self) -> Result<Dim, OpenFault>
        ensures sides { Tells S.bytes S.gave self.now sides HasSides result }
        ensures bounds { IfOk result IsReadable }
        ensures memory { IfErr result IsNotMemory }
    {
        let w = self.needed(tag::IMAGE_WIDTH)?;
        if w == 0 {
            return Err(OpenFault::BadField(tag::IMAGE_WIDTH));
        }
        if w > MAX_SIDE {
            return Err(OpenFault::TooLarge);
        }
        let h = self.needed(tag::IMAGE_LENGTH)?;
        if h == 0 {
            return Err(OpenFault::BadField(tag::IMAGE_LENGTH));
        }
        if h > MAX_SIDE || w as u64 * h as u64 > MAX_AREA {
            return Err(OpenFault::TooLarge);
        }
        Ok(Dim { w, h })
    }

    /// Reads how many samples a pixel has: one, gray, or three, RGB.
    #[tactic(auto, unfolding(iiif_tiff::specs::Tiff::samples_per_pixel))]
    pub fn samples_per_pixel(&self) -> Result<Kind, OpenFault>
        ensures answer { Tells S.bytes S.gave self.now samples_per_pixel (λ file k. channels_of k ≡ channels file) result }
        ensures memory { IfErr result IsNotMemory }
    {
        match self.optional(tag::SAMPLES_PER_PIXEL, 1)? {
            0 => Err(OpenFault::BadField(tag::SAMPLES_PER_PIXEL)),
            1 => Ok(Kind::Gray),
            3 => Ok(Kind::Rgb),
            _ => Err(OpenFault::Unsupported(tag::SAMPLES_PER_PIXEL)),
        }
    }

    /// Reads how many bits a sample has.
    #[tactic(auto, unfolding(iiif_tiff::specs::Tiff::bits_per_sample))]
    pub fn bits_per_sample(&self, channels: u32) -> Result<u32, OpenFault>
        requires { channels ≤ 3 }
        ensures bits { TellsWhere S.bytes S.gave self.now (λ file. S.keeps self.now.source.now × (channels ≡ tiff.channels file))
            bits_per_sample
            (λ file n. n ≡ bits file) result }
        ensures bounds { IfOk result AreBits }
        ensures memory { IfErr result IsNotMemory }
    {
        let bits = self.each(tag::BITS_PER_SAMPLE, channels, 1)?;
        match depth(bits.as_slice(), channels) {
            Some(bits) => Ok(bits),
            None => Err(OpenFault::Unsupported(tag::BITS_PER_SAMPLE)),
        }
    }

    /// Refuses samples in planes, one for each channel. With one sample a pixel the field has no meaning (TIFF 6.0, section 8,
    /// PlanarConfiguration), and isn't looked at.
    #[tactic(auto, unfolding(iiif_tiff::specs::Tiff::planar_configuration))]
    pub fn planar_configuration(&self, channels: u32) -> Result<(), OpenFault>
        ensures answer { TellsWhere S.bytes S.gave self.now (λ file. channels ≡ tiff.channels file) planar_configuration
            (λ _ _. Unit {0}) result }
        ensures memory { IfErr result IsNotMemory }
    {
        if channels != 1 {
            self.expect_value(tag::PLANAR_CONFIGURATION, 1)?;
        }
        Ok(())
    }

    /// Refuses further samples, such as opacity (TIFF 6.0, section 18).
    #[tactic(auto, unfolding(iiif_tiff::specs::Tiff::extra_samples))]
    pub fn extra_samples(&self) -> Result<(), OpenFault>
        ensures answer { Tells S.bytes S.gave self.now extra_samples (λ _ _. Unit {0}) result }
        ensures memory { IfErr result IsNotMemory }
    {
        if self.has(tag::EXTRA_SAMPLES) {
            Err(OpenFault::Unsupported(tag::EXTRA_SAMPLES))
        } else {
            Ok(())
        }
    }

    /// Refuses samples other than unsigned integers (TIFF 6.0, section 19).
    #[tactic(auto, unfolding(iiif_tiff::specs::Tiff::sample_format))]
    pub fn sample_format(&self, channels: u32) -> Result<(), OpenFault>
        requires { channels ≤ 3 }
        ensures answer { TellsWhere S.bytes S.gave self.now (λ file. S.keeps self.now.source.now × (channels ≡ tiff.channels file))
            sample_format
            (λ _ _. Unit {0}) result }
        ensures memory { IfErr result IsNotMemory }
    {
        let formats = self.each(tag::SAMPLE_FORMAT, channels, 1)?;
        if all_are(formats.as_slice(), 1) {
            Ok(())
        } else {
            Err(OpenFault::Unsupported(tag::SAMPLE_FORMAT))
        }
    }

    /// Reads the width or the height of a tile.
    #[tactic(auto, unfolding(iiif_tiff::specs::Tiff::tile_side))]
    pub fn tile_side(&self, tag: u16) -> Result<u32, OpenFault>
        ensures side { Tells S.bytes S.gave self.now (λ file. tile_side file tag) (λ file n. n ≡ value_or file tag 0 0) result }
        ensures bounds { IfOk result (λ n. (0 < n) × (n ≤ 2 ^ 20)) }
        ensures memory { IfErr result IsNotMemory }
    {
        let side = self.needed(tag)?;
        if side == 0 {
            return Err(OpenFault::BadField(tag));
        }
        if side > MAX_TILE_SIDE {
            return Err(OpenFault::TooLarge);
        }
        Ok(side)
    }
}
