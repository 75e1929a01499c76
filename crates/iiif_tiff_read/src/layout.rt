//! Opens a file, and reads rectangles of its image.

ghost use Rattle.std.specs.Prelude.{◌≡◌, ◌≤◌, ℕ, List, length, IfOk, IfErr};
ghost use Rattle.iiif_pixel.specs.Geometry.{channels_of, top_of, LiesIn};
ghost use Rattle.iiif_pixel.specs.Picture.{Picture};
ghost use Rattle.iiif_pixel.specs.Operations.{crop};
ghost use Rattle.iiif_tiff.specs.Tiff.{IsReadable, Scheme, Shows, scheme, refusal_of, white_of};
ghost use Rattle.iiif_tiff_read.specs.Images.{image_scheme};
ghost use Rattle.iiif_tiff_read.specs.Layouts.{FitsIn, dim_of};
ghost use Rattle.iiif_tiff_read.specs.Faults.{Answers, IsLoadFault};

use crate::checks::white_is_zero;
use crate::fault::{LoadFault, OpenFault};
use crate::fields::Fields;
use crate::format::Format;
use crate::image::Image;
use iiif_pixel::{Depth, Dim, Kind, Raster, Rect};
use iiif_source::Source;
use iiif_tiff::tag;
use std::alloc::Global;
use std::marker::Model;

/// Layout of an image in its file: where its samples stand, and how. It holds a few numbers, and four bytes for each strip or tile, and
/// neither the file nor any sample.
#[derive(Drop)]
pub struct Layout {
    image: Image,
    alloc: Global,
}

impl Model for Layout {
    ghost Value = { Scheme };

    ghost view = { λ l. image_scheme l.image };
}

impl Layout {
    /// Returns the width and the height of the image, in pixels.
    pub fn dim(&self) -> Dim
        ensures width { result.w ≡ self.now.width }
        ensures height { result.h ≡ self.now.height }
        ensures limits { IsReadable result }
    {
        self.image.dim
    }

    /// Returns the kind of the image. A bilevel image is gray.
    pub fn kind(&self) -> Kind
        ensures { channels_of result ≡ self.now.channels }
    {
        self.image.format.kind
    }

    /// Returns the depth of the samples that [`Layout::read_rect`] gives: sixteen bits where the file has sixteen, else eight. A bilevel
    /// image has samples of eight bits, 0 and 255.
    pub fn depth(&self) -> Depth
        ensures { top_of result ≡ white_of self.now.bits }
    {
        self.image.format.depth()
    }

    /// Reads a rectangle of the image, which lies in it, from the source that the layout was opened from. Black is 0 in the raster, also
    /// where white is 0 in the file, and a bit of a bilevel image is 0 or 255. The raster is right as long as the source keeps its bytes; a
    /// source that has become shorter gives a fault. A rectangle without rows or columns gives a raster without samples.
    ///
    /// It reads the bytes that the rectangle needs and no others, by one call of [`Source::read_runs`] for each tile, or for all strips
    /// that stand one after another in the file. The first fault of the source ends it, and no read is made again. (Which reads are made is
    /// tested and not proved.)
    pub fn read_rect<R, S: Source<R>>(
        &self,
        rt: &R,
        source: &S,
        rect: Rect,
    ) -> Result<Raster, LoadFault>
        requires inside { LiesIn rect (dim_of self.now) }
        requires in_file { FitsIn self.now (length (S.bytes source.now)) }
        ensures sides { IfOk result (λ r. (r.width ≡ rect.w) × (r.height ≡ rect.h) × (r.channels ≡ self.now.channels) ×
            (r.top ≡ white_of self.now.bits)) }
        ensures crop { IfOk result (λ r. S.keeps source.now → self.now ≡ scheme (S.bytes source.now)
            → (p : Picture) → Shows (S.bytes source.now) p → r ≡ crop p rect) }
        ensures fault { IfErr result (IsLoadFault (S.gave source.now)) }
    {
        let samples = self.image.read_samples(rt, self.alloc, source, rect)?;
        Ok(Raster::from_samples(rect.dim(), self.image.format.kind, samples))
    }
}

/// Opens a file: reads its first directory, and checks in this order the sides, the samples, the grid of strips or tiles, and each strip or
/// tile. Of the samples it checks SamplesPerPixel, BitsPerSample, Compression, PhotometricInterpretation, FillOrder, Orientation,
/// PlanarConfiguration, ExtraSamples and SampleFormat, in this order. The first check that fails is the fault; a file that passes all of
/// them has a layout. A fault of the source, or want of memory, ends it too. Where the offsets or byte counts are more than the strips or
/// tiles, the first of them are read. It reads no sample, and holds at most twelve bytes for each strip or tile meanwhile, beside the
/// directory.
#[tactic(auto, unfolding(iiif_tiff::specs::Tiff::refusal_of, iiif_tiff::specs::Tiff::samples, iiif_tiff::specs::Tiff::photometric))]
pub fn open<R, S: Source<R>>(rt: &R, alloc: Global, source: &S) -> Result<Layout, OpenFault>
    ensures checks { Answers (S.keeps source.now) (S.gave source.now) (refusal_of (S.bytes source.now))
        (λ layout. layout ≡ scheme (S.bytes source.now)) result }
    ensures in_file { IfOk result (λ layout. FitsIn layout (length (S.bytes source.now))) }
{
    let fields = Fields::read(rt, alloc, source)?;
    let dim = fields.sides()?;
    let kind = fields.samples_per_pixel()?;
    let channels = kind.channels() as u32;
    let bits = fields.bits_per_sample(channels)?;
    fields.expect_value(tag::COMPRESSION, 1)?;
    let photometric = fields.needed(tag::PHOTOMETRIC_INTERPRETATION)?;
    let Some(white_is_zero) = white_is_zero(channels, photometric) else {
        return Err(OpenFault::Unsupported(tag::PHOTOMETRIC_INTERPRETATION));
    };
    fields.expect_value(tag::FILL_ORDER, 1)?;
    fields.expect_value(tag::ORIENTATION, 1)?;
    fields.planar_configuration(channels)?;
    fields.extra_samples()?;
    fields.sample_format(channels)?;
    let format = Format {
        kind,
        bits,
        order: fields.order(),
        white_is_zero,
    };
    let grid = fields.grid(dim)?;
    let offsets = fields.pieces(alloc, dim, format, &grid)?;
    let image = Image {
        dim,
        format,
        grid,
        offsets,
    };
    Ok(Layout { image, alloc })
}
