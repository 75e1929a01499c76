//! Rasters: pictures in memory.

ghost use Rattle.std.specs.Prelude.{◌≡◌, ◌*◌, ◌<◌, ◌≤◌, ◌+◌, ◌⊎◌, IfOk, length};
ghost use Rattle.iiif_pixel.specs.Geometry.{channels_of, top_of, LiesIn};
ghost use Rattle.iiif_pixel.specs.Depths.{values_of, depth_of, span_values, span_depth};
ghost use Rattle.iiif_pixel.specs.Picture.{dim_of, index_of, sample_at, picture_of, IsWhole, with_sample, with_span, span_of};
ghost use Rattle.iiif_pixel.specs.Operations.{bitonal, crop, gray, quality, turn};
ghost use Rattle.iiif_pixel.specs.RasterPicture.{raster_picture};

use crate::depths::{Samples, Span};
use crate::fills::turned_samples;
use crate::geometry::{Depth, Dim, Kind, Quality, Rect, Turn};
use crate::grays::{bits_of, gray_samples};
pub use std::alloc::AllocError as NoMemory;
use std::alloc::{AllocError, Global};
use std::marker::Model;

/// A picture in memory, with samples of 8 bits in a byte each or of 16 bits in two. Contracts see the picture alone.
#[derive(Drop)]
pub struct Raster {
    dim: Dim,
    kind: Kind,
    samples: Samples,
}

impl Model for Raster {
    ghost use Rattle.std.specs.Prelude.{◌≡◌, ◌*◌, length};
    ghost use Rattle.iiif_pixel.specs.Geometry.{channels_of};
    ghost use Rattle.iiif_pixel.specs.Depths.{values_of, depth_of};
    ghost use Rattle.iiif_pixel.specs.Picture.{Picture};
    ghost use Rattle.iiif_pixel.specs.RasterPicture.{raster_picture};

    ghost Value = { Picture };

    ghost view = { λ r. raster_picture r.dim r.kind (depth_of r.samples) (values_of r.samples) };

    ghost invariant = { λ r. length (values_of r.samples) ≡ r.dim.w * r.dim.h * channels_of r.kind };
}

impl Raster {
    /// Allocates a raster of zeros. [`NoMemory`] too if the sides ask for more samples than there are addresses.
    pub fn new(alloc: Global, dim: Dim, kind: Kind, depth: Depth) -> Result<Raster, NoMemory>
        ensures { IfOk result (λ r. r ≡ picture_of dim.w dim.h (channels_of kind) (top_of depth) (λ x y k. 0)) }
    {
        let Some(count) = kind.count(dim) else {
            return Err(AllocError);
        };
        Ok(Raster {
            dim,
            kind,
            samples: Samples::zeros(alloc, depth, count)?,
        })
    }

    /// Wraps samples as a raster: row by row from the top, in a row place by place from the left, at a place channel by channel. It
    /// allocates nothing.
    pub fn from_samples(dim: Dim, kind: Kind, samples: Samples) -> Raster
        requires { length (values_of samples) ≡ dim.w * dim.h * channels_of kind }
        ensures { result ≡ raster_picture dim kind (depth_of samples) (values_of samples) }
    {
        Raster { dim, kind, samples }
    }

    /// Returns the sides.
    pub fn dim(&self) -> Dim
        ensures width { result.w ≡ self.now.width }
        ensures height { result.h ≡ self.now.height }
    {
        self.dim
    }

    /// Returns the kind: gray or RGB.
    pub fn kind(&self) -> Kind
        ensures { channels_of result ≡ self.now.channels }
    {
        self.kind
    }

    /// Returns the bits per sample.
    pub fn depth(&self) -> Depth
        ensures { top_of result ≡ self.now.top }
    {
        self.samples.depth()
    }

    /// States what holds of every raster: it has a sample for each place and channel, none above the depth's greatest. It computes
    /// nothing.
    pub fn is_whole(&self)
        ensures whole { IsWhole self.now }
        ensures top { (self.now.top ≡ 255) ⊎ (self.now.top ≡ 65535) }
    {
        // Borrowed and not looked at: the prover knows the range of what stands behind a reference only once it is read.
        let _samples = self.samples();
    }

    /// Borrows all samples, in the order of `from_samples`. `whole` is the clause of `is_whole`.
    pub fn samples(&self) -> Span<'_>
        ensures all { span_values result ≡ self.now.samples }
        ensures depth { top_of (span_depth result) ≡ self.now.top }
        ensures whole { IsWhole self.now }
    {
        self.samples.as_span()
    }

    /// Reads the sample in a column, a row and a channel.
    #[tactic(auto, unfolding(crate::specs::Picture::sample_at))]
    pub fn get(&self, x: u32, y: u32, channel: usize) -> u16
        requires column { x < self.now.width }
        requires row { y < self.now.height }
        requires channel { channel < self.now.channels }
        ensures { result ≡ sample_at self.now x y channel }
    {
        self.samples.get(self.index(x, y, channel))
    }

    /// Writes the sample in a column, a row and a channel, and no other.
    pub fn set(&mut self, x: u32, y: u32, channel: usize, value: u16)
        requires column { x < self.old.width }
        requires row { y < self.old.height }
        requires channel { channel < self.old.channels }
        requires value { value ≤ self.old.top }
        ensures { self.new ≡ with_sample self.old x y channel value }
    {
        let index = self.index(x, y, channel);
        self.samples.set(index, value);
    }

    /// Borrows the samples of `w` places of row `y`, from column `x` on.
    pub fn span(&self, x: u32, y: u32, w: u32) -> Span<'_>
        requires columns { x + w ≤ self.now.width }
        requires row { y < self.now.height }
        ensures samples { span_values result ≡ span_of self.now x y w }
        ensures depth { top_of (span_depth result) ≡ self.now.top }
    {
        let start = self.start(x, y, w);
        self.samples.part(start, w as usize * self.kind.channels())
    }

    /// Overwrites the samples of `w` places of row `y`, from column `x` on, and no other. They have the raster's depth.
    pub fn put_span(&mut self, x: u32, y: u32, w: u32, samples: Span)
        requires columns { x + w ≤ self.old.width }
        requires row { y < self.old.height }
        requires len { length (span_values samples) ≡ w * self.old.channels }
        requires depth { top_of (span_depth samples) ≡ self.old.top }
        ensures { self.new ≡ with_span self.old x y (span_values samples.entry) }
    {
        let start = self.start(x, y, w);
        self.samples.put(start, samples);
    }

    /// Crops to a rectangle (IIIF Image API 3.0, 4.1 Region).
    pub fn crop(&self, rect: Rect) -> Result<Raster, NoMemory>
        requires { LiesIn rect (dim_of self.now) }
        ensures { IfOk result (λ r. r ≡ crop self.now rect) }
    {
        // Read so that the prover knows that the rows' numbers fit.
        let _height = self.dim.h;
        let count = rect.w as usize * self.kind.channels() * rect.h as usize;
        let alloc = self.samples.allocator();
        let mut samples = Samples::with_capacity(alloc, self.samples.depth(), count)?;
        for row in 0..rect.h {
            samples.extend(self.span(rect.x, rect.y + row, rect.w))?;
        }
        Ok(Raster {
            dim: rect.dim(),
            kind: self.kind,
            samples,
        })
    }

    /// Mirrors on the vertical axis if the turn says so, then rotates clockwise (IIIF Image API 3.0, 4.3 Rotation).
    pub fn turn(&self, by: Turn) -> Result<Raster, NoMemory>
        requires { by.quarters < 4 }
        ensures { IfOk result (λ r. r ≡ turn self.now by) }
    {
        if by.quarters == 0 && !by.mirror {
            return self.copy();
        }
        self.move_samples(by)
    }

    /// Converts to a quality, place by place (IIIF Image API 3.0, 4.4 Quality). `Default` and `Color` change nothing.
    pub fn quality(&self, to: Quality) -> Result<Raster, NoMemory>
        ensures { IfOk result (λ r. r ≡ quality self.now to) }
    {
        match to {
            Quality::Default | Quality::Color => self.copy(),
            Quality::Gray => self.gray(),
            Quality::Bitonal => self.bitonal(),
        }
    }

    /// Copies the raster.
    pub fn copy(&self) -> Result<Raster, NoMemory>
        ensures { IfOk result (λ r. r ≡ self.now) }
    {
        Ok(Raster {
            dim: self.dim,
            kind: self.kind,
            samples: self.samples.copy()?,
        })
    }

    /// Turns into a new buffer, sample by sample.
    fn move_samples(&self, by: Turn) -> Result<Raster, NoMemory>
        requires { by.quarters < 4 }
        ensures { IfOk result (λ r. r ≡ turn self.now by) }
    {
        let samples = turned_samples(&self.samples, self.dim, self.kind, by)?;
        Ok(Raster {
            dim: self.dim.turned(by),
            kind: self.kind,
            samples,
        })
    }

    /// Returns the index of the sample in a column, a row and a channel.
    fn index(&self, x: u32, y: u32, channel: usize) -> usize
        requires column { x < self.now.width }
        requires row { y < self.now.height }
        requires channel { channel < self.now.channels }
        ensures value { result ≡ index_of self.now x y channel }
        ensures within { result < length self.now.samples }
    {
        (y as usize * self.dim.w as usize + x as usize) * self.kind.channels() + channel
    }

    /// Returns the index of the first sample of `w` places of row `y`, from column `x` on.
    fn start(&self, x: u32, y: u32, w: u32) -> usize
        requires columns { x + w ≤ self.now.width }
        requires row { y < self.now.height }
        ensures value { result ≡ (y * self.now.width + x) * self.now.channels }
        ensures within { result + w * self.now.channels ≤ length self.now.samples }
    {
        (y as usize * self.dim.w as usize + x as usize) * self.kind.channels()
    }

    /// Converts to gray.
    fn gray(&self) -> Result<Raster, NoMemory>
        ensures { IfOk result (λ r. r ≡ gray self.now) }
    {
        let count = self.dim.w as usize * self.dim.h as usize;
        let samples = gray_samples(&self.samples, self.kind, count)?;
        Ok(Raster {
            dim: self.dim,
            kind: Kind::Gray,
            samples,
        })
    }

    /// Converts to black and white, in 8 bits.
    fn bitonal(&self) -> Result<Raster, NoMemory>
        ensures { IfOk result (λ r. r ≡ bitonal self.now) }
    {
        let count = self.dim.w as usize * self.dim.h as usize;
        let bits = bits_of(&self.samples, self.kind, count)?;
        Ok(Raster {
            dim: self.dim,
            kind: Kind::Gray,
            samples: Samples::Eight(bits),
        })
    }
}
