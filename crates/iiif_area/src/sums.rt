//! Sums at result places: made of tiles, merged, and averaged to samples.

ghost use Rattle.std.specs.Prelude.{◌≡◌, ℕ, ◌*◌, ◌<◌, ◌≤◌, ◌^◌, IfOk, length};
ghost use Rattle.iiif_pixel.specs.Geometry.{channels_of, sides_of, top_of, LiesIn};
ghost use Rattle.iiif_pixel.specs.Picture.{Picture, dim_of, IsWhole};
ghost use Rattle.iiif_pixel.specs.Operations.{crop};
ghost use Rattle.iiif_pixel.specs.Scaling.{scale, whole_of};
ghost use Rattle.iiif_area.specs.Places.{part_of, places_of, IsInside, IsScalable, Meets};
ghost use Rattle.iiif_area.specs.Grid.{finished, grid_of, merged, sums_at, sums_of, IsGrid};
ghost use Rattle.iiif_area.specs.Code.{share_sums, HoldsShare};

use crate::adding::add_part;
use crate::averages::push_averages;
use crate::columns::tile_sums;
use crate::merging::add_places;
use crate::places::{Share, places_of};
use iiif_pixel::{Depth, Dim, Kind, NoMemory, Raster, Rect, Samples};
use std::alloc::{AllocError, Global};
use std::marker::Model;

/// A rectangle of result places, with a sum of weighted samples for each place and channel.
#[derive(Drop)]
pub struct Sums {
    rect: Rect,
    kind: Kind,
    sums: Vec<u64>,
}

impl Model for Sums {
    ghost use Rattle.std.specs.Prelude.{◌≡◌, ◌*◌, length};
    ghost use Rattle.iiif_pixel.specs.Geometry.{channels_of};
    ghost use Rattle.iiif_area.specs.Grid.{Grid};

    ghost Value = { Grid };

    ghost view = { λ s. record { rect = s.rect; channels = channels_of s.kind; sums = s.sums.items } };

    ghost invariant = { λ s. length s.sums.items ≡ s.rect.w * s.rect.h * channels_of s.kind };
}

impl Sums {
    /// Makes sums of 0 at the places of `rect`.
    pub fn zero(alloc: Global, rect: Rect, kind: Kind) -> Result<Sums, NoMemory>
        ensures { IfOk result (λ s. s ≡ grid_of rect (channels_of kind) (λ i j k. 0)) }
    {
        let Some(count) = kind.count(rect.dim()) else {
            return Err(AllocError);
        };
        Ok(Sums {
            rect,
            kind,
            sums: vec![in alloc; 0; count]?,
        })
    }

    /// Takes sums at the places of `rect` as they are: row by row, in a row place by place, at a place channel by channel.
    pub fn from_parts(rect: Rect, kind: Kind, sums: Vec<u64>) -> Sums
        requires { length sums.items ≡ rect.w * rect.h * channels_of kind }
        ensures { result ≡ record { rect = rect; channels = channels_of kind; sums = sums.items } }
    {
        Sums { rect, kind, sums }
    }

    /// Sums up a tile's part of a region that is scaled to `size`, at the result places that this part covers. The tile lies at `at` in an
    /// image, and the region at `region`.
    pub fn of_tile(
        alloc: Global,
        tile: &Raster,
        at: Rect,
        region: Rect,
        size: Dim,
    ) -> Result<Sums, NoMemory>
        requires sides { dim_of tile.now ≡ sides_of at }
        requires meets { Meets at region }
        requires limits { IsScalable (sides_of region) size }
        ensures sums { IfOk result (λ s. (p : Picture) → tile.now ≡ crop p at → s ≡ sums_of (crop p region) size (part_of at region)) }
        ensures places { IfOk result (λ s. s.rect ≡ places_of (sides_of region) size (part_of at region)) }
        ensures channels { IfOk result (λ s. s.channels ≡ tile.now.channels) }
    {
        let share = Share::new(at, region, size);
        let sums = Sums::of_share(alloc, tile, share)?;
        Ok(sums)
    }

    /// Sums up a tile's share of a region, at the result places that its part covers.
    fn of_share(alloc: Global, tile: &Raster, share: Share) -> Result<Sums, NoMemory>
        requires { HoldsShare tile.now share }
        ensures sums { IfOk result (λ s. s ≡ share_sums tile.now share) }
        ensures places { IfOk result (λ s. s.rect ≡ places_of share.region share.size share.part) }
        ensures channels { IfOk result (λ s. s.channels ≡ tile.now.channels) }
    {
        let rect = places_of(share.region, share.size, share.part);
        let sums = tile_sums(alloc, tile, share, rect)?;
        Ok(Sums {
            rect,
            kind: tile.kind(),
            sums,
        })
    }

    /// Returns the rectangle of places that have sums.
    pub fn rect(&self) -> Rect
        ensures { result ≡ self.now.rect }
    {
        self.rect
    }

    /// Returns the kind of the samples that were summed up: gray, or RGB.
    pub fn kind(&self) -> Kind
        ensures { channels_of result ≡ self.now.channels }
    {
        self.kind
    }

    /// Borrows all sums: row by row, in a row place by place, at a place channel by channel.
    pub fn sums(&self) -> &[u64]
        ensures all { result.now ≡ self.now.sums }
        ensures grid { IsGrid self.now }
    {
        let sums = self.sums.as_slice();
        sums
    }

    /// Adds the other's sums at the places that both have. A sum that would pass 2^64 - 1 stays at 2^64 - 1.
    pub fn merge(&mut self, other: &Sums)
        requires { other.now.channels ≡ self.old.channels }
        ensures { self.new ≡ merged self.old other.now }
    {
        let channels = self.kind.channels();
        add_places(channels, self.rect, &mut self.sums, other.rect, &other.sums);
    }

    /// Adds a tile's part of a region that is scaled to `size`, at the places that are there. The sums become those of `merge` with the
    /// tile's own by `of_tile`; this call takes no memory, and is quick where sides grow. The tile lies at `at` in an image, and the region
    /// at `region`.
    pub fn add_tile(&mut self, tile: &Raster, at: Rect, region: Rect, size: Dim)
        requires sides { dim_of tile.now ≡ sides_of at }
        requires kind { tile.now.channels ≡ self.old.channels }
        requires meets { Meets at region }
        requires limits { IsScalable (sides_of region) size }
        ensures sums { (p : Picture) → tile.now ≡ crop p at →
            self.new ≡ merged self.old (sums_of (crop p region) size (part_of at region)) }
        ensures rect { self.new.rect ≡ self.old.rect }
        ensures channels { self.new.channels ≡ self.old.channels }
    {
        let share = Share::new(at, region, size);
        add_part(self.rect, &mut self.sums, tile, share);
    }

    /// Averages sums over the whole of a region at the places of `rect`, in a depth: each average is rounded to the nearest, a half up, and
    /// the depth's greatest sample stands for any above it. Of a picture's sums, made by `of_tile` and `merge`, the raster is that part of
    /// the scaled picture. It takes its memory by the allocator of these sums.
    pub fn finish(&self, region: Dim, rect: Rect, depth: Depth) -> Result<Raster, NoMemory>
        requires columns { 0 < region.w }
        requires rows { 0 < region.h }
        requires area { region.w * region.h ≤ 2 ^ 32 }
        requires inside { IsInside rect self.now.rect }
        ensures samples { IfOk result (λ r. r ≡ finished self.now region (top_of depth) rect) }
        ensures scaled { IfOk result (λ r. (p : Picture) (size : Dim) → IsWhole p → p.top ≡ top_of depth → dim_of p ≡ region →
            LiesIn rect size
            → self.now ≡ sums_at self.now.rect p size (whole_of (dim_of p)) → r ≡ crop (scale p size) rect) }
    {
        let area = u64::from(region.w) * u64::from(region.h);
        let channels = self.kind.channels();
        let width = self.rect.w as usize;
        let (left, top) = (
            (rect.x - self.rect.x) as usize,
            (rect.y - self.rect.y) as usize,
        );
        let run = rect.w as usize * channels;
        let alloc = *self.sums.allocator();
        let mut samples = Samples::with_capacity(alloc, depth, run * rect.h as usize)?;
        for y in 0..rect.h as usize {
            let from = ((top + y) * width + left) * channels;
            push_averages(&mut samples, &self.sums[from..from + run], area);
        }
        Ok(Raster::from_samples(rect.dim(), self.kind, samples))
    }
}
