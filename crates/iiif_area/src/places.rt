//! Parts of a region, and the result places that they cover.

ghost use Rattle.std.specs.Prelude.{◌≡◌, ℕ, ◌+◌, ◌<◌, ◌≤◌, ◌↔◌, IsTrue, ◌-◌, ◌*◌, ◌/◌, min, max};
ghost use Rattle.std.specs.Int.{div_ceil};
ghost use Rattle.iiif_pixel.specs.Geometry.{sides_of, HasPlace, LiesIn};
ghost use Rattle.iiif_area.specs.Code.{columns_of, held_of, rows_of, share_of};
ghost use Rattle.iiif_area.specs.Places.{corner_of, part_of, places_of, IsInside, Meets};

use crate::weights::Axis;
use iiif_pixel::{Dim, Rect};

/// The part of a region that a tile holds, from the tile's place `corner` on; the region is scaled to `size`.
#[derive(Clone, Copy)]
pub(crate) struct Share {
    pub corner: (u32, u32),
    pub part: Rect,
    pub region: Dim,
    pub size: Dim,
}

impl Share {
    /// Makes a tile's share of a region. Tile and region are given in the columns and rows of one image.
    pub(crate) fn new(tile: Rect, region: Rect, size: Dim) -> Share
        ensures { result ≡ share_of tile region size }
    {
        Share {
            corner: corner_of(tile, region),
            part: part_of(tile, region),
            region: region.dim(),
            size,
        }
    }

    /// Returns the columns of the region, and which of them the part has.
    pub(crate) fn columns(self) -> Axis
        ensures { result ≡ columns_of self }
    {
        Axis {
            a: self.region.w,
            c: self.size.w,
            from: self.part.x,
            count: self.part.w,
        }
    }

    /// Returns the rows likewise.
    pub(crate) fn rows(self) -> Axis
        ensures { result ≡ rows_of self }
    {
        Axis {
            a: self.region.h,
            c: self.size.h,
            from: self.part.y,
            count: self.part.h,
        }
    }

    /// Returns the rectangle of the tile in which the part lies.
    pub(crate) fn held(self) -> Rect
        ensures { result ≡ held_of self }
    {
        Rect {
            x: self.corner.0,
            y: self.corner.1,
            w: self.part.w,
            h: self.part.h,
        }
    }
}

/// Returns the part of a region that lies in a tile, in the region's own columns and rows. Tile and region are given in the columns and
/// rows of one image. If they have no place in common, a side of the part is 0.
pub fn part_of(tile: Rect, region: Rect) -> Rect
    ensures part { result ≡ part_of tile region }
    ensures same_places { (x y : ℕ) → HasPlace result x y
        ↔ ((x < region.w) × (y < region.h) × HasPlace tile (region.x + x) (region.y + y)) }
{
    let left = tile.x.max(region.x);
    let top = tile.y.max(region.y);
    Rect {
        x: left - region.x,
        y: top - region.y,
        w: common(tile.x, tile.w, region.x, region.w),
        h: common(tile.y, tile.h, region.y, region.h),
    }
}

/// Returns the column and the row of the tile at which that part begins.
pub fn corner_of(tile: Rect, region: Rect) -> (u32, u32)
    ensures { result ≡ corner_of tile region }
{
    (tile.x.max(region.x) - tile.x, tile.y.max(region.y) - tile.y)
}

/// Returns the result places that a part of a region covers, at least partly, when the region is scaled to `size`.
pub fn places_of(region: Dim, size: Dim, part: Rect) -> Rect
    requires columns { 0 < region.w }
    requires rows { 0 < region.h }
    requires inside { LiesIn part region }
    ensures places { result ≡ places_of region size part }
    ensures inside { LiesIn result size }
{
    let (x, w) = places_along(region.w, size.w, part.x, part.w);
    let (y, h) = places_along(region.h, size.h, part.y, part.h);
    Rect { x, y, w, h }
}

/// Returns whether a tile and a region have a place in common.
pub fn meets(tile: Rect, region: Rect) -> bool
    ensures { IsTrue result ↔ Meets tile region }
{
    let part = part_of(tile, region);
    part.w > 0 && part.h > 0
}

/// Returns whether each place of `rect` is one of `whole`.
pub fn is_inside(rect: Rect, whole: Rect) -> bool
    ensures { IsTrue result ↔ IsInside rect whole }
{
    let end = |from: u32, count: u32| u64::from(from) + u64::from(count);
    whole.x <= rect.x
        && end(rect.x, rect.w) <= end(whole.x, whole.w)
        && whole.y <= rect.y
        && end(rect.y, rect.h) <= end(whole.y, whole.h)
}

/// Counts the columns that both the `m` columns from `p` on and the `n` columns from `q` on have.
fn common(p: u32, m: u32, q: u32, n: u32) -> u32
    ensures { result ≡ min (p + m) (q + n) - max p q }
{
    let end = (u64::from(p) + u64::from(m)).min(u64::from(q) + u64::from(n));
    end.saturating_sub(u64::from(p.max(q))) as u32
}

/// Returns the first result column that the `count` source columns from `from` on cover, and how many they cover, when `a` columns are
/// scaled to `c`.
fn places_along(a: u32, c: u32, from: u32, count: u32) -> (u32, u32)
    requires divides { 0 < a }
    requires inside { from + count ≤ a }
    ensures first { result.0 ≡ from * c / a }
    ensures count { result.1 ≡ div_ceil ((from + count) * c) a - from * c / a }
    ensures inside { result.0 + result.1 ≤ c }
{
    let (a, c) = (u64::from(a), u64::from(c));
    let first = u64::from(from) * c / a;
    let end = (u64::from(from + count) * c).div_ceil(a);
    (first as u32, (end - first) as u32)
}
