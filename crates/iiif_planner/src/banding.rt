//! Bands of a turned result, and the items of a plan that each is made of.

ghost use Rattle.std.specs.Prelude.{◌≡◌, ℕ, ◌+◌, ◌-◌, ◌*◌, ◌^◌, ◌<◌, ◌≤◌, All, IfOk};
ghost use Rattle.std.specs.Int.{div_ceil};
ghost use Rattle.iiif_pixel.specs.Geometry.{LiesIn};
ghost use Rattle.iiif_pixel.specs.TurnPlaces.{turned_dim};
ghost use Rattle.iiif_planner.specs.Bands.{band_rect, places_from, AreBands, IsBand, IsPlanned, ListsItems};
ghost use Rattle.iiif_planner.specs.Items.{each_square, squares_met};
ghost use Rattle.iiif_planner.specs.Code.{block_met, grown_met, place_among, source_of, AreBlocks, AreTiles};

use crate::plans::Plan;
use crate::squares::Squares;
use iiif_area::places_of;
use iiif_canonical::Resolved;
use iiif_keys::{SumKey, TileKey, side_of};
use iiif_pixel::{Dim, NoMemory, Rect, unturn_rect};
use std::alloc::Global;

/// A band: some rows of a turned result, and the items of its plan that have a place of them.
#[derive(Drop)]
pub struct Band {
    /// The rows, as a rectangle of the turned result.
    pub rect: Rect,
    /// The items, as their places in the plan, in its order.
    pub items: Vec<usize>,
}

/// Returns the part of a region that a rectangle of its scaled result is made of, in the columns and rows of the image.
fn source_of(region: Rect, size: Dim, part: Rect) -> Rect
    requires columns { (0 < size.w) × (region.x + region.w < 2 ^ 32) }
    requires rows { (0 < size.h) × (region.y + region.h < 2 ^ 32) }
    requires inside { LiesIn part size }
    ensures source { result ≡ source_of region size part }
    ensures columns { (region.x ≤ result.x) × (result.x + result.w ≤ region.x + region.w) }
    ensures rows { (region.y ≤ result.y) × (result.y + result.h ≤ region.y + region.h) }
{
    // From the result back to the region: the sides change places.
    let source = places_of(size, region.dim(), part);
    Rect {
        x: region.x + source.x,
        y: region.y + source.y,
        ..source
    }
}

/// Lists the squares with this side that a rectangle of a scaled region is made of, by their places among those that the region meets.
fn squares_in(
    alloc: Global,
    side: u64,
    region: Rect,
    size: Dim,
    part: Rect,
) -> Result<Vec<usize>, NoMemory>
    requires side { 0 < side }
    requires columns { (0 < size.w) × (region.x + region.w < 2 ^ 32) }
    requires rows { (0 < size.h) × (region.y + region.h < 2 ^ 32) }
    requires inside { LiesIn part size }
    ensures { IfOk result (λ v. v.items
        ≡ each_square (place_among (squares_met side region)) (squares_met side (source_of region size part))) }
{
    let all = Squares::met(side, region);
    let some = Squares::met(side, source_of(region, size, part));
    let mut items = Vec::with_capacity(alloc, some.count())?;
    for row in some.top..some.bottom {
        for column in some.left..some.right {
            items.push(all.place(column, row))?;
        }
    }
    Ok(items)
}

/// Lists the tiles that have samples for a rectangle of the scaled result, by their places in the plan.
fn tiles_in(
    alloc: Global,
    region: Rect,
    size: Dim,
    keys: &[TileKey],
    part: Rect,
) -> Result<Vec<usize>, NoMemory>
    requires tiles { AreTiles region keys.now }
    requires inside { LiesIn part size }
    ensures { IfOk result (λ v. v.items ≡ places_from 0 (grown_met region size part) keys.now) }
{
    if keys.is_empty() || part.w == 0 || part.h == 0 {
        return Ok(Vec::new(alloc));
    }
    squares_in(alloc, u64::from(keys[0].edge), region, size, part)
}

/// Lists the blocks that have sums for a rectangle of the scaled result, by their places in the plan.
fn blocks_in(
    alloc: Global,
    region: Rect,
    size: Dim,
    keys: &[SumKey],
    part: Rect,
) -> Result<Vec<usize>, NoMemory>
    requires blocks { AreBlocks region size keys.now }
    requires inside { LiesIn part size }
    ensures { IfOk result (λ v. v.items ≡ places_from 0 (block_met part) keys.now) }
{
    if keys.is_empty() || part.w == 0 || part.h == 0 {
        return Ok(Vec::new(alloc));
    }
    let side = side_of(keys[0].edge, keys[0].level);
    squares_in(alloc, side, region, size, part)
}

/// Returns the band in a rectangle of the turned result: it lists, in the plan's order, each item that has a place of it and no
/// other, in time of these items. The only error is lack of memory.
pub fn band_in(
    alloc: Global,
    resolved: &Resolved,
    plan: &Plan,
    rect: Rect,
) -> Result<Band, NoMemory>
    requires quarters { resolved.now.turn.quarters < 4 }
    requires plan { IsPlanned resolved.now plan.now }
    requires inside { LiesIn rect (turned_dim resolved.now.turn resolved.now.size) }
    ensures rect { IfOk result (λ b. b.rect ≡ rect) }
    ensures items { IfOk result (λ b. ListsItems resolved.now plan.now rect b.items.items) }
{
    let (region, size) = (resolved.rect, resolved.size);
    let part = unturn_rect(resolved.turn, size, rect);
    match plan {
        Plan::Copy(keys) => {
            let items = tiles_in(alloc, region, size, keys, part)?;
            Ok(Band { rect, items })
        }
        Plan::Grow(keys) => {
            let items = tiles_in(alloc, region, size, keys, part)?;
            Ok(Band { rect, items })
        }
        Plan::Sum(keys) => {
            let items = blocks_in(alloc, region, size, keys, part)?;
            Ok(Band { rect, items })
        }
    }
}

/// Returns rows `n * rows` to `(n + 1) * rows - 1` of a result, as far as it has them.
fn band_rect(dim: Dim, rows: u32, n: u32) -> Rect
    requires { n * rows ≤ dim.h }
    ensures { result ≡ band_rect dim rows n }
{
    let y = n * rows;
    Rect {
        x: 0,
        y,
        w: dim.w,
        h: rows.min(dim.h - y),
    }
}

/// Counts the bands of `rows` that a turned result is cut into.
pub fn band_count(resolved: &Resolved, rows: u32) -> u32
    requires rows { 0 < rows }
    ensures { result ≡ div_ceil (turned_dim resolved.now.turn resolved.now.size).h rows }
{
    resolved.size.turned(resolved.turn).h.div_ceil(rows)
}

/// Returns band `i` of the turned result, cut from the top into bands of `rows`, in time of the band's items: the `i`-th that
/// `bands` returns. The only error is lack of memory.
pub fn band_at(
    alloc: Global,
    resolved: &Resolved,
    plan: &Plan,
    rows: u32,
    i: u32,
) -> Result<Band, NoMemory>
    requires rows { 0 < rows }
    requires quarters { resolved.now.turn.quarters < 4 }
    requires plan { IsPlanned resolved.now plan.now }
    requires index { i < div_ceil (turned_dim resolved.now.turn resolved.now.size).h rows }
    ensures band { IfOk result (IsBand resolved.now plan.now rows i) }
{
    let rect = band_rect(resolved.size.turned(resolved.turn), rows, i);
    band_in(alloc, resolved, plan, rect)
}

/// Cuts the turned result from the top into bands of `rows`, the last perhaps of fewer. Each band lists, in the plan's order, each item
/// that has a place of it and no other. The only error is lack of memory.
pub fn bands(
    alloc: Global,
    resolved: &Resolved,
    plan: &Plan,
    rows: u32,
) -> Result<Vec<Band>, NoMemory>
    requires rows { 0 < rows }
    requires quarters { resolved.now.turn.quarters < 4 }
    requires plan { IsPlanned resolved.now plan.now }
    ensures { IfOk result (λ bs. AreBands resolved.now plan.now rows bs.items) }
{
    let count = band_count(resolved, rows);
    let mut bands = Vec::with_capacity(alloc, count as usize)?;
    for i in 0..count {
        bands.push(band_at(alloc, resolved, plan, rows, i)?)?;
    }
    Ok(bands)
}
