//! How a plan is made.

ghost use Rattle.std.specs.Prelude.{◌≡◌, ◌+◌, ◌*◌, ◌^◌, ◌<◌, ◌≤◌, IfOk};
ghost use Rattle.iiif_pixel.specs.Geometry.{channels_of, LiesIn};
ghost use Rattle.iiif_keys.specs.Blocks.{IsEdge};
ghost use Rattle.iiif_planner.specs.Items.{block_at, each_square, is_scaled_up, tile_at, HasItems};
ghost use Rattle.iiif_planner.specs.Plans.{IsPlan};

use crate::levels::Scaled;
use crate::plans::Plan;
use crate::squares::Squares;
use iiif_canonical::Resolved;
use iiif_keys::{Name, SumKey, TileKey, side_of};
use iiif_pixel::{Dim, Kind, NoMemory, Rect};
use std::alloc::Global;

/// Plans a request on the named image with these sides, of this kind.
///
/// A region that keeps its size, or is enlarged in either direction, is made of the tiles that it meets. Any other is made of the blocks
/// that it meets, of one level: the greatest one, up to 20, at which a block has at most `room` sums and no block of a lower level holds
/// the whole image; level 0 where there is no such level. Each tile or block is listed once, row by row. The only error is lack of memory.
pub fn plan(
    alloc: Global,
    name: &Name,
    resolved: &Resolved,
    image: Dim,
    kind: Kind,
    edge: u32,
    room: u64,
) -> Result<Plan, NoMemory>
    requires edge { IsEdge edge }
    requires room { room ≤ 65536 }
    requires inside { LiesIn resolved.now.rect image }
    requires columns { (0 < resolved.now.size.w) × (0 < resolved.now.rect.w) }
    requires rows { (0 < resolved.now.size.h) × (0 < resolved.now.rect.h) }
    ensures plan { IfOk result (IsPlan name.now edge image (channels_of kind) room resolved.now) }
    ensures exact { IfOk result (HasItems name.now edge image (channels_of kind) room resolved.now) }
{
    let (rect, size) = (resolved.rect, resolved.size);
    let region = rect.dim();
    let tile = u64::from(edge);
    if size == region {
        let met = Squares::met(tile, rect);
        let keys = tiles(alloc, name, edge, met)?;
        return Ok(Plan::Copy(keys));
    }
    if is_scaled_up(resolved) {
        let met = Squares::met(tile, rect);
        let keys = tiles(alloc, name, edge, met)?;
        return Ok(Plan::Grow(keys));
    }
    let scaled = Scaled {
        edge,
        image,
        region,
        size,
        channels: kind.channels() as u64,
        room,
    };
    let level = scaled.level();
    let met = Squares::met(side_of(edge, level), rect);
    let keys = blocks(alloc, name, edge, rect, size, level, met)?;
    Ok(Plan::Sum(keys))
}

/// Returns whether a side of the result is above the region's.
fn is_scaled_up(resolved: &Resolved) -> bool
    ensures { result ≡ is_scaled_up resolved.now }
{
    resolved.size.w > resolved.rect.w || resolved.size.h > resolved.rect.h
}

/// Returns the key of the tile in a column and a row.
fn tile_at(name: &Name, edge: u32, tx: u32, ty: u32) -> Result<TileKey, NoMemory>
    ensures { IfOk result (λ key. key ≡ tile_at name.now edge tx ty) }
{
    Ok(TileKey {
        name: name.copy()?,
        edge,
        tx,
        ty,
    })
}

/// Lists the tiles of some squares.
fn tiles(alloc: Global, name: &Name, edge: u32, squares: Squares) -> Result<Vec<TileKey>, NoMemory>
    requires columns { squares.left ≤ squares.right }
    requires rows { squares.top ≤ squares.bottom }
    ensures { IfOk result (λ v. v.items ≡ each_square (tile_at name.now edge) squares) }
{
    let mut keys = Vec::with_capacity(alloc, squares.count())?;
    for ty in squares.top..squares.bottom {
        for tx in squares.left..squares.right {
            keys.push(tile_at(name, edge, tx, ty)?)?;
        }
    }
    Ok(keys)
}

/// Lists the blocks of some squares, of a level, for the region scaled to `size`.
fn blocks(
    alloc: Global,
    name: &Name,
    edge: u32,
    region: Rect,
    size: Dim,
    level: u8,
    squares: Squares,
) -> Result<Vec<SumKey>, NoMemory>
    requires columns { squares.left ≤ squares.right }
    requires rows { squares.top ≤ squares.bottom }
    ensures { IfOk result (λ v. v.items ≡ each_square (block_at name.now edge region size level) squares) }
{
    let mut keys = Vec::with_capacity(alloc, squares.count())?;
    for by in squares.top..squares.bottom {
        for bx in squares.left..squares.right {
            keys.push(SumKey {
                name: name.copy()?,
                edge,
                rect: region,
                size,
                level,
                bx,
                by,
            })?;
        }
    }
    Ok(keys)
}
