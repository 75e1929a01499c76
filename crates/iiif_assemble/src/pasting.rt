//! The part of a region that keeps its sides, of its tiles.

ghost use Rattle.std.specs.Prelude.{◌≡◌, ℕ, ◌+◌, ◌-◌, ◌<◌, ◌≤◌, List, All, slice_index_or, IfOk, IfErr, length, map};
ghost use Rattle.std.specs.Arc.{arc_value};
ghost use Rattle.iiif_pixel.specs.Geometry.{channels_of, nested, sides_of, top_of, LiesIn};
ghost use Rattle.iiif_pixel.specs.Picture.{Picture, dim_of, sample_at};
ghost use Rattle.iiif_pixel.specs.Operations.{crop};
ghost use Rattle.iiif_area.specs.Places.{part_of, IsInside};
ghost use Rattle.iiif_keys.specs.Blocks.{tile_of, TileFitsIn};
ghost use Rattle.iiif_keys.specs.Names.{Pictures};
ghost use Rattle.iiif_keys.specs.declared.fault.Fault.TheVariants as Fault;
ghost use Rattle.iiif_keys.specs.Meaning.{TileHasShape};
ghost use Rattle.iiif_keys.specs.declared.keys.TileKey.{TileKey};
ghost use Rattle.iiif_planner.specs.Bands.{tile_places};
ghost use Rattle.iiif_assemble.specs.Gathering.{AreValues, IsItemFault};
ghost use Rattle.iiif_assemble.specs.Jobs.{IsJob, TilesAreMeant, TilesServe};
ghost use Rattle.iiif_assemble.specs.Making.{lent, MakesScaled};
ghost use Rattle.iiif_assemble.specs.Code.{count_of, tile_in, AreTiles, Copies, HasCopied, IsPictureOf, IsWithin, ListsMet};

use crate::context::RenderContext;
use crate::finishing::count_of;
use crate::items::Items;
use crate::job::{JobRef, Made};
use crate::pool::gather;
use iiif_area::{corner_of, is_inside, meets, part_of};
use iiif_keys::{Fault, Shape, TileKey, TileVal};
use iiif_pixel::laws::{crop_of_crop, whole_stays_whole};
use iiif_pixel::{Raster, Rect};
use std::alloc::Global;
use std::sync::{Arc, Wait};
use std::thread::Threads;

/// Copies a part of a tile, from its place `corner` on, to its place in a picture.
fn put_part(picture: &mut Raster, tile: &Raster, corner: (u32, u32), part: Rect)
    requires channels { tile.now.channels ≡ picture.old.channels }
    requires top { tile.now.top ≡ picture.old.top }
    requires inside { LiesIn part (dim_of picture.old) }
    requires columns { corner.0 + part.w ≤ tile.now.width }
    requires rows { corner.1 + part.h ≤ tile.now.height }
    ensures { Copies part (λ x y k. sample_at tile.now (corner.0 + (x - part.x)) (corner.1 + (y - part.y)) k) picture.old picture.new }
{
    // Read, so that the rows' numbers are known to fit.
    let (_sides, _bounds) = (tile.dim(), picture.dim());
    for row in 0..part.h {
        // Of whole pictures, so that the rows' places are known to fit.
        picture.is_whole();
        let run = tile.span(corner.0, corner.1 + row, part.w);
        picture.put_span(part.x, part.y + row, part.w, run);
    }
}

/// Copies the part of a tile that lies in a rectangle of the image to its place in the rectangle's picture.
fn put_tile(picture: &mut Raster, shape: &Shape, rect: Rect, key: &TileKey, value: &Arc<TileVal>)
    requires fits { TileFitsIn shape.now.dim (channels_of shape.now.kind) key.now }
    requires shaped { TileHasShape shape.now key.now (arc_value value.now) }
    requires sides { dim_of picture.old ≡ sides_of rect }
    requires channels { picture.old.channels ≡ channels_of shape.now.kind }
    requires top { picture.old.top ≡ top_of shape.now.depth }
    ensures sides { dim_of picture.new ≡ dim_of picture.old }
    ensures channels { picture.new.channels ≡ picture.old.channels }
    ensures top { picture.new.top ≡ picture.old.top }
    ensures copies { (p : Picture) → p.channels ≡ channels_of shape.now.kind →
        tile_in (arc_value value.now) ≡ crop p (tile_of shape.now.dim key.now)
        → Copies (part_of (tile_of shape.now.dim key.now) rect) (λ x y k. sample_at (crop p rect) x y k) picture.old picture.new }
{
    let at = key.rect_in(shape.dim);
    if meets(at, rect) {
        let tile = &value.raster;
        put_part(picture, tile, corner_of(at, rect), part_of(at, rect));
    }
}

/// Copies the parts of tiles that lie in a rectangle of the image to their places, tile by tile.
fn put_all(
    picture: &mut Raster,
    shape: &Shape,
    rect: Rect,
    keys: &[TileKey],
    items: &[usize],
    values: &[Arc<TileVal>],
)
    requires fits { All (TileFitsIn shape.now.dim (channels_of shape.now.kind)) keys.now }
    requires within { All (λ i. i < length keys.now) items.now }
    requires shaped { AreValues (TileHasShape shape.now) keys.now items.now (map arc_value values.now) }
    requires sides { dim_of picture.old ≡ sides_of rect }
    requires channels { picture.old.channels ≡ channels_of shape.now.kind }
    requires top { picture.old.top ≡ top_of shape.now.depth }
    ensures sides { dim_of picture.new ≡ dim_of picture.old }
    ensures channels { picture.new.channels ≡ picture.old.channels }
    ensures top { picture.new.top ≡ picture.old.top }
    ensures copies { (p : Picture) (x : TileKey) → p.channels ≡ channels_of shape.now.kind
        → AreValues (λ k v. tile_in v ≡ crop p (tile_of shape.now.dim k)) keys.now items.now (map arc_value values.now)
        → HasCopied (crop p rect) (map (λ i. part_of (tile_of shape.now.dim (slice_index_or keys.now i x)) rect) items.now) picture.new }
{
    for n in 0..items.len() {
        put_tile(picture, shape, rect, &keys[items[n]], &values[n]);
    }
}

/// Crops a tile to a rectangle of the image that lies in it.
fn cut_out(shape: &Shape, rect: Rect, key: &TileKey, value: &Arc<TileVal>) -> Result<Raster, Fault>
    requires fits { TileFitsIn shape.now.dim (channels_of shape.now.kind) key.now }
    requires shaped { TileHasShape shape.now key.now (arc_value value.now) }
    requires inside { IsInside rect (tile_of shape.now.dim key.now) }
    ensures sides { IfOk result (λ r. dim_of r ≡ sides_of rect) }
    ensures channels { IfOk result (λ r. r.channels ≡ channels_of shape.now.kind) }
    ensures top { IfOk result (λ r. r.top ≡ top_of shape.now.depth) }
    ensures image { IfOk result (λ r. (p : Picture) → tile_in (arc_value value.now) ≡ crop p (tile_of shape.now.dim key.now) →
        r ≡ crop p rect) }
    ensures fault { IfErr result (λ f. f ≡ Fault.NoMemory) }
{
    // A law of crops.
    crop_of_crop();
    let at = key.rect_in(shape.dim);
    let part = Rect {
        x: rect.x - at.x,
        y: rect.y - at.y,
        ..rect
    };
    match value.raster.crop(part) {
        Ok(raster) => Ok(raster),
        Err(_) => Err(Fault::NoMemory),
    }
}

/// Makes a rectangle of the image of tiles: crops the tile that has all of it and was asked for alone, or copies the part that each tile
/// has of it.
fn picture_of(
    alloc: Global,
    shape: &Shape,
    rect: Rect,
    keys: &[TileKey],
    items: &[usize],
    values: &[Arc<TileVal>],
) -> Result<Raster, Fault>
    requires fits { All (TileFitsIn shape.now.dim (channels_of shape.now.kind)) keys.now }
    requires within { All (λ i. i < length keys.now) items.now }
    requires shaped { AreValues (TileHasShape shape.now) keys.now items.now (map arc_value values.now) }
    ensures sides { IfOk result (λ r. dim_of r ≡ sides_of rect) }
    ensures channels { IfOk result (λ r. r.channels ≡ channels_of shape.now.kind) }
    ensures top { IfOk result (λ r. r.top ≡ top_of shape.now.depth) }
    ensures copies { IfOk result (λ r. (p : Picture) (x : TileKey) → p.channels ≡ channels_of shape.now.kind
        → AreValues (λ k v. tile_in v ≡ crop p (tile_of shape.now.dim k)) keys.now items.now (map arc_value values.now)
        → HasCopied (crop p rect) (map (λ i. part_of (tile_of shape.now.dim (slice_index_or keys.now i x)) rect) items.now) r) }
    ensures fault { IfErr result (λ f. f ≡ Fault.NoMemory) }
{
    if items.len() == 1 {
        let key = &keys[items[0]];
        if is_inside(rect, key.rect_in(shape.dim)) {
            return cut_out(shape, rect, key, &values[0]);
        }
    }
    let Ok(mut raster) = Raster::new(alloc, rect.dim(), shape.kind, shape.depth) else {
        return Err(Fault::NoMemory);
    };
    put_all(&mut raster, shape, rect, keys, items, values);
    Ok(raster)
}

/// Makes the part in `from` of a region that keeps its sides, of the tiles that have a place of it. Nothing is held of the result but
/// this part.
pub(crate) fn paste<A: Items<TileKey, TileVal, P, R> + Sync, B, P: Send, R: Threads + Wait + Sync>(
    context: &RenderContext<'_, A, B, R>,
    passes: &mut [P],
    job: &JobRef<'_>,
    keys: &[TileKey],
    items: &[usize],
    from: Rect,
) -> Result<Made, Fault>
    requires some { 0 < length passes.old }
    requires job { IsJob (lent job.now) }
    requires cover { AreTiles (lent job.now) keys.now }
    requires serves { TilesServe (lent job.now) (A.fits context.now.tiles.now) (A.means context.now.tiles.now) }
    requires inside { LiesIn from (sides_of job.now.resolved.now.rect) }
    requires lists { ListsMet (tile_places job.now.resolved.now.rect) from keys.now items.now }
    ensures { MakesScaled (lent job.now) (λ shows. TilesAreMeant shows (lent job.now) (A.means context.now.tiles.now))
        (λ p. crop p job.now.resolved.now.rect) from
        (IsItemFault (A.means context.now.tiles.now) (A.failed context.now.tiles.now) keys.now items.now) result }
{
    // Laws of pictures and of crops.
    whole_stays_whole();
    crop_of_crop();
    let values = gather(
        context.rt,
        context.alloc,
        context.tiles,
        passes,
        keys,
        items,
    )?;
    // Read, so that the region's numbers are known to fit.
    let (_w, _h) = (job.shape.dim.w, job.shape.dim.h);
    let region = job.resolved.rect;
    let rect = Rect {
        x: region.x + from.x,
        y: region.y + from.y,
        ..from
    };
    let raster = picture_of(context.alloc, &job.shape, rect, keys, items, &values)?;
    // Whole, so that its samples can be counted.
    raster.is_whole();
    let held = count_of(&raster);
    Ok(Made { raster, held })
}
