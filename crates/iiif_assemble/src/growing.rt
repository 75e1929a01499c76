//! The part of a result that has a side above its region's, of tiles.

ghost use Rattle.std.specs.Prelude.{◌≡◌, ℕ, ◌<◌, All, slice_index_or, IfOk, IfErr, length, map, fold};
ghost use Rattle.std.specs.Arc.{arc_value};
ghost use Rattle.iiif_pixel.specs.Geometry.{channels_of, sides_of, top_of, LiesIn};
ghost use Rattle.iiif_pixel.specs.Picture.{Picture, dim_of};
ghost use Rattle.iiif_pixel.specs.Operations.{crop};
ghost use Rattle.iiif_pixel.specs.Scaling.{scale};
ghost use Rattle.iiif_area.specs.Grid.{merged};
ghost use Rattle.iiif_area.specs.Places.{IsScalable};
ghost use Rattle.iiif_keys.specs.Blocks.{tile_of};
ghost use Rattle.iiif_keys.specs.Meaning.{TileHasShape};
ghost use Rattle.iiif_keys.specs.Names.{Pictures};
ghost use Rattle.iiif_keys.specs.declared.keys.TileKey.{TileKey};
ghost use Rattle.iiif_planner.specs.Bands.{grown_places};
ghost use Rattle.iiif_assemble.specs.Gathering.{AreValues, IsItemFault};
ghost use Rattle.iiif_assemble.specs.Jobs.{IsJob, TilesAreMeant, TilesServe};
ghost use Rattle.iiif_assemble.specs.Making.{lent, MakesScaled};
ghost use Rattle.iiif_assemble.specs.Code.{count_of, tile_adds, tile_in, AreTiles, IsPictureOf, IsWithin, ListsMet, TileHasPart};

use crate::context::RenderContext;
use crate::finishing::{count_of, finish_all};
use crate::items::Items;
use crate::job::{JobRef, Made};
use crate::merging::count_of_sums;
use crate::pool::gather;
use iiif_area::Sums;
use iiif_area::laws::merging_adds;
use iiif_canonical::Resolved;
use iiif_keys::{Fault, Shape, TileKey, TileVal};
use iiif_pixel::laws::whole_stays_whole;
use iiif_pixel::{Dim, Rect};
use std::alloc::Global;
use std::sync::{Arc, Wait};
use std::thread::Threads;

/// Adds the samples that a tile has of a region that is scaled to `size`.
fn add(
    total: &mut Sums,
    shape: &Shape,
    region: Rect,
    size: Dim,
    key: &TileKey,
    value: &Arc<TileVal>,
)
    requires part { TileHasPart shape.now region key.now }
    requires shaped { TileHasShape shape.now key.now (arc_value value.now) }
    requires channels { total.old.channels ≡ channels_of shape.now.kind }
    requires limits { IsScalable (sides_of region) size }
    ensures sums { (p : Picture) → tile_in (arc_value value.now) ≡ crop p (tile_of shape.now.dim key.now)
        → total.new ≡ merged total.old (tile_adds p shape.now.dim region size key.now) }
    ensures rect { total.new.rect ≡ total.old.rect }
    ensures channels { total.new.channels ≡ total.old.channels }
{
    total.add_tile(&value.raster, key.rect_in(shape.dim), region, size);
}

/// Adds the samples that tiles have of a region that is scaled, tile by tile.
fn add_all(
    total: &mut Sums,
    shape: &Shape,
    resolved: &Resolved,
    keys: &[TileKey],
    items: &[usize],
    values: &[Arc<TileVal>],
)
    requires parts { All (TileHasPart shape.now resolved.now.rect) keys.now }
    requires within { All (λ i. i < length keys.now) items.now }
    requires shaped { AreValues (TileHasShape shape.now) keys.now items.now (map arc_value values.now) }
    requires channels { total.old.channels ≡ channels_of shape.now.kind }
    requires limits { IsScalable (sides_of resolved.now.rect) resolved.now.size }
    ensures sums { (p : Picture) (x : TileKey) →
        AreValues (λ k v. tile_in v ≡ crop p (tile_of shape.now.dim k)) keys.now items.now (map arc_value values.now)
        → total.new ≡ fold merged total.old (map (λ i. tile_adds p shape.now.dim resolved.now.rect resolved.now.size
        (slice_index_or keys.now i x)) items.now) }
    ensures rect { total.new.rect ≡ total.old.rect }
    ensures channels { total.new.channels ≡ total.old.channels }
{
    for n in 0..items.len() {
        add(
            total,
            shape,
            resolved.rect,
            resolved.size,
            &keys[items[n]],
            &values[n],
        );
    }
}

/// Makes the part in `from` of a result that has a side above its region's, of the tiles that have samples for a place of it. Nothing
/// is held of the result but its sums at these places, and then the samples.
pub(crate) fn grow<A: Items<TileKey, TileVal, P, R> + Sync, B, P: Send, R: Threads + Wait + Sync>(
    context: &RenderContext<'_, A, B, R>,
    passes: &mut [P],
    job: &JobRef<'_>,
    keys: &[TileKey],
    items: &[usize],
    from: Rect,
) -> Result<Made, Fault>
    requires some { 0 < length passes.old }
    requires job { IsJob (lent job.now) }
    requires cover { AreTiles (lent job.now) keys.now }
    requires serves { TilesServe (lent job.now) (A.fits context.now.tiles.now) (A.means context.now.tiles.now) }
    requires inside { LiesIn from job.now.resolved.now.size }
    requires lists { ListsMet (grown_places job.now.resolved.now.rect job.now.resolved.now.size) from keys.now items.now }
    ensures { MakesScaled (lent job.now) (λ shows. TilesAreMeant shows (lent job.now) (A.means context.now.tiles.now))
        (λ p. scale (crop p job.now.resolved.now.rect) job.now.resolved.now.size) from
        (IsItemFault (A.means context.now.tiles.now) (A.failed context.now.tiles.now) keys.now items.now) result }
{
    // Laws of sums and of pictures.
    merging_adds();
    whole_stays_whole();
    let values = gather(
        context.rt,
        context.alloc,
        context.tiles,
        passes,
        keys,
        items,
    )?;
    let Ok(mut total) = Sums::zero(context.alloc, from, job.shape.kind) else {
        return Err(Fault::NoMemory);
    };
    let region = job.resolved.rect;
    add_all(&mut total, &job.shape, &job.resolved, keys, items, &values);
    match finish_all(
        context.rt,
        context.alloc,
        &total,
        region.dim(),
        job.shape.depth,
        passes.len(),
    ) {
        Ok(raster) => {
            let held = count_of_sums(&total) + count_of(&raster);
            Ok(Made { raster, held })
        }
        Err(_) => Err(Fault::NoMemory),
    }
}
