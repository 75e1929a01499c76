//! Images that are a tile as it stands.

ghost use Rattle.std.specs.Prelude.{◌<◌, ◌↔◌, IfOk, IfErr, IfSome, IsNone, IsTrue, length};
ghost use Rattle.std.specs.Arc.{arc_value};
ghost use Rattle.iiif_pixel.specs.Geometry.{channels_of};
ghost use Rattle.iiif_keys.specs.Blocks.{TileFitsIn};
ghost use Rattle.iiif_keys.specs.declared.keys.TileKey.{TileKey};
ghost use Rattle.iiif_assemble.specs.Jobs.{IsJob, TilesServe};
ghost use Rattle.iiif_assemble.specs.Lone.{IsCopyOf, IsFirstFault, IsTileImage, IsTileItself};
ghost use Rattle.iiif_assemble.specs.Code.{tile_in};

use crate::items::Items;
use crate::job::Job;
use crate::pool::gather;
use iiif_area::laws::same_sides_change_nothing;
use iiif_keys::{Fault, TileKey, TileVal};
use iiif_pixel::Quality;
use iiif_pixel::laws::whole_stays_whole;
use iiif_planner::Plan;
use std::alloc::Global;
use std::sync::{Arc, Wait};
use std::thread::Threads;

/// Returns whether the region of a job is that of a tile, and nothing is turned or made gray.
fn is_itself(job: &Job, key: &TileKey) -> bool
    requires fits { TileFitsIn job.now.shape.dim (channels_of job.now.shape.kind) key.now }
    ensures { IsTrue result ↔ IsTileItself job.now key.now }
{
    let (turn, rect) = (job.resolved.turn, job.resolved.rect);
    let at = key.rect_in(job.shape.dim);
    let keeps = match job.resolved.quality {
        Quality::Default | Quality::Color => true,
        Quality::Gray | Quality::Bitonal => false,
    };
    keeps && turn.quarters == 0 && !turn.mirror && rect == at
}

/// Gets the tile that is the image of a job as it stands: the region is the tile's, and nothing is scaled, turned or made gray. It is asked
/// for as the one item of the image's first band of `rows`. None where the image is no such tile, for which nothing is asked then.
///
/// # Errors
///
/// The fault of that band, or `NoMemory`.
pub fn lone_tile<A: Items<TileKey, TileVal, P, R> + Sync, P: Send, R: Threads + Wait + Sync>(
    rt: &R,
    alloc: Global,
    tiles: &A,
    passes: &mut [P],
    job: &Job,
    rows: u32,
) -> Result<Option<Arc<TileVal>>, Fault>
    requires some { 0 < length passes.old }
    requires job { IsJob job.now }
    requires rows { 0 < rows }
    requires tiles { TilesServe job.now (A.fits tiles.now) (A.means tiles.now) }
    ensures image { IfOk result (λ found. IfSome found (λ v. IsTileImage job.now (A.means tiles.now) (tile_in (arc_value v)))) }
    ensures itself { IfOk result (λ found. IfSome found (λ v. (k : TileKey) × IsCopyOf job.now.plan k × IsTileItself job.now k)) }
    ensures only { IfOk result (λ found. IsNone found → (k : TileKey) → IsCopyOf job.now.plan k → IsTileItself job.now k → ⊥) }
    ensures fault { IfErr result (IsFirstFault job.now (A.means tiles.now) (A.failed tiles.now) rows) }
{
    // Laws of scaling and of pictures.
    same_sides_change_nothing();
    whole_stays_whole();
    let Plan::Copy(keys) = &job.plan else {
        return Ok(None);
    };
    if keys.len() != 1 || !is_itself(job, &keys[0]) {
        return Ok(None);
    }
    let Ok(band) = job.band(alloc, rows, 0) else {
        return Err(Fault::NoMemory);
    };
    match gather(rt, alloc, tiles, passes, keys, &band.items) {
        Ok(mut values) => match values.pop() {
            Some(value) => Ok(Some(value)),
            // Not reached: the one tile has places of each row.
            None => Err(Fault::NoMemory),
        },
        Err(fault) => Err(fault),
    }
}
