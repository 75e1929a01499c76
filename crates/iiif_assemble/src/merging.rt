//! The part of a scaled result, of the sums of blocks.

ghost use Rattle.std.specs.Prelude.{◌≡◌, ℕ, ◌*◌, ◌^◌, ◌<◌, ◌∷◌, [], List, All, IfOk, IfErr, IfSome, length, map, fold};
ghost use Rattle.std.specs.Arc.{arc_value};
ghost use Rattle.iiif_pixel.specs.Geometry.{channels_of, sides_of, top_of, LiesIn};
ghost use Rattle.iiif_pixel.specs.Picture.{Picture, dim_of};
ghost use Rattle.iiif_pixel.specs.Operations.{crop};
ghost use Rattle.iiif_pixel.specs.Scaling.{scale};
ghost use Rattle.iiif_area.specs.Grid.{finished, merged, Grid, IsGrid};
ghost use Rattle.iiif_area.specs.Places.{IsInside};
ghost use Rattle.iiif_keys.specs.Names.{Pictures};
ghost use Rattle.iiif_keys.specs.declared.fault.Fault.TheVariants as Fault;
ghost use Rattle.iiif_keys.specs.declared.keys.SumKey.{SumKey};
ghost use Rattle.iiif_keys.specs.declared.values.SumVal.{SumVal};
ghost use Rattle.iiif_planner.specs.Bands.{block_places};
ghost use Rattle.iiif_assemble.specs.Gathering.{IsItemFault};
ghost use Rattle.iiif_assemble.specs.Jobs.{IsJob, SumsAreMeant, SumsServe};
ghost use Rattle.iiif_assemble.specs.Making.{lent, MakesScaled};
ghost use Rattle.iiif_assemble.specs.Code.{count_of, sums_in, total_of, AreBlocks, IsPictureOf, IsWithin, ListsMet};

use crate::context::RenderContext;
use crate::finishing::{are_few, count_of, finish_all};
use crate::items::Items;
use crate::job::{JobRef, Made};
use crate::pool::gather;
use iiif_area::laws::merging_adds;
use iiif_area::{Sums, is_inside};
use iiif_keys::{Fault, SumKey, SumVal, add_sums};
use iiif_pixel::Rect;
use iiif_pixel::laws::whole_stays_whole;
use std::alloc::Global;
use std::sync::{Arc, Wait};
use std::thread::Threads;

/// Counts the sums of a total.
pub(crate) fn count_of_sums(total: &Sums) -> u64
    ensures count { result ≡ total.now.rect.w * total.now.rect.h * total.now.channels }
    ensures small { result < 2 ^ 63 }
{
    total.sums().len() as u64
}

/// Makes the samples in `from` of the sums of values together. Nothing is held but the sums at these places, and then the samples.
fn made_of_all<R: Threads + Sync>(
    rt: &R,
    alloc: Global,
    job: &JobRef<'_>,
    values: &[Arc<SumVal>],
    from: Rect,
    workers: usize,
) -> Result<Made, Fault>
    requires job { IsJob (lent job.now) }
    requires channels { All (λ v. (sums_in (arc_value v)).channels ≡ channels_of job.now.shape.kind) values.now }
    ensures image { IfOk result (λ m. m.raster ≡ finished (total_of from (channels_of job.now.shape.kind) (map arc_value values.now))
        (sides_of job.now.resolved.now.rect) (top_of job.now.shape.depth) from) }
    ensures channels { IfOk result (λ m. m.raster.channels ≡ channels_of job.now.shape.kind) }
    ensures held { IfOk result (λ m. IsWithin (count_of m.raster) m.held) }
    ensures fault { IfErr result (λ f. f ≡ Fault.NoMemory) }
{
    let Ok(mut total) = Sums::zero(alloc, from, job.shape.kind) else {
        return Err(Fault::NoMemory);
    };
    add_sums(&mut total, values);
    match finish_all(
        rt,
        alloc,
        &total,
        job.resolved.rect.dim(),
        job.shape.depth,
        workers,
    ) {
        Ok(raster) => {
            let held = count_of_sums(&total) + count_of(&raster);
            Ok(Made { raster, held })
        }
        Err(_) => Err(Fault::NoMemory),
    }
}

/// Makes the samples in `from` of the sums of one value. Nothing is held but these samples.
fn made_of_one(job: &JobRef<'_>, value: &Arc<SumVal>, from: Rect) -> Result<Made, Fault>
    requires job { IsJob (lent job.now) }
    requires inside { IsInside from (sums_in (arc_value value.now)).rect }
    ensures image { IfOk result (λ m. m.raster ≡ finished (sums_in (arc_value value.now))
        (sides_of job.now.resolved.now.rect) (top_of job.now.shape.depth) from) }
    ensures held { IfOk result (λ m. m.held ≡ count_of m.raster) }
    ensures fault { IfErr result (λ f. f ≡ Fault.NoMemory) }
{
    let region = job.resolved.rect.dim();
    match value.sums.finish(region, from, job.shape.depth) {
        Ok(raster) => {
            let held = count_of(&raster);
            Ok(Made { raster, held })
        }
        Err(_) => Err(Fault::NoMemory),
    }
}

/// Returns the value, where there is one alone, which has a sum at each place of `from`, and these are few.
fn lone(values: &[Arc<SumVal>], from: Rect) -> Option<&Arc<SumVal>>
    ensures only { IfSome result (λ v. values.now ≡ v.now ∷ []) }
    ensures inside { IfSome result (λ v. IsInside from (sums_in (arc_value v.now)).rect) }
    ensures grid { IfSome result (λ v. IsGrid (sums_in (arc_value v.now))) }
{
    let [value] = values else {
        return None;
    };
    // Read, so that the sums are known to fit.
    let _sums = value.sums.sums();
    if is_inside(from, value.sums.rect()) && are_few(value.sums.kind(), from.dim()) {
        Some(value)
    } else {
        None
    }
}

/// Makes the samples in `from` of the sums of values together. Where there is one value alone, which has all these places, and they are
/// few, it is read where it stands, and nothing is held but the samples; else the sums at these places too.
fn made_of<R: Threads + Sync>(
    rt: &R,
    alloc: Global,
    job: &JobRef<'_>,
    values: &[Arc<SumVal>],
    from: Rect,
    workers: usize,
) -> Result<Made, Fault>
    requires job { IsJob (lent job.now) }
    requires channels { All (λ v. (sums_in (arc_value v)).channels ≡ channels_of job.now.shape.kind) values.now }
    ensures image { IfOk result (λ m. m.raster ≡ finished (total_of from (channels_of job.now.shape.kind) (map arc_value values.now))
        (sides_of job.now.resolved.now.rect) (top_of job.now.shape.depth) from) }
    ensures channels { IfOk result (λ m. m.raster.channels ≡ channels_of job.now.shape.kind) }
    ensures held { IfOk result (λ m. IsWithin (count_of m.raster) m.held) }
    ensures fault { IfErr result (λ f. f ≡ Fault.NoMemory) }
{
    match lone(values, from) {
        Some(value) => made_of_one(job, value, from),
        None => made_of_all(rt, alloc, job, values, from, workers),
    }
}

/// Makes the part in `from` of a region that is scaled down, of the sums of the blocks that have a place of it. Nothing is held of the
/// result but its sums at these places, and then the samples. Where that is one block, which has all these places, and they are few,
/// nothing is held of the result but the samples.
pub(crate) fn merge_sums<
    A,
    B: Items<SumKey, SumVal, P, R> + Sync,
    P: Send,
    R: Threads + Wait + Sync,
>(
    context: &RenderContext<'_, A, B, R>,
    passes: &mut [P],
    job: &JobRef<'_>,
    keys: &[SumKey],
    items: &[usize],
    from: Rect,
) -> Result<Made, Fault>
    requires some { 0 < length passes.old }
    requires job { IsJob (lent job.now) }
    requires cover { AreBlocks (lent job.now) keys.now }
    requires serves { SumsServe (lent job.now) (B.fits context.now.sums.now) (B.means context.now.sums.now) }
    requires inside { LiesIn from job.now.resolved.now.size }
    requires lists { ListsMet block_places from keys.now items.now }
    ensures { MakesScaled (lent job.now) (λ shows. SumsAreMeant shows (lent job.now) (B.means context.now.sums.now))
        (λ p. scale (crop p job.now.resolved.now.rect) job.now.resolved.now.size) from
        (IsItemFault (B.means context.now.sums.now) (B.failed context.now.sums.now) keys.now items.now) result }
{
    // Laws of sums and of pictures.
    merging_adds();
    whole_stays_whole();
    let values = gather(context.rt, context.alloc, context.sums, passes, keys, items)?;
    made_of(context.rt, context.alloc, job, &values, from, passes.len())
}
