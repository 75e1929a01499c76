//! Bands of the image of a request.

ghost use Rattle.std.specs.Prelude.{◌≡◌, ℕ, ◌<◌, IfOk, IfErr, length};
ghost use Rattle.iiif_pixel.specs.Geometry.{sides_of, LiesIn};
ghost use Rattle.iiif_pixel.specs.Operations.{crop, turn, quality};
ghost use Rattle.iiif_pixel.specs.Scaling.{scale};
ghost use Rattle.iiif_keys.specs.declared.fault.Fault.TheVariants as Fault;
ghost use Rattle.iiif_assemble.specs.Jobs.{IsBandOf, IsJob, SumsAreMeant, SumsServe, TilesAreMeant, TilesServe};
ghost use Rattle.iiif_assemble.specs.Code.{count_of, IsWithin, ListsMetItems};
ghost use Rattle.iiif_assemble.specs.Faults.{IsBandFault};
ghost use Rattle.iiif_assemble.specs.Making.{job_of, lent, Assembles, AssemblesBand, MakesScaled, MakesShown, MayAssemble};
ghost use Rattle.iiif_assemble.specs.declared.job.Made.{Made};

use crate::context::{ItemGroups, RenderContext};
use crate::finishing::count_of;
use crate::growing::grow;
use crate::items::Items;
use crate::job::{ImageRef, JobRef, Made};
use crate::merging::merge_sums;
use crate::pasting::paste;
use iiif_area::laws::same_sides_change_nothing;
use iiif_canonical::Resolved;
use iiif_keys::{Fault, SumKey, SumVal, TileKey, TileVal};
use iiif_pixel::laws::{bands_follow, quality_of_crop, whole_stays_whole};
use iiif_pixel::{Quality, Raster, Rect, Turn, unturn_rect};
use iiif_planner::{Band, Plan};
use std::alloc::Global;
use std::sync::Wait;
use std::thread::Threads;

/// Makes the part in `from` of the scaled result.
fn scale_part<
    A: Items<TileKey, TileVal, P, R> + Sync,
    B: Items<SumKey, SumVal, P, R> + Sync,
    P: Send,
    R: Threads + Wait + Sync,
>(
    context: &RenderContext<'_, A, B, R>,
    passes: &mut [P],
    job: &JobRef<'_>,
    items: &[usize],
    from: Rect,
) -> Result<Made, Fault>
    requires some { 0 < length passes.old }
    requires job { IsJob (lent job.now) }
    requires inside { LiesIn from job.now.resolved.now.size }
    requires lists { ListsMetItems job.now.resolved.now from job.now.plan.now items.now }
    requires tiles { TilesServe (lent job.now) (A.fits context.now.tiles.now) (A.means context.now.tiles.now) }
    requires sums { SumsServe (lent job.now) (B.fits context.now.sums.now) (B.means context.now.sums.now) }
    ensures { MakesScaled (lent job.now) (λ shows. TilesAreMeant shows (lent job.now) (A.means context.now.tiles.now)
        × SumsAreMeant shows (lent job.now) (B.means context.now.sums.now))
        (λ p. scale (crop p job.now.resolved.now.rect) job.now.resolved.now.size) from
        (IsBandFault (A.means context.now.tiles.now) (A.failed context.now.tiles.now) (B.means context.now.sums.now)
        (B.failed context.now.sums.now) job.now.plan.now items.now) result }
{
    // Laws of scaling and of pictures.
    same_sides_change_nothing();
    whole_stays_whole();
    match job.plan {
        Plan::Copy(keys) => paste(context, passes, job, keys, items, from),
        Plan::Grow(keys) => grow(context, passes, job, keys, items, from),
        Plan::Sum(keys) => merge_sums(context, passes, job, keys, items, from),
    }
}

/// Turns a part. For a moment both are held.
fn apply_turn(made: Made, by: Turn) -> Result<Made, Fault>
    requires { by.quarters < 4 }
    ensures ok { IfOk result (λ m. m.raster ≡ turn made.raster by) }
    ensures held { IsWithin (count_of made.raster) made.held → IfOk result (λ m. IsWithin (count_of m.raster) m.held) }
    ensures err { IfErr result (λ f. f ≡ Fault.NoMemory) }
{
    if by.quarters == 0 && !by.mirror {
        return Ok(made);
    }
    match made.raster.turn(by) {
        Ok(raster) => {
            let held = made.held.max(count_of(&made.raster) + count_of(&raster));
            Ok(Made { raster, held })
        }
        Err(_) => Err(Fault::NoMemory),
    }
}

/// Converts a part to a quality. For a moment both are held.
fn apply_quality(made: Made, to: Quality) -> Result<Made, Fault>
    ensures ok { IfOk result (λ m. m.raster ≡ quality made.raster to) }
    ensures held { IsWithin (count_of made.raster) made.held → IfOk result (λ m. IsWithin (count_of made.raster) m.held) }
    ensures err { IfErr result (λ f. f ≡ Fault.NoMemory) }
{
    match to {
        Quality::Default | Quality::Color => Ok(made),
        Quality::Gray | Quality::Bitonal => match made.raster.quality(to) {
            Ok(raster) => {
                let held = made.held.max(count_of(&made.raster) + count_of(&raster));
                Ok(Made { raster, held })
            }
            Err(_) => Err(Fault::NoMemory),
        },
    }
}

/// Renders a band of the image of a job, of the items that have a place of it, and counts the samples and sums that are held meanwhile.
fn render_band<
    A: Items<TileKey, TileVal, P, R> + Sync,
    B: Items<SumKey, SumVal, P, R> + Sync,
    P: Send,
    R: Threads + Wait + Sync,
>(
    context: &RenderContext<'_, A, B, R>,
    passes: &mut [P],
    job: &JobRef<'_>,
    band: &Band,
) -> Result<Made, Fault>
    requires some { 0 < length passes.old }
    requires job { IsJob (lent job.now) }
    requires band { IsBandOf (lent job.now) band.now }
    requires tiles { TilesServe (lent job.now) (A.fits context.now.tiles.now) (A.means context.now.tiles.now) }
    requires sums { SumsServe (lent job.now) (B.fits context.now.sums.now) (B.means context.now.sums.now) }
    ensures { MakesShown (λ (m : Made). m.raster) (λ m. m.held) (lent job.now) (A.means context.now.tiles.now)
        (B.means context.now.sums.now) (λ p. crop p band.now.rect) (sides_of band.now.rect)
        (IsBandFault (A.means context.now.tiles.now) (A.failed context.now.tiles.now) (B.means context.now.sums.now)
        (B.failed context.now.sums.now) job.now.plan.now band.now.items.items) result }
{
    // A law of qualities.
    quality_of_crop();
    let resolved = job.resolved;
    let from = unturn_rect(resolved.turn, resolved.size, band.rect);
    match scale_part(context, passes, job, &band.items, from) {
        Ok(scaled) => match apply_turn(scaled, resolved.turn) {
            Ok(turned) => apply_quality(turned, resolved.quality),
            Err(fault) => Err(fault),
        },
        Err(fault) => Err(fault),
    }
}

/// Assembles a band of the image that a plan is of: just these rows, made of the items that have a place of them. There is a worker for
/// each pass, and which of them asks for an item changes nothing. Where a key's value isn't its meaning, as where a source's bytes change,
/// the samples are any, and all else holds. `held` becomes how many samples and sums of the result were held at once, at most.
///
/// # Errors
///
/// The fault of the first item of the band, in the plan's order, that failed; or `NoMemory`.
pub fn assemble_band<
    A: Items<TileKey, TileVal, P, R> + Sync,
    B: Items<SumKey, SumVal, P, R> + Sync,
    P: Send,
    R: Threads + Wait + Sync,
>(
    rt: &R,
    alloc: Global,
    groups: &ItemGroups<'_, A, B>,
    passes: &mut [P],
    resolved: &Resolved,
    plan: &Plan,
    image: &ImageRef<'_>,
    band: &Band,
    held: &mut u64,
) -> Result<Raster, Fault>
    requires some { 0 < length passes.old }
    requires may { MayAssemble A.Items B.Items groups.now (job_of image.now resolved.now plan.now) }
    requires band { IsBandOf (job_of image.now resolved.now plan.now) band.now }
    ensures { AssemblesBand A.Items B.Items groups.now (job_of image.now resolved.now plan.now) band.now held.new result }
{
    let context = RenderContext {
        rt,
        alloc,
        tiles: groups.tiles,
        sums: groups.sums,
    };
    let job = image.job(resolved, plan);
    match render_band(&context, passes, &job, band) {
        Ok(made) => {
            *held = made.held;
            Ok(made.raster)
        }
        Err(fault) => Err(fault),
    }
}

/// Assembles the image that a plan is of: the band of all its rows.
///
/// # Errors
///
/// The fault of the first item of the plan that failed; or `NoMemory`.
pub fn assemble<
    A: Items<TileKey, TileVal, P, R> + Sync,
    B: Items<SumKey, SumVal, P, R> + Sync,
    P: Send,
    R: Threads + Wait + Sync,
>(
    rt: &R,
    alloc: Global,
    groups: &ItemGroups<'_, A, B>,
    passes: &mut [P],
    resolved: &Resolved,
    plan: &Plan,
    image: &ImageRef<'_>,
    held: &mut u64,
) -> Result<Raster, Fault>
    requires some { 0 < length passes.old }
    requires may { MayAssemble A.Items B.Items groups.now (job_of image.now resolved.now plan.now) }
    ensures { Assembles A.Items B.Items groups.now (job_of image.now resolved.now plan.now) held.new result }
{
    // Laws of pictures and of bands.
    whole_stays_whole();
    bands_follow();
    match image.full_band(alloc, resolved, plan) {
        Ok(band) => assemble_band(
            rt, alloc, groups, passes, resolved, plan, image, &band, held,
        ),
        Err(_) => Err(Fault::NoMemory),
    }
}
