//! The rows of a band.

ghost use Rattle.std.specs.Prelude.{◌<◌, length};
ghost use Rattle.std.specs.Int.{div_ceil};
ghost use Rattle.iiif_assemble.specs.Kept.{AreFew, AreKept};
ghost use Rattle.iiif_assemble.specs.Jobs.{IsBandOf};
ghost use Rattle.iiif_assemble.specs.Making.{AssemblesBand, MayAssemble};
ghost use Rattle.iiif_delivery.specs.Code.{Laws, MakesBand, PutsBand};
ghost use Rattle.iiif_delivery.specs.Delivery.{result_dim, MaySend};

use crate::admission::{Admission, Disconnected, admit};
use crate::sending::Sending;
use iiif_assemble::{
    ImageRef, ItemGroups, Items, Job, KeptSum, RenderContext, WithKept, assemble, assemble_band,
    count_kept, keep_band,
};
use iiif_io::Outlet;
use iiif_keys::{Fault, SumKey, SumVal, TileKey, TileVal};
use iiif_pixel::laws::{bands_follow, whole_stays_whole};
use iiif_pixel::{Raster, Rect};
use iiif_planner::Band;
use iiif_tiff_write::laws::bands_join;
use iiif_tiff_write::put_rows;
use std::alloc::Global;
use std::sync::Wait;
use std::thread::Threads;

/// Computes nothing: its contract has the laws of pictures and of files that are sent band by band.
pub(crate) fn laws_of_bands()
    ensures { Laws }
{
    // Laws of bands, of pictures and of files.
    bands_follow();
    whole_stays_whole();
    bands_join();
}

/// Assembles a band of the image of a job: the image itself where the band has all its rows.
fn assemble_rows<
    A: Items<TileKey, TileVal, P, R> + Sync,
    B: Items<SumKey, SumVal, P, R> + Sync,
    P: Send,
    R: Threads + Wait + Sync,
>(
    rt: &R,
    alloc: Global,
    groups: &ItemGroups<'_, A, B>,
    passes: &mut [P],
    job: &Job,
    band: &Band,
    held: &mut u64,
) -> Result<Raster, Fault>
    requires some { 0 < length passes.old }
    requires may { MayAssemble A.Items B.Items groups.now job.now }
    requires band { IsBandOf job.now band.now }
    ensures { AssemblesBand A.Items B.Items groups.now job.now band.now held.new result }
{
    // Laws of bands.
    laws_of_bands();
    let image = ImageRef {
        name: &job.name,
        edge: job.edge,
        shape: job.shape,
    };
    let (resolved, plan) = (&job.resolved, &job.plan);
    let dim = resolved.size.turned(resolved.turn);
    let whole = Rect {
        x: 0,
        y: 0,
        w: dim.w,
        h: dim.h,
    };
    if band.rect == whole {
        return assemble(rt, alloc, groups, passes, resolved, plan, &image, held);
    }
    assemble_band(
        rt, alloc, groups, passes, resolved, plan, &image, band, held,
    )
}

/// Counts of one band.
#[derive(Clone, Copy)]
pub(crate) struct BandCounts {
    /// How many samples and sums of the result were held at once, at most, while it was made.
    pub held: u64,
    /// How many sums of its blocks are kept.
    pub kept: u64,
}

/// Makes a band of the image of a job and appends its rows to a text; counts what was held and is kept. The band is gone then, but for its
/// rows; the sums of its blocks are kept until those of the band behind it are.
#[tactic(auto, using(crate::proofs::FaultLemmas::blocks_fault))]
fn put_band<
    A: Items<TileKey, TileVal, P, R> + Sync,
    B: Items<SumKey, SumVal, P, R> + Sync,
    P: Send,
    R: Threads + Wait + Sync,
>(
    context: &RenderContext<'_, A, B, R>,
    passes: &mut [P],
    sending: &Sending<'_>,
    band: &Band,
    kept: &mut Vec<KeptSum>,
    text: &mut Vec<u8>,
) -> Result<BandCounts, Fault>
    requires some { 0 < length passes.old }
    requires sending { MaySend A.Items B.Items context.now sending.now }
    requires band { IsBandOf sending.now.job.now band.now }
    requires kept { AreKept (B.means context.now.sums.now) kept.old.items }
    requires few { AreFew kept.old.items }
    ensures { PutsBand A.Items B.Items context.now sending.now band.now kept.old.items kept.new.items text.old.items text.new.items
        result }
{
    let job = sending.job;
    match keep_band(context, passes, job, band, kept) {
        Ok(()) => {}
        Err(fault) => return Err(fault),
    }
    let sums = WithKept {
        sums: context.sums,
        kept: kept.as_slice(),
    };
    let groups = ItemGroups {
        tiles: context.tiles,
        sums: &sums,
    };
    let mut held = 0u64;
    match assemble_rows(
        context.rt,
        context.alloc,
        &groups,
        passes,
        job,
        band,
        &mut held,
    ) {
        Ok(raster) => {
            // Whole, so that its top is known from its depth.
            raster.is_whole();
            match put_rows(&raster, sending.kind, text) {
                Ok(()) => Ok(BandCounts {
                    held,
                    kept: count_kept(kept),
                }),
                Err(_) => Err(Fault::NoMemory),
            }
        }
        Err(fault) => Err(fault),
    }
}

/// Error of making a band.
#[derive(Clone, Copy)]
pub(crate) enum BandError {
    /// The client disconnected before the job was admitted.
    Disconnected,
    /// It could not be made.
    Faulted(Fault),
}

/// Makes band `i` once the job is admitted to the making of its blocks, and appends its rows to a text, as `put_band` does.
pub(crate) fn make_band<
    A: Items<TileKey, TileVal, P, R> + Sync,
    B: Items<SumKey, SumVal, P, R> + Admission<R> + Sync,
    P: Send,
    R: Threads + Wait + Sync,
    W: Outlet,
>(
    context: &RenderContext<'_, A, B, R>,
    passes: &mut [P],
    sending: &Sending<'_>,
    i: u32,
    out: &W,
    kept: &mut Vec<KeptSum>,
    text: &mut Vec<u8>,
) -> Result<BandCounts, BandError>
    requires some { 0 < length passes.old }
    requires sending { MaySend A.Items B.Items context.now sending.now }
    requires index { i < div_ceil (result_dim sending.now.job.now).h sending.now.rows }
    requires kept { AreKept (B.means context.now.sums.now) kept.old.items }
    requires few { AreFew kept.old.items }
    ensures { MakesBand A.Items B.Items context.now sending.now W.fails i kept.old.items kept.new.items out.now text.old.items
        text.new.items result }
{
    let Ok(band) = sending.job.band(context.alloc, sending.rows, i) else {
        return Err(BandError::Faulted(Fault::NoMemory));
    };
    let queued = match admit::<B, P, R, W>(
        context.rt,
        context.sums,
        sending.job,
        &band,
        kept,
        out,
    ) {
        Ok(queued) => queued,
        Err(Disconnected) => return Err(BandError::Disconnected),
    };
    let made = put_band(context, passes, sending, &band, kept, text);
    if let Some(job) = queued {
        context.sums.release(context.rt, job);
    }
    match made {
        Ok(counts) => Ok(counts),
        Err(fault) => Err(BandError::Faulted(fault)),
    }
}
