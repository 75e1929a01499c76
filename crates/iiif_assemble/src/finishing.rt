//! Sums made into samples, place by place: few by the calling thread, many by as many threads as there are workers.

ghost use Rattle.std.specs.Prelude.{◌≡◌, ◌*◌, ◌<◌, ◌≤◌, ◌^◌, ◌↔◌, max, IsTrue, IfOk};
ghost use Rattle.std.specs.Int.{div_ceil};
ghost use Rattle.std.specs.List.{AllZip};
ghost use Rattle.iiif_pixel.specs.Depths.{values_of, depth_of};
ghost use Rattle.iiif_pixel.specs.Geometry.{channels_of, top_of};
ghost use Rattle.iiif_area.specs.Grid.{average_within, finished};
ghost use Rattle.iiif_assemble.specs.Code.{count_of};

use iiif_area::{Averager, Sums};
use iiif_pixel::{Depth, Dim, Kind, NoMemory, Raster, Samples, Span};
use rayon::prelude::*;
use std::alloc::Global;
use std::thread::Threads;

/// The most sums that the calling thread rounds alone. Shared out by `rayon` each took some 20 ns of processor time, in a program that
/// rounded few for each answer; the loop over them has no call.
const FEW: usize = 1_048_576;

/// The least sums that are worth a thread: starting one takes as long as rounding some ten thousand.
const LEAST: usize = 65_536;

/// Counts the sums that a thread rounds at least, so that of so many no more threads are at work than there are workers.
fn run_len(count: usize, workers: usize) -> usize
    ensures { result ≡ max (div_ceil count (max workers 1)) 65536 }
{
    count.div_ceil(workers.max(1)).max(LEAST)
}

/// Rounds sums to samples of 8 bits, in their order, whichever threads do it.
fn rounded_eight<R: Threads + Sync>(
    rt: &R,
    alloc: Global,
    sums: &[u64],
    area: u64,
    workers: usize,
) -> Result<Vec<u8>, NoMemory>
    requires { (0 < area) × (area ≤ 2 ^ 32) }
    ensures { IfOk result (λ v. AllZip (λ s b. b ≡ average_within area 255 s) sums.now v.items) }
{
    let averager = Averager::new(area);
    sums.par_iter()
        .with_min_len(run_len(sums.len(), workers))
        .map(
            |s: &u64| -> u8
                ensures { result ≡ average_within averager 255 s.now }
            { averager.average(*s, 255) as u8 },
        )
        .collect(rt, alloc)
}

/// Rounds sums to samples of 16 bits, in the same way.
fn rounded_sixteen<R: Threads + Sync>(
    rt: &R,
    alloc: Global,
    sums: &[u64],
    area: u64,
    workers: usize,
) -> Result<Vec<u16>, NoMemory>
    requires { (0 < area) × (area ≤ 2 ^ 32) }
    ensures { IfOk result (λ v. AllZip (λ s b. b ≡ average_within area 65535 s) sums.now v.items) }
{
    let averager = Averager::new(area);
    sums.par_iter()
        .with_min_len(run_len(sums.len(), workers))
        .map(
            |s: &u64| -> u16
                ensures { result ≡ average_within averager 65535 s.now }
            { averager.average(*s, 65_535) },
        )
        .collect(rt, alloc)
}

/// Rounds sums to samples of a depth, in their order.
fn rounded_all<R: Threads + Sync>(
    rt: &R,
    alloc: Global,
    sums: &[u64],
    area: u64,
    depth: Depth,
    workers: usize,
) -> Result<Samples, NoMemory>
    requires { (0 < area) × (area ≤ 2 ^ 32) }
    ensures values { IfOk result (λ s. AllZip (λ n b. b ≡ average_within area (top_of depth) n) sums.now (values_of s)) }
    ensures depth { IfOk result (λ s. depth_of s ≡ depth) }
{
    match depth {
        Depth::Eight => {
            let samples = rounded_eight(rt, alloc, sums, area, workers)?;
            Ok(Samples::Eight(samples))
        }
        Depth::Sixteen => {
            let samples = rounded_sixteen(rt, alloc, sums, area, workers)?;
            Ok(Samples::Sixteen(samples))
        }
    }
}

/// Counts the samples of a raster.
pub(crate) fn count_of(raster: &Raster) -> u64
    ensures count { result ≡ count_of raster.now }
    ensures small { result < 2 ^ 63 }
{
    match raster.samples() {
        Span::Eight(samples) => samples.len() as u64,
        Span::Sixteen(samples) => samples.len() as u64,
    }
}

/// Returns whether the calling thread rounds the sums of so many places alone.
pub(crate) fn are_few(kind: Kind, dim: Dim) -> bool
    ensures { IsTrue result ↔ dim.w * dim.h * channels_of kind ≤ 1048576 }
{
    match kind.count(dim) {
        Some(count) => count <= FEW,
        None => false,
    }
}

/// Makes samples of a depth of sums over the whole of a region, at all their places, by so many threads at most.
fn finish_many<R: Threads + Sync>(
    rt: &R,
    alloc: Global,
    total: &Sums,
    region: Dim,
    depth: Depth,
    workers: usize,
) -> Result<Raster, NoMemory>
    requires columns { 0 < region.w }
    requires rows { 0 < region.h }
    requires area { region.w * region.h ≤ 2 ^ 32 }
    ensures { IfOk result (λ r. r ≡ finished total.now region (top_of depth) total.now.rect) }
{
    let area = u64::from(region.w) * u64::from(region.h);
    let samples = rounded_all(rt, alloc, total.sums(), area, depth, workers)?;
    Ok(Raster::from_samples(total.rect().dim(), total.kind(), samples))
}

/// Makes samples of a depth of sums over the whole of a region, at all their places: many of them by so many threads at most.
pub(crate) fn finish_all<R: Threads + Sync>(
    rt: &R,
    alloc: Global,
    total: &Sums,
    region: Dim,
    depth: Depth,
    workers: usize,
) -> Result<Raster, NoMemory>
    requires columns { 0 < region.w }
    requires rows { 0 < region.h }
    requires area { region.w * region.h ≤ 2 ^ 32 }
    ensures { IfOk result (λ r. r ≡ finished total.now region (top_of depth) total.now.rect) }
{
    if total.sums().len() > FEW {
        return finish_many(rt, alloc, total, region, depth, workers);
    }
    total.finish(region, total.rect(), depth)
}
