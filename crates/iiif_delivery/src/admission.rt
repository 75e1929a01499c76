//! Admission of jobs to the making of blocks.

ghost use Rattle.std.specs.Prelude.{◌≡◌, ℕ, ◌*◌, ◌-◌, ◌/◌, ◌^◌, IfErr, length, max, min};

use iiif_assemble::{Items, Job, KeptSum, WithKept};
use iiif_io::Outlet;
use iiif_keys::{SumKey, SumVal};
use iiif_planner::{Band, Plan};
use std::time::Duration;

/// A queue of jobs, which admits them to the making of blocks. R is the runtime. Nothing is promised of when a job is admitted.
pub trait Admission<R> {
    /// A job in the queue. It has no `Drop`, and `release` alone consumes it: a job that was enqueued is released, once.
    type Queued;

    /// The work of a job in the queue.
    ghost work_of: { Self → Self.Queued → ℕ };

    /// Enqueues a job of so much work: about how many pixels of the image it reads.
    fn enqueue(&self, rt: &R, work: u64) -> Self::Queued
        ensures { work_of self.now result ≡ work };

    /// Waits until a job is admitted, for so long at most, and says whether it is.
    fn wait(&self, rt: &R, job: &Self::Queued, limit: Duration) -> bool;

    /// Takes a job out of the queue, which has made its blocks or waits no longer.
    fn release(&self, rt: &R, job: Self::Queued);
}

/// For how many seconds a job waits at most. Then it goes on without being admitted, and no other waits for it.
const PATIENCE_SECONDS: u64 = 120;

/// After how many milliseconds a job that waits checks again whether its client has disconnected.
const CHECK_MILLIS: u64 = 100;

/// The client has disconnected.
#[derive(Clone, Copy)]
pub(crate) struct Disconnected;

/// About how many pixels of the image the blocks of a band have: of a region that is cut into `blocks` its share of them.
fn work_of(job: &Job, blocks: usize, band: &Band) -> u64
    ensures { result ≡ min (min (job.now.resolved.rect.w * job.now.resolved.rect.h) (2 ^ 64 - 1) / max blocks 1
        * length band.now.items.items) (2 ^ 64 - 1) }
{
    let rect = job.resolved.rect;
    let region = u64::from(rect.w).saturating_mul(u64::from(rect.h));
    let each = region / (blocks as u64).max(1);
    each.saturating_mul(band.items.len() as u64)
}

/// Says how much work the blocks of a band are, by `work_of`. None where there is nothing to wait for: all blocks are cached or kept, or
/// the job is made of tiles.
fn work_left<B: Items<SumKey, SumVal, P, R>, P, R>(
    rt: &R,
    sums: &B,
    job: &Job,
    band: &Band,
    kept: &[KeptSum],
) -> Option<u64> {
    let Plan::Sum(keys) = &job.plan else {
        return None;
    };
    let before = WithKept { sums, kept };
    for item in &band.items {
        if let Some(key) = keys.get(*item) {
            if !before.is_cached(rt, key) {
                return Some(work_of(job, keys.len(), band));
            }
        }
    }
    None
}

/// Waits until a job is admitted, and checks meanwhile whether its client has disconnected: then it is released. One that waited for two
/// minutes is released too, and goes on: None.
fn await_turn<B: Admission<R>, R, W: Outlet>(
    rt: &R,
    queue: &B,
    job: B::Queued,
    out: &W,
) -> Result<Option<B::Queued>, Disconnected>
    ensures gone { IfErr result (λ _. W.fails out.now out.now) }
{
    for _ in 0..PATIENCE_SECONDS * 1000 / CHECK_MILLIS {
        let is_admitted = queue.wait(rt, &job, Duration::from_millis(CHECK_MILLIS));
        // Once it is admitted too: nothing is made for a client that disconnected since the last check.
        if out.is_gone() {
            queue.release(rt, job);
            return Err(Disconnected);
        }
        if is_admitted {
            return Ok(Some(job));
        }
    }
    queue.release(rt, job);
    Ok(None)
}

/// Enqueues a job that makes the blocks of a band, and waits until it is admitted. None where it doesn't wait, or no longer.
pub(crate) fn admit<B: Items<SumKey, SumVal, P, R> + Admission<R>, P, R, W: Outlet>(
    rt: &R,
    sums: &B,
    job: &Job,
    band: &Band,
    kept: &[KeptSum],
    out: &W,
) -> Result<Option<B::Queued>, Disconnected>
    ensures gone { IfErr result (λ _. W.fails out.now out.now) }
{
    match work_left::<B, P, R>(rt, sums, job, band, kept) {
        Some(work) => await_turn(rt, sums, sums.enqueue(rt, work), out),
        None => Ok(None),
    }
}
