//! Fault injection: a source that fails when told, for tests of the crates above.

ghost use Rattle.std.specs.Prelude.{◌≡◌, ◌||◌, ◌==◌};
ghost use Rattle.iiif_source.specs.Cause.{fuse};

use crate::{ReadFault, Source};
use std::marker::Model;
use std::sync::atomic::{AtomicBool, AtomicU64, Ordering};

/// A source that fails from its k-th read on, until it is mended. Contracts see the source inside.
#[derive(Drop)]
pub struct FuseSource<S> {
    inner: S,
    first_failing: u64,
    reads: AtomicU64,
    mended: AtomicBool,
}

impl<S> Model for FuseSource<S> {
    ghost Value = { S };

    ghost view = { λ s. s.inner };
}

impl<S> FuseSource<S> {
    /// Wraps a source: reads fail from the k-th on, counted from 1. A k of 0 counts as 1.
    pub fn new(inner: S, k: u64) -> FuseSource<S>
        ensures { result ≡ inner }
    {
        FuseSource {
            inner,
            first_failing: k,
            reads: AtomicU64::new(0),
            mended: AtomicBool::new(false),
        }
    }

    /// Stops the faults for good: each later read is the inner source's.
    pub fn mend(&self) {
        self.mended.store(true, Ordering::SeqCst);
    }
}

impl<R, S: Source<R>> Source<R> for FuseSource<S> {
    ghost bytes = { λ s. S.bytes s };

    ghost keeps = { λ s. S.keeps s };

    ghost gave = { λ s f. S.gave s f || f.cause == fuse };

    ghost reads = { λ s. S.reads s };

    fn len(&self) -> u64 {
        self.inner.len()
    }

    fn read_at(&self, rt: &R, at: u64, buffer: &mut [u8]) -> Result<(), ReadFault> {
        let earlier = self.reads.fetch_add(1, Ordering::SeqCst);
        if earlier >= self.first_failing.saturating_sub(1) && !self.mended.load(Ordering::SeqCst) {
            return Err(ReadFault {
                place: at,
                cause: ReadFault::FUSE,
            });
        }
        self.inner.read_at(rt, at, buffer)
    }
}
