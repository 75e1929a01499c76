//! Byte sources with reads at any offset: [`MemSource`] (memory), [`FileSource`] and [`Opened`] (files) and [`FuseSource`] (fault
//! injection).
//!
//! A source's contract has four ghost members. `bytes` are the bytes that it has by right. `keeps` is the premise of each promise on what
//! is read: the bytes don't change, and a successful read gives them. `gave` has the faults of its reads. `reads` has, with no premise,
//! what a read gave, right or wrong; a check against digests stands on it. [`Opens`] has all four of the files of a runtime, `holds` for
//! `bytes`.
#![tactic(auto)]

ghost use Rattle.std.specs.Prelude.{◌≡◌, ◌+◌, ◌*◌, ◌^◌, ◌≤◌, ℕ, List, All, length, take, drop, OnOk, IfErr, Bool, IsTrue};
ghost use Rattle.iiif_source.specs.declared.ReadFault.{ReadFault};
ghost use Rattle.iiif_source.specs.Runs.{AreIn, BeginsAt, HoldsRuns};

pub use file::FileSource;
pub use fuse::FuseSource;
pub use memory::MemSource;
pub use opened::{OpenFile, Opened};
pub use opens::Opens;

mod file;
mod fuse;
mod memory;
mod opened;
mod opens;
mod system;

use thiserror::Error;

/// A failed read.
#[derive(Clone, Copy, Debug, PartialEq, Eq, Error)]
#[error("a read of the source failed")]
pub struct ReadFault {
    /// The byte offset where the read began.
    pub place: u64,
    /// One of the constants below.
    pub cause: u8,
}

impl ReadFault {
    /// The device refused the read: the file is gone, can't be opened or read, or was changed (not in length) since the source was made.
    pub const FAILED: u8 = 1;

    /// The source ended before the read did: it became shorter than it was when the source was made.
    pub const ENDED: u8 = 2;

    /// A [`FuseSource`] failed as it was told.
    pub const FUSE: u8 = 3;

    /// The bytes that were read don't have the digest that is listed. For a source that checks what it reads; none of this crate does.
    pub const DIFFERS: u8 = 4;
}

/// Runs of bytes at equal distances in a source, as the rows of a part of an image: `count` runs of `len` bytes, the first at `at`, each
/// `stride` behind the one before.
#[derive(Clone, Copy)]
pub struct Runs {
    pub at: u64,
    pub stride: u64,
    pub len: usize,
    pub count: u32,
}

impl Runs {
    /// Returns the offset of run `number`, counted from 0.
    fn begin(&self, number: u32) -> u64
        requires { (self.now.at ≤ 2 ^ 61) × (self.now.stride ≤ 2 ^ 23) }
        ensures { result ≡ self.now.at + number * self.now.stride }
    {
        self.at + number as u64 * self.stride
    }
}

/// A byte source with reads at any offset. R is the runtime that a read takes: a source in memory takes any, one behind a lock a
/// runtime that may wait.
pub trait Source<R> {
    /// The bytes that the source has by right.
    ghost bytes: { Self → List ℕ };

    /// The premise of each promise on what is read: the bytes don't change, and a read that succeeds gives them.
    ghost keeps: { Self → Type 0 };

    /// The faults of this device's reads.
    ghost gave: { Self → ReadFault → Bool };

    /// The reads of this device: at this offset one gave these bytes, right or wrong. No premise stands before it.
    ghost reads: { Self → ℕ → List ℕ → Type 0 } = { λ _ _ _. Unit {0} };

    /// Returns the number of bytes of the source.
    fn len(&self) -> u64
        ensures length { result ≡ length (bytes self.now) }
        ensures bytes { All (λ b. b ≤ 255) (bytes self.now) };

    /// Fills the buffer with the bytes from `at` on. After a fault the buffer's bytes are unspecified.
    fn read_at(&self, rt: &R, at: u64, buffer: &mut [u8]) -> Result<(), ReadFault>
        requires { at + length buffer.old ≤ length (bytes self.now) }
        ensures bytes_there { keeps self.now → OnOk result (buffer.new ≡ take (length buffer.old) (drop at (bytes self.now))) }
        ensures read { OnOk result (reads self.now at buffer.new) }
        ensures place { IfErr result (λ f. f.place ≡ at) }
        ensures fault { IfErr result (λ f. IsTrue (gave self.now f)) };

    /// Reads runs of bytes into the buffer, one behind another: by one read if they are contiguous, else by one read a run. A device that
    /// takes a lock or looks for its file does so once for all runs. A fault has the offset where one of the runs begins.
    fn read_runs(&self, rt: &R, runs: Runs, buffer: &mut [u8]) -> Result<(), ReadFault>
        requires runs { AreIn (length (bytes self.now)) runs }
        requires length { length buffer.old ≡ runs.count * runs.len }
        ensures length { length buffer.new ≡ length buffer.old }
        ensures runs_there { keeps self.now → OnOk result (HoldsRuns (bytes self.now) runs runs.count buffer.new) }
        ensures place { IfErr result (λ f. BeginsAt runs f.place) }
        ensures fault { IfErr result (λ f. IsTrue (gave self.now f)) }
    {
        if runs.len as u64 == runs.stride {
            self.read_at(rt, runs.at, buffer)?;
            return Ok(());
        }
        for j in 0..runs.count {
            let start = j as usize * runs.len;
            let run = &mut buffer[start..start + runs.len];
            self.read_at(rt, runs.begin(j), run)?;
        }
        Ok(())
    }
}
