//! Where an image's bytes are.

ghost use Rattle.std.specs.Prelude.{◌≡◌, ℕ, List, Bool};
ghost use Rattle.iiif_start.specs.Stored.{bytes_of, is_held, keeps_of, stored_gave};

use iiif_open_files::{Opens, PathSource};
use iiif_source::{MemSource, ReadFault, Runs, Source};
use std::sync::Wait;

/// A source in memory, or a file that is opened when it is read.
#[derive(Drop)]
pub enum Stored<R: Opens> {
    Memory(MemSource),
    File(PathSource<R>),
}

impl<R: Opens> Stored<R> {
    /// Returns whether its bytes are held in memory.
    pub fn is_held(&self) -> bool
        ensures { result ≡ is_held self.now }
    {
        matches!(self, Stored::Memory(_))
    }
}

impl<R: Opens + Wait> Source<R> for Stored<R> {
    ghost bytes = { bytes_of R.holds };

    ghost keeps = { keeps_of R.keeps };

    ghost gave = { stored_gave };

    fn len(&self) -> u64 {
        match self {
            Stored::Memory(source) => Source::<R>::len(source),
            Stored::File(source) => source.len(),
        }
    }

    fn read_at(&self, rt: &R, at: u64, buffer: &mut [u8]) -> Result<(), ReadFault> {
        match self {
            Stored::Memory(source) => source.read_at(rt, at, buffer),
            Stored::File(source) => source.read_at(rt, at, buffer),
        }
    }

    fn read_runs(&self, rt: &R, runs: Runs, buffer: &mut [u8]) -> Result<(), ReadFault> {
        match self {
            Stored::Memory(source) => source.read_runs(rt, runs, buffer),
            Stored::File(source) => source.read_runs(rt, runs, buffer),
        }
    }
}
