//! Files as sources, held open.

ghost use Rattle.std.specs.Prelude.{◌||◌, ◌==◌, ◌≡◌, IfOk, IfSome, IsTrue, length, string_bytes};
ghost use Rattle.std.specs.Arc.{arc_value};
ghost use Rattle.iiif_source.specs.Cause.{failed, ended};
ghost use Rattle.iiif_source.specs.Files.{fitted, Named};

use crate::opened::{OpenFile, Opened};
use crate::{Opens, ReadFault, Runs, Source};
use std::io;
use std::marker::Model;
use std::sync::{Arc, RwLock, Wait};

/// An open file as a source, behind a lock that readers share. Contracts see its path and its length, which is taken once, by `new`.
#[derive(Drop)]
pub struct FileSource<R: Opens> {
    path: Arc<String>,
    file: RwLock<OpenFile<R>>,
    len: u64,
}

impl<R: Opens> Model for FileSource<R> {
    ghost Value = { Named };

    ghost view = { λ s. record { path = string_bytes (arc_value s.path); len = s.len } };
}

impl<R: Opens> FileSource<R> {
    /// Makes a source of an open file, with the length that the system tells now.
    pub fn new(rt: &R, file: OpenFile<R>) -> io::Result<FileSource<R>>
        ensures path { IfOk result (λ s. s.path ≡ string_bytes (arc_value file.path)) }
        ensures length { R.keeps (string_bytes (arc_value file.path)) →
            IfOk result (λ s. s.len ≡ length (R.holds (string_bytes (arc_value file.path)))) }
    {
        let len = file.metadata(rt)?.len();
        Ok(FileSource {
            path: file.path.clone()?,
            file: RwLock::new(file),
            len,
        })
    }
}

impl<R: Opens + Wait> Source<R> for FileSource<R> {
    ghost bytes = { λ s. fitted s.len (R.holds s.path) };

    ghost keeps = { λ s. R.keeps s.path };

    ghost gave = { λ _ f. f.cause == failed || f.cause == ended };

    ghost reads = { λ s. R.reads s.path };

    fn len(&self) -> u64 {
        self.len
    }

    #[tactic(auto, using(crate::proofs::Faults::by_cause))]
    fn read_at(&self, rt: &R, at: u64, buffer: &mut [u8]) -> Result<(), ReadFault> {
        match opened(self.path.as_str(), self.len, &self.file.read(rt)) {
            Some(source) => source.read_at(rt, at, buffer),
            None => Err(astray(at)),
        }
    }

    #[tactic(auto, using(crate::proofs::Faults::by_cause, crate::proofs::Faults::first_begins))]
    fn read_runs(&self, rt: &R, runs: Runs, buffer: &mut [u8]) -> Result<(), ReadFault> {
        match opened(self.path.as_str(), self.len, &self.file.read(rt)) {
            Some(source) => source.read_runs(rt, runs, buffer),
            None => Err(astray(runs.at)),
        }
    }
}

/// Borrows the locked file as a source, if it was opened under `path`.
fn opened<'a, R: Opens>(path: &str, len: u64, file: &'a OpenFile<R>) -> Option<Opened<'a, R>>
    ensures path { IfSome result (λ s. s.path ≡ path.now) }
    ensures len { IfSome result (λ s. s.len ≡ len) }
{
    if file.path.as_str() != path {
        return None;
    }
    Some(Opened { file, len })
}

/// Makes the fault of a read whose locked file has another path, which never happens: the prover knows nothing of what a lock guards.
fn astray(at: u64) -> ReadFault
    ensures place { result.place ≡ at }
    ensures cause { IsTrue (result.cause == failed || result.cause == ended) }
{
    ReadFault {
        place: at,
        cause: ReadFault::FAILED,
    }
}
