//! A runtime whose files lie in memory.

ghost use Rattle.std.specs.Prelude.{◌≡◌, ◌≤◌, ℕ, List, min, take, drop, length, true, IfOk, OnOk, string_bytes};
ghost use Rattle.iiif_open_files.specs.Memory.{as_bytes};

use crate::mem_file::{Contents, MemFile};
use iiif_source::Opens;
use std::fs::Metadata;
use std::io;
use std::io::{Error, ErrorKind};
use std::sync::Wait;
use std::sync::atomic::{AtomicU64, Ordering};
use std::thread::Threads;

/// Which read of all files fails, counted from 1, and how.
#[derive(Clone, Copy, PartialEq, Eq)]
pub enum Failing {
    /// None does.
    Never,
    /// The file has ended at this read.
    Ends(u64),
    /// The system refuses this read.
    Fails(u64),
}

/// Files in memory, as a runtime that opens them: they keep their bytes, so what is promised of files holds of them with no premise.
/// Whatever else a runtime does is done by its host.
#[derive(Drop)]
pub struct MemFiles<W, C: Contents> {
    host: W,
    files: Vec<MemFile<C>>,
    failing: Failing,
    reads: AtomicU64,
}

impl<W, C: Contents> MemFiles<W, C> {
    /// These files. Of several with one path the first counts.
    pub fn new(host: W, files: Vec<MemFile<C>>, failing: Failing) -> MemFiles<W, C> {
        MemFiles {
            host,
            files,
            failing,
            reads: AtomicU64::new(0),
        }
    }

    /// How many reads there were.
    pub fn reads(&self) -> u64 {
        self.reads.load(Ordering::SeqCst)
    }

    /// The runtime that does whatever else a runtime does.
    pub fn host(&self) -> &W {
        &self.host
    }

    /// The file of a path.
    fn find(&self, path: &str) -> io::Result<&MemFile<C>>
        ensures { IfOk result (λ f. string_bytes f.now.path ≡ path.now) }
    {
        for file in self.files.iter() {
            if file.path.as_str() == path {
                return Ok(file);
            }
        }
        Err(Error::from(ErrorKind::NotFound))
    }

    /// Counts a read, and fails where it is the one that fails.
    fn count(&self) -> io::Result<()> {
        let number = self.reads.fetch_add(1, Ordering::SeqCst).wrapping_add(1);
        match self.failing {
            Failing::Ends(k) if k == number => Err(Error::from(ErrorKind::UnexpectedEof)),
            Failing::Fails(k) if k == number => Err(Error::from(ErrorKind::Other)),
            _ => Ok(()),
        }
    }
}

impl<W: Wait, C: Contents> Wait for MemFiles<W, C> {}

impl<W: Threads, C: Contents> Threads for MemFiles<W, C> {}

impl<W, C: Contents> Opens for MemFiles<W, C> {
    ghost use Rattle.std.proofs.Common.{rules};
    ghost use Rattle.std.proofs.lemmas.List.Elements.{All-map};

    type Handle = ();

    ghost holds = { λ path. as_bytes (C.content path) };

    ghost keeps = { λ _. Unit {0} };

    ghost is_of = { λ _ _. true };

    ghost shows = { λ _ _. true };

    ghost tells = { λ _ _. true };

    ghost gave = { λ _ _. true };

    ghost holds_bytes = { λ path. All-map (λ b. b ≤ 255) (λ b. min b 255) (C.content path) (λ k d below. Prim.search rules) };

    fn look(&self, path: &str) -> io::Result<Metadata> {
        let file = self.find(path)?;
        Ok(Metadata::of_file(file.bytes.len() as u64))
    }

    fn open(&self, path: &str) -> io::Result<()> {
        self.find(path)?;
        Ok(())
    }

    fn metadata(&self, path: &str, _file: &()) -> io::Result<Metadata> {
        let file = self.find(path)?;
        Ok(Metadata::of_file(file.bytes.len() as u64))
    }

    fn read(&self, path: &str, _file: &(), at: u64, buffer: &mut [u8]) -> io::Result<()> {
        self.count()?;
        let file = self.find(path)?;
        copy(file.bytes.as_slice(), at, buffer)
    }
}

/// Copies bytes from a place on, as many as the buffer has room for.
fn copy(bytes: &[u8], at: u64, buffer: &mut [u8]) -> io::Result<()>
    ensures { OnOk result (buffer.new ≡ take (length buffer.old) (drop at bytes.now)) }
{
    let count = buffer.len();
    if at > bytes.len() as u64 || count > bytes.len() - at as usize {
        return Err(Error::from(ErrorKind::UnexpectedEof));
    }
    let start = at as usize;
    buffer.copy_from_slice(&bytes[start..start + count]);
    Ok(())
}
