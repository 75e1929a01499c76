//! Files that are held in memory.

ghost use Rattle.std.specs.Prelude.{◌≡◌, IfOk, length};
ghost use Rattle.iiif_start.specs.Stored.{is_named};

use iiif_fixity::{Bag, HoldFault};
use iiif_source::{MemSource, Source};
use std::alloc::Global;

/// Which files are held in memory.
#[derive(Clone, Copy)]
pub struct Holding<'m> {
    /// A file of at most so many bytes is held, none where that is 0.
    pub bytes: u64,
    /// Where there is a bag, a file is held only if it has the digest that is listed.
    pub bag: Option<Bag<'m>>,
}

impl Holding<'_> {
    /// Returns whether the bag, where there is one, lists a digest of a path.
    pub(crate) fn names(&self, path: &str) -> bool
        ensures { result ≡ is_named self.now.bag path.now }
    {
        match &self.bag {
            Some(bag) => matches!(bag.digest_of(path), Some(_)),
            None => true,
        }
    }
}

/// Reads all bytes of a source at once, as a source in memory.
#[tactic(auto, using(crate::proofs::SourceLemmas::all_read))]
pub(crate) fn read_whole<R, S: Source<R>>(
    rt: &R,
    alloc: Global,
    source: &S,
) -> Result<MemSource, HoldFault>
    ensures bytes { S.keeps source.now → IfOk result (λ s. s ≡ S.bytes source.now) }
    ensures length { IfOk result (λ s. length s ≡ length (S.bytes source.now)) }
{
    let Ok(mut bytes) = vec![in alloc; 0u8; source.len() as usize] else {
        return Err(HoldFault::NoMemory);
    };
    match source.read_at(rt, 0, &mut bytes) {
        Ok(()) => Ok(MemSource::new(bytes)),
        Err(fault) => Err(HoldFault::Read(fault)),
    }
}
