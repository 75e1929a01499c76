//! A bounded number of files that are kept open.

ghost use Rattle.std.specs.Prelude.{◌≡◌, ◌≤◌, ◌⊎◌, [], length, nat_eq, IfOk, IfSome, IsSomeAnd};
ghost use Rattle.std.specs.Arc.{arc_value};
ghost use Rattle.std.specs.Map.{lookup};
ghost use Rattle.std.specs.NonZero.{non_zero_usize_get};
ghost use Rattle.lru.specs.LruCache.{lru_cache, promoted, put_entries};

use iiif_source::{OpenFile, Opens};
use lru::LruCache;
use std::alloc::{AllocError, Global};
use std::num::NonZeroUsize;
use std::sync::Arc;

/// A file that was opened, and the number of that opening, which no other one has: what is read ahead is of one opening.
#[derive(Drop)]
pub struct Opening<R: Opens> {
    pub number: u64,
    pub file: OpenFile<R>,
}

/// Open files by the numbers of their sources, the one that was used last first. The one that was used longest ago is closed where
/// there is no room for another, once no read holds it.
#[derive(Drop)]
pub struct FileCache<R: Opens> {
    files: LruCache<u64, Arc<Opening<R>>>,
}

impl<R: Opens> FileCache<R> {
    /// No file, and room for so many.
    pub fn new(alloc: Global, most: NonZeroUsize) -> Result<FileCache<R>, AllocError>
        ensures { IfOk result (λ s. s.files ≡ lru_cache [] (non_zero_usize_get most)) }
    {
        Ok(FileCache {
            files: LruCache::sparse(alloc, most)?,
        })
    }

    /// How many files are kept.
    pub fn len(&self) -> usize
        ensures count { result ≡ length self.now.files.entries }
        ensures within { result ≤ self.now.files.cap }
    {
        self.files.len()
    }

    /// The file of a number, which is then the one that was used last. The file stays open while it is held.
    pub fn find(&mut self, number: u64) -> Option<Arc<Opening<R>>>
        ensures file { IfSome result (λ f. IsSomeAnd (lookup (nat_eq number) self.old.files.entries)
            (λ kept. arc_value f ≡ arc_value kept)) }
        ensures used { self.new.files ≡ lru_cache (promoted (nat_eq number) self.old.files.entries) self.old.files.cap }
    {
        let file = match self.files.peek(&number) {
            Some(file) => file.clone().ok(),
            None => None,
        };
        self.files.promote(&number);
        file
    }

    /// Keeps the file of a number. Where memory runs out the cache stays as it was, and the file is let go.
    pub fn keep(&mut self, number: u64, file: Arc<Opening<R>>)
        ensures { (self.new.files ≡ lru_cache (put_entries nat_eq self.old.files number file) self.old.files.cap) ⊎
            (self.new.files ≡ self.old.files) }
    {
        let _ = self.files.put(number, file);
    }
}
