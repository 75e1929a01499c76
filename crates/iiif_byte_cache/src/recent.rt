//! One list of entries.

ghost use Rattle.std.specs.Prelude.{◌≡◌, All, IsTrue};
ghost use Rattle.iiif_tables.specs.Cache.{bytes_of};
ghost use Rattle.iiif_outcome.specs.Views.{entry_size, is_of, kept_of};
ghost use Rattle.iiif_byte_cache.specs.Rows.{rows};

use iiif_keys::{CacheKey, System};
use iiif_outcome::Entry;
use iiif_pixel::NoMemory;
use lru::LruCache;
use std::alloc::Global;
use std::num::NonZeroUsize;

/// LRU list of entries, the most recently used first, and how many bytes they take.
#[derive(Drop)]
pub struct Recent<K: CacheKey, J: System, L> {
    pub(crate) list: LruCache<K, Entry<K, J, L>>,
    pub(crate) bytes: u64,
    pub ghost sum: { bytes ≡ bytes_of (entry_size K.key_bytes K.val_bytes) (rows kept_of list.entries) },
    pub ghost of_key: { All (λ e. IsTrue (is_of K.eq e.0 e.1)) list.entries },
}

impl<K: CacheKey, J: System, L> Recent<K, J, L> {
    ghost use Rattle.std.specs.Prelude.{IfOk};
    ghost use Rattle.iiif_byte_cache.specs.OneList.{has_key, AreKeys, Fronts, HitsIn, IsBlank, Pops, Pushes, Weighs};

    /// Makes an empty list for at most `room` entries. It reserves nothing.
    pub fn new(alloc: Global, room: NonZeroUsize) -> Result<Recent<K, J, L>, NoMemory>
        ensures { IfOk result (IsBlank room) }
    {
        let list = LruCache::sparse(alloc, room)?;
        Ok(Recent { list, bytes: 0 })
    }

    /// Returns whether the list has the key.
    pub fn contains(&self, key: &K) -> bool
        ensures { result ≡ has_key self.now key.now }
    {
        self.list.contains(key)
    }

    /// Shares the key's entry, if there is one. The only error is an entry that refuses another share.
    pub fn hit(&mut self, key: &K) -> Result<Option<Entry<K, J, L>>, NoMemory>
        ensures { HitsIn key.now self.old self.new result }
    {
        match self.list.peek_mut(key) {
            Some(entry) => Ok(Some(entry.share()?)),
            None => Ok(None),
        }
    }

    /// Moves the key's entry to the front, and returns whether there is one.
    pub fn touch(&mut self, key: &K) -> bool
        ensures { Fronts key.now self.old self.new result }
    {
        self.list.promote(key)
    }

    /// Puts an entry at the front, in place of the key's old one. A full list loses its oldest. Returns the entry that left.
    pub fn push(
        &mut self,
        key: K,
        entry: Entry<K, J, L>,
        size: u64,
    ) -> Result<Option<(K, Entry<K, J, L>)>, (K, Entry<K, J, L>)>
        requires { Weighs key entry size self.old.bytes }
        ensures { Pushes key entry size self.old self.new result }
    {
        // Read, so that the list is known to be within its room.
        let _valid = self.list.len();
        match self.list.push(key, entry) {
            Ok(Some((old_key, old))) => {
                self.bytes = self.bytes + size - old.size(&old_key);
                Ok(Some((old_key, old)))
            }
            Ok(None) => {
                self.bytes += size;
                Ok(None)
            }
            Err(failed) => Err(failed.value),
        }
    }

    /// Takes out the least recently used entry.
    pub fn pop(&mut self) -> Option<(K, Entry<K, J, L>)>
        ensures { Pops self.old self.new result }
    {
        let (key, entry) = self.list.pop_lru()?;
        self.bytes -= entry.size(&key);
        Some((key, entry))
    }

    /// Copies the keys, in order. The only error is lack of memory.
    pub fn keys(&self, alloc: Global) -> Result<Vec<K>, NoMemory>
        ensures { IfOk result (AreKeys self.now) }
    {
        let mut keys = Vec::new(alloc);
        for (key, _) in self.list.iter() {
            keys.push(key.copy()?)?;
        }
        Ok(keys)
    }
}
