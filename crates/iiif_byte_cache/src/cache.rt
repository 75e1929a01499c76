//! The cache.

ghost use Rattle.std.specs.Prelude.{◌≡◌, ◌+◌, ◌^◌, ◌<◌, ◌≤◌};
ghost use Rattle.iiif_tables.specs.Cache.{entries_of};
ghost use Rattle.iiif_outcome.specs.Views.{kept_of};
ghost use Rattle.iiif_byte_cache.specs.Rows.{rows};

use crate::evicted::Evicted;
use crate::lists::Lists;
use crate::recent::Recent;
use iiif_fault::Numbered;
use iiif_keys::{CacheKey, System};
use iiif_outcome::Entry;
use iiif_pixel::NoMemory;
use std::alloc::Global;
use std::num::NonZeroUsize;

/// LRU cache: two lists of entries, and how many bytes they may take together.
#[derive(Drop)]
pub struct ByteCache<K: CacheKey, J: System, L> {
    pub(crate) lists: Lists<K, J, L>,
    pub(crate) limit: u64,
    pub(crate) alloc: Global,
    pub ghost within: { lists.main.bytes + lists.hot.bytes ≤ limit },
    pub ghost small: { limit < 2 ^ 63 },
    pub ghost single: { (q : K) → entries_of K.eq q (rows kept_of lists.main.list.entries)
        + entries_of K.eq q (rows kept_of lists.hot.list.entries) ≤ 1 },
    pub ghost room: { lists.hot.list.cap ≡ lists.main.list.cap },
}

/// Fault of a put. The key and the entry are handed back.
#[derive(Drop)]
pub enum PutFault<K, E> {
    /// The entry by itself takes more bytes than the cache may hold.
    TooBig(K, E),
    /// An allocation failed.
    NoMemory(K, E),
}

impl<K, E> Numbered for PutFault<K, E> {
    ghost use Rattle.iiif_byte_cache.specs.Faults.{put_fault_number};

    ghost number_of = { put_fault_number };

    fn number(&self) -> u8 {
        match self {
            PutFault::TooBig(_, _) => 1,
            PutFault::NoMemory(_, _) => 2,
        }
    }
}

impl<K: CacheKey, J: System, L> ByteCache<K, J, L> {
    ghost use Rattle.std.specs.Prelude.{IfOk};
    ghost use Rattle.std.specs.Borrow.{sem};
    ghost use Rattle.std.specs.Io.BufRead.{Rests};
    ghost use Rattle.std.specs.NonZero.{non_zero_usize_get};
    ghost use Rattle.iiif_tables.specs.Cache.{hot_side, main_side};
    ghost use Rattle.iiif_byte_cache.specs.Calls.{count_of, keeps, AreHotKeys, AreMainKeys, Evicts, Hits, IsEmpty, LendsKept, Puts};
    ghost use Rattle.iiif_byte_cache.specs.Calls.{Takes, Touches};
    ghost use Rattle.iiif_byte_cache.specs.OneList.{IsOf};
    ghost use Rattle.iiif_byte_cache.specs.View.{cache_of, side};
    ghost use Rattle.iiif_byte_cache.specs.contracts.cache.ByteCache.{the_row};

    /// Makes an empty cache for `bytes` bytes in all and `entries` entries a list. The only error is lack of memory; room for entries
    /// is taken as they come.
    pub fn new(
        alloc: Global,
        bytes: u64,
        entries: NonZeroUsize,
    ) -> Result<ByteCache<K, J, L>, NoMemory>
        requires { bytes < 2 ^ 63 }
        ensures { IfOk result (IsEmpty bytes entries) }
    {
        let main = Recent::new(alloc, entries)?;
        let hot = Recent::new(alloc, entries)?;
        Ok(ByteCache {
            lists: Lists { main, hot },
            limit: bytes,
            alloc,
        })
    }

    /// Returns how many bytes the entries may take, with their keys.
    pub fn limit(&self) -> u64
        ensures { result ≡ (cache_of self.now).limit }
    {
        self.limit
    }

    /// Returns how many entries each list may have.
    pub fn entries(&self) -> NonZeroUsize
        ensures { non_zero_usize_get result ≡ (cache_of self.now).room }
    {
        self.lists.main.list.cap()
    }

    /// Returns how many bytes the entries take, with their keys. It takes no memory.
    pub fn bytes(&self) -> u64
        ensures { Takes self.now result }
    {
        self.lists.bytes()
    }

    /// Returns how many entries there are. It takes no memory.
    pub fn len(&self) -> usize
        ensures { result ≡ count_of self.now }
    {
        self.lists.main.list.len() + self.lists.hot.list.len()
    }

    /// Returns whether a value is kept for the key. It changes nothing, and takes no memory.
    pub fn holds(&self, key: &K) -> bool
        ensures { result ≡ keeps self.now key.now }
    {
        self.lists.main.contains(key) || self.lists.hot.contains(key)
    }

    /// Copies the keys of main, in order, for tests and measurements. The only error is lack of memory.
    pub fn main_keys(&self, alloc: Global) -> Result<Vec<K>, NoMemory>
        ensures { IfOk result (AreMainKeys self.now) }
    {
        self.lists.main.keys(alloc)
    }

    /// Copies the keys of hot, in order.
    pub fn hot_keys(&self, alloc: Global) -> Result<Vec<K>, NoMemory>
        ensures { IfOk result (AreHotKeys self.now) }
    {
        self.lists.hot.keys(alloc)
    }

    /// Takes out the entry that goes next. None where there is no entry. It takes no memory.
    pub fn evict_oldest(&mut self) -> Option<(K, Entry<K, J, L>)>
        ensures { Evicts self.old self.new result }
    {
        self.lists.evict_oldest()
    }

    /// Puts an entry at the front of main, or of the list that has its key; then evicts the oldest while the entries take too many
    /// bytes, this one too if need be. A key that is there takes no memory. Entries that leave are handed out, so that a caller drops
    /// them behind its lock.
    pub fn put_main(
        &mut self,
        key: K,
        entry: Entry<K, J, L>,
    ) -> Result<Evicted<K, Entry<K, J, L>>, PutFault<K, Entry<K, J, L>>>
        requires { IsOf key entry }
        ensures { Puts main_side key entry self.old self.new result }
    {
        self.put(false, key, entry)
    }

    /// Puts an entry at the front of hot, as `put_main` does at that of main.
    pub fn put_hot(
        &mut self,
        key: K,
        entry: Entry<K, J, L>,
    ) -> Result<Evicted<K, Entry<K, J, L>>, PutFault<K, Entry<K, J, L>>>
        requires { IsOf key entry }
        ensures { Puts hot_side key entry self.old self.new result }
    {
        self.put(true, key, entry)
    }

    /// Puts an entry into hot, or into main.
    fn put(
        &mut self,
        hot: bool,
        key: K,
        entry: Entry<K, J, L>,
    ) -> Result<Evicted<K, Entry<K, J, L>>, PutFault<K, Entry<K, J, L>>>
        requires { IsOf key entry }
        ensures { Puts (side hot) key entry self.old self.new result }
    {
        let size = entry.size(&key);
        if size > self.limit {
            return Err(PutFault::TooBig(key, entry));
        }
        let mut evicted = Evicted::new(self.alloc);
        match self.lists.place(hot, key, entry, size) {
            Ok(left) => {
                self.lists.shrink(self.limit, &mut evicted);
                if let Some((key, entry)) = left {
                    evicted.add(key, entry);
                }
                Ok(evicted)
            }
            Err((key, entry)) => Err(PutFault::NoMemory(key, entry)),
        }
    }

    /// Moves the key's entry to the front of its list. It takes no memory.
    pub fn touch(&mut self, key: &K)
        ensures { Touches key.now self.old self.new }
    {
        if self.lists.main.touch(key) {
            return;
        }
        let _there = self.lists.hot.touch(key);
    }

    /// Shares what is kept for the key, and changes nothing. It takes no memory: the only error is an entry that refuses another share.
    // It isn't `get`, since the share may be refused and the key's place must not have changed then; `touch` afterwards can't fail.
    pub fn hit(&mut self, key: &K) -> Result<Option<Entry<K, J, L>>, NoMemory>
        ensures { Hits key.now self.old self.new result }
    {
        if let Some(hit) = self.lists.main.hit(key)? {
            return Ok(Some(hit));
        }
        self.lists.hot.hit(key)
    }

    /// Lends what is kept for the key, in main, else in hot, and moves its entry to the front of its list. It takes no memory.
    pub fn get(&mut self, key: &K) -> Option<&Entry<K, J, L>>
        ensures* touched { sem 𝓛 (Rests (the_row K.row J.row L.row K.Value.row K.CacheKey.own K.PartialEq K.Hash.own J.System K.Eq.own)
            self.entry (Touches key.now self.old)) }
        ensures value { LendsKept self.old key.now result }
    {
        if self.lists.main.touch(key) {
            self.lists.main.list.peek(key)
        } else {
            let _there = self.lists.hot.touch(key);
            self.lists.hot.list.peek(key)
        }
    }
}
