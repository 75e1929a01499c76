//! The two lists of a cache, and what goes next.

use crate::evicted::Evicted;
use crate::recent::Recent;
use iiif_keys::{CacheKey, System};
use iiif_outcome::Entry;

/// Pair of LRU lists: main for values that this node loaded, hot for values of other nodes. The limit that both share is the cache's.
#[derive(Drop)]
pub struct Lists<K: CacheKey, J: System, L> {
    pub(crate) main: Recent<K, J, L>,
    pub(crate) hot: Recent<K, J, L>,
}

impl<K: CacheKey, J: System, L> Lists<K, J, L> {
    ghost use Rattle.std.specs.Prelude.{◌≡◌};
    ghost use Rattle.iiif_byte_cache.specs.Lists.{bytes_of_both, CanCount, CanPlace, Evicts, Places, Shrinks};

    /// Returns how many bytes both lists take.
    pub fn bytes(&self) -> u64
        requires { CanCount self.now }
        ensures { result ≡ bytes_of_both self.now }
    {
        self.main.bytes + self.hot.bytes
    }

    /// Takes out the entry that goes next: the oldest of hot where hot takes more than an eighth of what main takes, else of main.
    pub fn evict_oldest(&mut self) -> Option<(K, Entry<K, J, L>)>
        ensures { Evicts self.old self.new result }
    {
        if self.hot.bytes > self.main.bytes / 8 {
            self.hot.pop()
        } else {
            self.main.pop()
        }
    }

    /// Puts an entry at the front of the list that has its key, else of hot or main. Returns the entry that left.
    pub(crate) fn place(
        &mut self,
        for_hot: bool,
        key: K,
        entry: Entry<K, J, L>,
        size: u64,
    ) -> Result<Option<(K, Entry<K, J, L>)>, (K, Entry<K, J, L>)>
        requires { CanPlace key entry size self.old }
        ensures { Places for_hot key entry size self.old self.new result }
    {
        let in_main = self.main.contains(&key);
        let in_hot = self.hot.contains(&key);
        if !in_main & (for_hot | in_hot) {
            self.hot.push(key, entry, size)
        } else {
            self.main.push(key, entry, size)
        }
    }

    /// Evicts one entry after another while the lists take more than `limit` bytes, and hands them out.
    pub(crate) fn shrink(&mut self, limit: u64, evicted: &mut Evicted<K, Entry<K, J, L>>)
        requires { CanCount self.old }
        ensures { Shrinks limit self.old self.new }
    {
        let count = self.main.list.len() + self.hot.list.len();
        for _ in 0..count {
            if self.bytes() <= limit {
                return;
            }
            if let Some((key, entry)) = self.evict_oldest() {
                evicted.add(key, entry);
            }
        }
    }
}
