//! Entries that left a cache.

use std::alloc::Global;

/// Entries that a put evicted or replaced, with their keys. Whoever holds them drops them where that costs nobody a lock.
#[derive(Drop)]
pub struct Evicted<K, E> {
    list: Vec<(K, E)>,
}

impl<K: Drop, E: Drop> Evicted<K, E> {
    /// Makes an empty list, which takes no memory.
    pub(crate) fn new(alloc: Global) -> Evicted<K, E> {
        Evicted {
            list: Vec::new(alloc),
        }
    }

    /// Adds an entry. It is dropped at once where memory runs out.
    pub(crate) fn add(&mut self, key: K, entry: E) {
        let _dropped = self.list.push((key, entry));
    }
}
