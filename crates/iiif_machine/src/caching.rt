//! The cache of a table, as two plain lists.

ghost use Rattle.std.specs.Prelude.{if◌then◌else◌, ◌≡◌, fold, option_map, IfOk, ◌<◌, ◌≤◌, true, false, is_some, MatchBool, MatchOption};
ghost use Rattle.std.specs.Prelude.{OnErr, OnOk};
ghost use Rattle.iiif_tables.specs.Cache.{bytes_in, kept_for, main_side, hot_side, touch as touched, without as lacking, evict as evicted};
ghost use Rattle.iiif_tables.specs.Cache.{shrink as shrunk, placed, put as with_entry};
ghost use Rattle.iiif_tables.specs.Flights.{keeping};
ghost use Rattle.iiif_machine.specs.Keys.{entry_size, key_eq};
ghost use Rattle.iiif_machine.specs.Entries.{cache_of, entry_of, kept_of, side};

use crate::keys::{Key, Value, size};
use crate::listing::{Entry, Found, add_in, bytes, find_in, remove_in, replace_in, touch_in};
use iiif_pixel::NoMemory;
use iiif_tables::Place;

/// How a value that lands is kept: by which place, and whether at all.
#[derive(Clone, Copy)]
pub struct Retention {
    pub place: Place,
    pub keep: bool,
}

/// Two lists with one limit in bytes, each with the entry that was used last at its front.
#[derive(Drop)]
pub struct PlainCache {
    pub main: Vec<Entry>,
    pub hot: Vec<Entry>,
    pub limit: u64,
    pub room: usize,
}

impl PlainCache {
    /// Moves the key's entry to the front of its list.
    pub(crate) fn touch(&mut self, key: &Key)
        ensures { cache_of self.new ≡ touched key_eq key.now (cache_of self.old) }
    {
        if touch_in(&mut self.main, key) {
            return;
        }
        // Where neither list has it, none is changed.
        let _ = touch_in(&mut self.hot, key);
    }

    /// Removes the key's entry.
    pub(crate) fn remove(&mut self, key: &Key)
        ensures { cache_of self.new ≡ lacking key_eq key.now (cache_of self.old) }
    {
        remove_in(&mut self.main, key);
        remove_in(&mut self.hot, key);
    }

    /// Removes the keys' entries.
    pub(crate) fn remove_all(&mut self, keys: &[Key])
        ensures { cache_of self.new ≡ fold (λ c k. lacking key_eq k c) (cache_of self.old) keys.now }
    {
        for key in keys {
            self.remove(key);
        }
    }

    /// Looks up a copy of a key's value, and its ticket. The only error is lack of memory.
    pub(crate) fn kept(&self, key: &Key) -> Result<Option<Found>, NoMemory>
        ensures { IfOk result (λ r. option_map kept_of r ≡ kept_for key_eq key.now (cache_of self.now)) }
    {
        match find_in(&self.main, key)? {
            Some(found) => Ok(Some(found)),
            None => find_in(&self.hot, key),
        }
    }

    /// Evicts the entry that is next to go.
    pub(crate) fn evict(&mut self)
        ensures { cache_of self.new ≡ evicted entry_size (cache_of self.old) }
    {
        if bytes(&self.hot) > bytes(&self.main) / 8 {
            let _gone = self.hot.pop();
        } else {
            let _gone = self.main.pop();
        }
    }

    /// Whether the lists take no more bytes than they may.
    fn is_within(&self) -> bool
        ensures { MatchBool result (bytes_in entry_size (cache_of self.now) ≤ self.now.limit)
            (self.now.limit < bytes_in entry_size (cache_of self.now)) }
    {
        let limit = u128::from(self.limit);
        let main = bytes(&self.main);
        if main > limit {
            return false;
        }
        bytes(&self.hot) <= limit - main
    }

    /// Evicts one entry after another while the lists take too many bytes.
    pub(crate) fn shrink(&mut self)
        ensures { cache_of self.new ≡ shrunk entry_size (cache_of self.old) }
    {
        let count = self.main.len() + self.hot.len();
        for _ in 0..count {
            if self.is_within() {
                return;
            }
            self.evict();
        }
    }

    /// Puts an entry at the front of the list that has its key, else of hot or of main. After an error all is as before.
    fn place(&mut self, hot: bool, entry: Entry) -> Result<(), NoMemory>
        ensures ok { OnOk result (cache_of self.new ≡ placed key_eq entry.key (side hot) (entry_of entry).1 (cache_of self.old)) }
        ensures err { OnErr result (cache_of self.new ≡ cache_of self.old) }
    {
        match replace_in(&mut self.main, entry) {
            None => Ok(()),
            Some(new) => match replace_in(&mut self.hot, new) {
                None => Ok(()),
                Some(new) => {
                    if hot {
                        add_in(&mut self.hot, self.room, new)
                    } else {
                        add_in(&mut self.main, self.room, new)
                    }
                }
            },
        }
    }

    /// Puts an entry. After an error all is as before.
    pub(crate) fn put(&mut self, hot: bool, entry: Entry) -> Result<(), NoMemory>
        ensures ok { OnOk result (cache_of self.new ≡ with_entry entry_size key_eq (side hot) entry.key (entry_of entry).1
            (cache_of self.old)) }
        ensures err { OnErr result (cache_of self.new ≡ cache_of self.old) }
    {
        if size(&entry.key, &entry.value) > self.limit {
            return Ok(());
        }
        self.place(hot, entry)?;
        self.shrink();
        Ok(())
    }

    /// Keeps a landed value by its place, where it is to be kept; a fault is never kept. After an error all is as before.
    pub(crate) fn keep(
        &mut self,
        retention: Retention,
        peer: u64,
        key: &Key,
        ticket: u64,
        value: Option<Value>,
    ) -> Result<(), NoMemory>
        ensures ok { OnOk result (cache_of self.new ≡ (if retention.keep
            then keeping key_eq entry_size retention.place peer key.now ticket value (cache_of self.old) else cache_of self.old)) }
        ensures err { OnErr result (cache_of self.new ≡ cache_of self.old) }
    {
        if !retention.keep {
            return Ok(());
        }
        let Some(value) = value else {
            return Ok(());
        };
        let hot = match retention.place {
            Place::Nowhere => return Ok(()),
            Place::Main => false,
            Place::Peer => {
                if peer % 10 != 0 {
                    return Ok(());
                }
                true
            }
        };
        let key = key.copy()?;
        self.put(hot, Entry { key, value, ticket })
    }
}
