//! Nodes.

ghost use Rattle.std.specs.Prelude.{◌≡◌, ℕ, false, Some, None, IsTrue, IfOk, OnErr, OnOk, option_map};
ghost use Rattle.iiif_tables.specs.Cache.{kept_for};
ghost use Rattle.iiif_tables.specs.Flights.{enter as entering};
ghost use Rattle.iiif_machine.specs.Keys.{key_eq};
ghost use Rattle.iiif_machine.specs.Tables.{Outcome, value_of, again as looked_again, emptied, land as landed};
ghost use Rattle.iiif_machine.specs.Worlds.{class_at, owner_of, put_table, speaker, table_at};
ghost use Rattle.iiif_machine.specs.Steps.{node_without};
ghost use Rattle.iiif_machine.specs.Nodes.{entered_of, node_of};
ghost use Rattle.iiif_machine.specs.Entries.{kept_of};

use crate::caching::Retention;
use crate::keys::{Key, Value, bytes_of};
use crate::listing::Found;
use crate::table::{Entered, PlainTable};
use iiif_keys::Name;
use iiif_pixel::NoMemory;
use iiif_ring::Ring;
use iiif_tables::Class;
use std::alloc::Global;

/// A node: its name, the names on its ring, the last version of messages that it speaks, and its tables.
#[derive(Drop)]
pub struct Node {
    pub name: Name,
    pub ring: Ring,
    pub version: u8,
    pub tiles: PlainTable,
    pub sums: PlainTable,
}

impl Node {
    /// Whether the node speaks a version: its own, or one before it.
    pub fn speaks(&self, version: u8) -> bool
        ensures yes { IsTrue result → speaker (node_of self.now) version ≡ Some (node_of self.now) }
        ensures no { result ≡ false → speaker (node_of self.now) version ≡ None }
    {
        version <= self.version
    }

    /// The keys' entries go.
    pub fn lose(&mut self, keys: &[Key])
        ensures { node_of self.new ≡ node_without (node_of self.old) keys.now }
    {
        self.tiles.evict(keys);
        self.sums.evict(keys);
    }

    /// The tables begin anew.
    pub fn empty(&mut self)
        ensures { node_of self.new ≡ record (node_of self.old)
            { tiles = emptied (node_of self.old).tiles; sums = emptied (node_of self.old).sums } }
    {
        self.tiles.empty();
        self.sums.empty();
    }

    /// Looks up a copy of a key's value, and its ticket. The only error is lack of memory.
    #[tactic(auto, unfolding(crate::specs::Keys::is_tile))]
    pub fn kept(&self, key: &Key) -> Result<Option<Found>, NoMemory>
        ensures { IfOk result (λ r. option_map kept_of r ≡ kept_for key_eq key.now (table_at (node_of self.now) key.now).cache) }
    {
        match key {
            Key::Tile(_) => self.tiles.cache.kept(key),
            Key::Sum(_) => self.sums.cache.kept(key),
        }
    }

    /// A call enters. After an error all is as before.
    #[tactic(auto, unfolding(crate::specs::Keys::is_tile))]
    pub fn enter(&mut self, key: &Key, class: Class) -> Result<Entered, NoMemory>
        ensures met { IfOk result (λ r. entered_of r ≡ (entering key_eq class key.now (table_at (node_of self.old) key.now)).0) }
        ensures node { OnOk result (node_of self.new ≡ put_table (node_of self.old) key.now
            (entering key_eq class key.now (table_at (node_of self.old) key.now)).1) }
        ensures err { OnErr result (node_of self.new ≡ node_of self.old) }
    {
        match key {
            Key::Tile(_) => self.tiles.enter(key, class),
            Key::Sum(_) => self.sums.enter(key, class),
        }
    }

    /// The leader of a flight looks again. After an error all is as before.
    #[tactic(auto, unfolding(crate::specs::Keys::is_tile, crate::specs::Tables::again))]
    pub fn again(&mut self, key: &Key, class: Class, ticket: u64) -> Result<Option<Value>, NoMemory>
        ensures found { IfOk result (λ r. r ≡ (looked_again (table_at (node_of self.old) key.now) key.now class ticket).0) }
        ensures node { OnOk result (node_of self.new ≡ put_table (node_of self.old) key.now
            (looked_again (table_at (node_of self.old) key.now) key.now class ticket).1) }
        ensures err { OnErr result (node_of self.new ≡ node_of self.old) }
    {
        match key {
            Key::Tile(_) => self.tiles.again(key, class, ticket),
            Key::Sum(_) => self.sums.again(key, class, ticket),
        }
    }

    /// A flight lands with a value, or with a fault. After an error all is as before.
    #[tactic(auto, unfolding(crate::specs::Keys::is_tile, crate::specs::Tables::land))]
    pub fn land(
        &mut self,
        key: &Key,
        class: Class,
        ticket: u64,
        value: Option<Value>,
        retention: Retention,
    ) -> Result<(), NoMemory>
        ensures ok { OnOk result ((o : Outcome) → value_of o ≡ value
            → node_of self.new ≡ put_table (node_of self.old) key.now
            (landed (table_at (node_of self.old) key.now) key.now class ticket o retention.place retention.keep)) }
        ensures err { OnErr result (node_of self.new ≡ node_of self.old) }
    {
        match key {
            Key::Tile(_) => self.tiles.land(key, class, ticket, value, retention),
            Key::Sum(_) => self.sums.land(key, class, ticket, value, retention),
        }
    }

    /// The name of the key's owner. The only error is lack of memory.
    #[tactic(auto, unfolding(crate::specs::Worlds::owner_of))]
    pub fn owner(&self, alloc: Global, key: &Key) -> Result<&str, NoMemory>
        ensures { IfOk result (λ name. name.now ≡ owner_of (node_of self.now) key.now) }
    {
        let bytes = bytes_of(alloc, key)?;
        let place = self.ring.owner(&bytes);
        Ok(self.ring.names()[place].as_str())
    }

    /// The class of a call for the key. The only error is lack of memory.
    pub(crate) fn class(&self, alloc: Global, key: &Key) -> Result<Class, NoMemory>
        ensures { IfOk result (λ c. c ≡ class_at (node_of self.now) key.now) }
    {
        if self.owner(alloc, key)? == self.name.as_str() {
            Ok(Class::Local)
        } else {
            Ok(Class::Wide)
        }
    }
}
