//! Tiles, loaded from their sources and shared by a group.

ghost use Rattle.std.specs.Prelude.{◌≡◌};
ghost use Rattle.iiif_group.specs.Beginning.{open_key};
ghost use Rattle.iiif_tile_group.specs.Calls.{EndsWith, Gets, GetsLocal, KnowsTile, Loads, NamesTile};
ghost use Rattle.iiif_tile_group.specs.Views.{items_in, items_tiled};

use crate::images::Images;
use iiif_group::{Begun, Gate, Group, Link, Note, Open, Step, TileCalls, share};
use iiif_keys::{CacheKey, Fault, System, TileKey, TileVal};
use iiif_singleflight::{Pass, Receipt};
use iiif_source::Source;
use iiif_tables::Class;
use std::alloc::Global;
use std::sync::ledger::Ledger;
use std::sync::{Arc, Wait};

/// Tiles of the images that a node has, shared by all that ask. J says what the names of the images stand for, and which ledger
/// counts the calls; N is the link to other nodes, and T the gate of loads.
#[derive(Drop)]
pub struct Tiles<R, S: Source<R>, J: System, N, T>
where
    TileCalls<J>: Ledger,
{
    images: Images<R, S, J>,
    group: Group<TileKey, J, TileCalls<J>, N, T>,
    alloc: Global,
}

impl<R, S: Source<R> + Drop, J: System, N, T> Tiles<R, S, J, N, T> {
    /// Makes tiles of these images, shared by this group.
    pub fn new(
        alloc: Global,
        images: Images<R, S, J>,
        group: Group<TileKey, J, TileCalls<J>, N, T>,
    ) -> Tiles<R, S, J, N, T>
        ensures { items_tiled result ≡ items_in images }
    {
        Tiles {
            images,
            group,
            alloc,
        }
    }

    /// Lends the images.
    pub fn images(&self) -> &Images<R, S, J>
        ensures { items_in result.now ≡ items_tiled self.now }
    {
        &self.images
    }

    /// Lends the group of the tiles.
    pub fn group(&self) -> &Group<TileKey, J, TileCalls<J>, N, T> {
        &self.group
    }

    /// Loads a tile: finds its image and reads it from the source. A call that leads a flight runs this; here it neither enters the group
    /// nor is kept.
    pub fn load(&self, rt: &R, key: &TileKey) -> Result<TileVal, Fault>
    where
        T: Gate<R>,
        ensures { Loads J.System key.now result }
    {
        let (entry, shape) = self.images.image_of(key)?;
        let value = self.images.read_tile(rt, entry, &shape, key);
        self.note_read(rt, key, &value);
        value
    }

    /// Loads a tile for all that wait.
    #[tactic(auto, using(crate::proofs::FaultLemmas::given_of_load))]
    fn load_outcome(&self, rt: &R, key: &TileKey) -> Result<Arc<TileVal>, Fault>
    where
        T: Gate<R>,
        requires names { NamesTile J.System key.now }
        ensures { EndsWith J.System key.now result }
    {
        match self.load(rt, key) {
            Ok(value) => share(self.alloc, value),
            Err(fault) => Err(fault),
        }
    }
}

impl<R: Wait, S: Source<R> + Drop, J: System, N, T: Gate<R>> Tiles<R, S, J, N, T> {
    /// Runs the load that a call leads, and completes it.
    fn complete(
        &self,
        rt: &R,
        load: Open<TileKey, J, TileCalls<J>>,
        key: &TileKey,
    ) -> Receipt<TileKey, J, TileCalls<J>>
        requires key { open_key load ≡ key.now }
        requires names { NamesTile J.System key.now }
        ensures { KnowsTile key.now result }
    {
        let outcome = self.load_outcome(rt, key);
        self.group.complete(rt, load, outcome).receipt
    }
}

impl<R, S: Source<R> + Drop, J: System, N, T: Gate<R>> Tiles<R, S, J, N, T> {
    /// Records a read.
    fn note_read(&self, rt: &R, key: &TileKey, value: &Result<TileVal, Fault>) {
        let gate = self.group.gate();
        if !gate.records() {
            return;
        }
        let step = match value {
            Ok(_) => Step::Read,
            Err(Fault::Source(fault)) => Step::Unread(fault.place, fault.cause),
            Err(_) => return,
        };
        let Ok(bytes) = key.bytes(self.alloc) else {
            return;
        };
        let note = Note {
            step,
            class: Class::Local,
            rank: 0,
            pass: 0,
            ticket: 0,
            key: &bytes,
        };
        gate.note(rt, &note);
    }
}

impl<R: Wait, S: Source<R> + Drop, J: System, N: Link<TileKey, J, R>, T: Gate<R>> Tiles<
    R,
    S,
    J,
    N,
    T,
> {
    /// Gets the outcome of a flight of the key: the tile that it names, or a fault of its source, or lack of memory. Where another node
    /// owns the key, that node is asked first.
    pub fn get(
        &self,
        rt: &R,
        pass: &mut Pass<TileCalls<J>>,
        key: &TileKey,
    ) -> Result<Receipt<TileKey, J, TileCalls<J>>, Fault>
        ensures { Gets key.now pass.old pass.new result }
    {
        let shape = self.images.shape_of(key)?;
        match self.group.begin(rt, pass, key, &shape) {
            Ok(Begun::Known(receipt)) => Ok(receipt),
            Ok(Begun::Load(load)) => Ok(self.complete(rt, load, key)),
            Err(_) => Err(Fault::NoMemory),
        }
    }
}

// Without a `Link`, so no other node can be asked.
impl<R: Wait, S: Source<R> + Drop, J: System, N, T: Gate<R>> Tiles<R, S, J, N, T> {
    /// Gets the outcome of a flight of this node alone, whoever owns the key. By this a node serves the asks of others.
    pub fn get_local(
        &self,
        rt: &R,
        pass: &mut Pass<TileCalls<J>>,
        key: &TileKey,
    ) -> Result<Receipt<TileKey, J, TileCalls<J>>, Fault>
        ensures { GetsLocal key.now pass.old pass.new result }
    {
        let shape = self.images.shape_of(key)?;
        match self.group.begin_local(rt, pass, key, &shape) {
            Ok(Begun::Known(receipt)) => Ok(receipt),
            Ok(Begun::Load(load)) => Ok(self.complete(rt, load, key)),
            Err(_) => Err(Fault::NoMemory),
        }
    }
}
