//! Tiles and sums of the images that a node has.

ghost use Rattle.std.specs.Prelude.{◌≡◌};
ghost use Rattle.iiif_keys.specs.Names.{named, IsSource};
ghost use Rattle.iiif_keys.specs.Shapes.{HasPicture};
ghost use Rattle.iiif_group.specs.Beginning.{open_key};
ghost use Rattle.iiif_group.specs.Ending.{IsExact, TellsFault};
ghost use Rattle.iiif_tile_group.specs.Views.{items_tiled};
ghost use Rattle.iiif_sum_group.specs.Calls.{Gets, GetsLocal, Loads};
ghost use Rattle.iiif_sum_group.specs.Asking.{Asks};
ghost use Rattle.iiif_sum_group.specs.Code.{Copies, FitsShape};
ghost use Rattle.iiif_sum_group.specs.Outcomes.{EndsWith, KnowsSums};
ghost use Rattle.iiif_sum_group.specs.Views.{items_served};

use crate::below::Below;
use iiif_area::Sums;
use iiif_group::{Begun, Completed, Gate, Group, Link, Open, Passes, SumCalls, TileCalls};
use iiif_keys::{Fault, Shape, SumKey, SumVal, System, TileKey};
use iiif_singleflight::Receipt;
use iiif_source::Source;
use iiif_tile_group::Tiles;
use std::alloc::Global;
use std::sync::ledger::Ledger;
use std::sync::{Arc, Wait};

/// Copies sums, for one caller. The only fault is lack of memory.
fn copy_sums(alloc: Global, value: &SumVal) -> Result<SumVal, Fault>
    ensures { Copies value.now result }
{
    let from = &value.sums;
    let mut sums = Vec::new(alloc);
    match sums.extend_from_slice(from.sums()) {
        Ok(()) => Ok(SumVal {
            sums: Sums::from_parts(from.rect(), from.kind(), sums),
        }),
        Err(_) => Err(Fault::NoMemory),
    }
}

/// Tiles and sums of the images that a node has, shared by all that ask. J says what the names of the images stand for, and which
/// ledgers count the calls; N is the link to other nodes, and T the gate of loads. The groups themselves can load; a `Handle` can't.
#[derive(Drop)]
pub struct Groups<R, S: Source<R>, J: System, N, T>
where
    TileCalls<J>: Ledger,
    SumCalls<J>: Ledger,
{
    pub(crate) tiles: Tiles<R, S, J, N, T>,
    pub(crate) sums: Group<SumKey, J, SumCalls<J>, N, T>,
    pub(crate) alloc: Global,
}

impl<R, S: Source<R> + Drop, J: System, N, T> Groups<R, S, J, N, T> {
    /// Makes groups of these tiles and of sums.
    pub fn new(
        alloc: Global,
        tiles: Tiles<R, S, J, N, T>,
        sums: Group<SumKey, J, SumCalls<J>, N, T>,
    ) -> Groups<R, S, J, N, T>
        ensures { items_served result ≡ items_tiled tiles }
    {
        Groups { tiles, sums, alloc }
    }

    /// Lends the tiles.
    pub fn tiles(&self) -> &Tiles<R, S, J, N, T>
        ensures { items_tiled result.now ≡ items_served self.now }
    {
        &self.tiles
    }

    /// Lends the group of the sums.
    pub fn sums(&self) -> &Group<SumKey, J, SumCalls<J>, N, T> {
        &self.sums
    }
}

impl<
    R: Wait,
    S: Source<R> + Drop,
    J: System,
    N: Link<TileKey, J, R> + Link<SumKey, J, R>,
    T: Gate<R>,
> Groups<R, S, J, N, T> {
    /// Loads the sums that a key names: makes them of the tile or the sums below, which are got of the groups. A call that leads a flight
    /// runs this; here it neither enters the group nor is kept.
    #[tactic(auto, using(crate::proofs::SumLemmas::load_fault))]
    pub fn load(&self, rt: &R, passes: &mut Passes<J>, key: &SumKey) -> Result<SumVal, Fault>
        ensures { Loads J.System key.now passes.old passes.new result }
    {
        let shape = self.tiles.images().shape_of(key)?;
        match Below::new(self, key).make(rt, passes, &shape, key) {
            Ok(value) => copy_sums(self.alloc, &*value),
            Err(fault) => Err(fault),
        }
    }

    /// Gets the outcome of a flight of the key: the sums that it names, or a fault of its source, or lack of memory. Where another node
    /// owns the key, that node is asked first.
    pub fn get(
        &self,
        rt: &R,
        passes: &mut Passes<J>,
        key: &SumKey,
    ) -> Result<Receipt<SumKey, J, SumCalls<J>>, Fault>
        ensures { Gets key.now passes.old passes.new result }
    {
        let shape = self.tiles.images().shape_of(key)?;
        self.enter(rt, passes, &shape, key)
    }

    /// Gets the outcome of a flight of this node alone, whoever owns the key; the owners of its parts are asked. By this a node serves the
    /// asks of others.
    pub fn get_local(
        &self,
        rt: &R,
        passes: &mut Passes<J>,
        key: &SumKey,
    ) -> Result<Receipt<SumKey, J, SumCalls<J>>, Fault>
        ensures { GetsLocal key.now passes.old passes.new result }
    {
        let shape = self.tiles.images().shape_of(key)?;
        match self.sums.begin_local(rt, &mut passes.sum, key, &shape) {
            Ok(Begun::Known(receipt)) => Ok(receipt),
            Ok(Begun::Load(load)) => {
                let made = Below::new(self, key).make(rt, passes, &shape, key);
                Ok(self.end(rt, load, key, made))
            }
            Err(_) => Err(Fault::NoMemory),
        }
    }

    /// Gets the outcome of a flight of a key that fits. Between `begin` and `complete` runs what has the groups below the key alone.
    #[cycle(sums)]
    pub(crate) fn enter(
        &self,
        rt: &R,
        passes: &mut Passes<J>,
        shape: &Shape,
        key: &SumKey,
    ) -> Result<Receipt<SumKey, J, SumCalls<J>>, Fault>
        requires known { HasPicture J.pictures key.now.name shape.now }
        requires source { IsSource (named J.pictures key.now.name) }
        requires fits { FitsShape shape.now key.now }
        ensures { Asks key.now passes.old passes.new result }
    {
        match self.sums.begin(rt, &mut passes.sum, key, shape) {
            Ok(Begun::Known(receipt)) => Ok(receipt),
            Ok(Begun::Load(load)) => {
                let made = Below::new(self, key).make(rt, passes, shape, key);
                Ok(self.end(rt, load, key, made))
            }
            Err(_) => Err(Fault::NoMemory),
        }
    }

    /// Completes a load of a key with what was made, for all that wait.
    pub(crate) fn complete(
        &self,
        rt: &R,
        load: Open<SumKey, J, SumCalls<J>>,
        key: &SumKey,
        made: Result<Arc<SumVal>, Fault>,
    ) -> Completed<SumKey, J, SumCalls<J>>
        requires key { open_key load ≡ key.now }
        requires made { EndsWith J.System key.now made }
        ensures known { KnowsSums key.now result.receipt }
        ensures exact { IsExact made result }
        ensures fault { TellsFault made result }
    {
        self.sums.complete(rt, load, made)
    }

    /// Completes a load of a key, and returns the receipt of the flight that the call entered first.
    pub(crate) fn end(
        &self,
        rt: &R,
        load: Open<SumKey, J, SumCalls<J>>,
        key: &SumKey,
        made: Result<Arc<SumVal>, Fault>,
    ) -> Receipt<SumKey, J, SumCalls<J>>
        requires key { open_key load ≡ key.now }
        requires made { EndsWith J.System key.now made }
        ensures { KnowsSums key.now result }
    {
        self.complete(rt, load, key, made).receipt
    }
}
