//! Handles to the groups of a node.

ghost use Rattle.std.specs.Prelude.{◌≡◌, ◌<◌, IfOk};
ghost use Rattle.iiif_keys.specs.Bytes.{sum_key_bytes};
ghost use Rattle.iiif_group.specs.Beginning.{open_key, AsksOwner};
ghost use Rattle.iiif_tile_group.specs.Calls as tile;
ghost use Rattle.iiif_sum_group.specs.Calls.{Begins, Gets};
ghost use Rattle.iiif_sum_group.specs.Outcomes.{AreOfQuarters, Quarters, TellsAll};

use crate::groups::Groups;
use crate::local_handle::LocalHandle;
use iiif_group::{Begun, Completed, Gate, Group, Link, Open, Passes, SumCalls, TileCalls};
use iiif_keys::{Fault, SumKey, SumVal, System, TileKey};
use iiif_singleflight::{Pass, Receipt};
use iiif_source::Source;
use std::sync::ledger::Ledger;
use std::sync::{Arc, Wait};

/// A handle to the groups of a node. It has no `load`, and lends no image with its source: its holder gets a value by a call that enters a
/// group, where it is counted, kept and shared.
#[derive(Drop)]
pub struct Handle<'a, R, S: Source<R>, J: System, N, T>
where
    TileCalls<J>: Ledger,
    SumCalls<J>: Ledger,
{
    groups: &'a Groups<R, S, J, N, T>,
}

impl<'a, R, S: Source<R> + Drop, J: System, N, T> Handle<'a, R, S, J, N, T> {
    /// Makes a handle to these groups.
    pub fn new(groups: &'a Groups<R, S, J, N, T>) -> Handle<'a, R, S, J, N, T> {
        Handle { groups }
    }

    /// Returns a handle to the same groups by which no other node is asked for a key.
    pub fn local(&self) -> LocalHandle<'a, R, S, J, N, T> {
        LocalHandle::new(self.groups)
    }

    /// Lends the group of the tiles.
    pub fn tiles(&self) -> &'a Group<TileKey, J, TileCalls<J>, N, T> {
        self.groups.tiles().group()
    }

    /// Lends the group of the sums.
    pub fn sums(&self) -> &'a Group<SumKey, J, SumCalls<J>, N, T> {
        self.groups.sums()
    }
}

impl<'a, R: Wait, S: Source<R> + Drop, J: System, N: Link<TileKey, J, R>, T: Gate<R>> Handle<
    'a,
    R,
    S,
    J,
    N,
    T,
> {
    /// Gets a tile: `Tiles::get`.
    pub fn get_tile(
        &self,
        rt: &R,
        pass: &mut Pass<TileCalls<J>>,
        key: &TileKey,
    ) -> Result<Receipt<TileKey, J, TileCalls<J>>, Fault>
        ensures { tile.Gets key.now pass.old pass.new result }
    {
        self.groups.tiles().get(rt, pass, key)
    }
}

impl<
    'a,
    R: Wait,
    S: Source<R> + Drop,
    J: System,
    N: Link<TileKey, J, R> + Link<SumKey, J, R>,
    T: Gate<R>,
> Handle<'a, R, S, J, N, T> {
    /// Gets sums: `Groups::get`.
    pub fn get(
        &self,
        rt: &R,
        passes: &mut Passes<J>,
        key: &SumKey,
    ) -> Result<Receipt<SumKey, J, SumCalls<J>>, Fault>
        ensures { Gets key.now passes.old passes.new result }
    {
        self.groups.get(rt, passes, key)
    }

    /// Returns the keys of a block's quarters: `Groups::quarters`.
    pub fn quarters(&self, key: &SumKey) -> Result<Vec<SumKey>, Fault>
        requires level { 0 < key.now.level }
        ensures { Quarters J.System key.now result }
    {
        self.groups.quarters(key)
    }

    /// Begins a call for sums whose quarters the caller gets: `Groups::begin`.
    pub fn begin(
        &self,
        rt: &R,
        passes: &mut Passes<J>,
        key: &SumKey,
    ) -> Result<Begun<SumKey, J, SumCalls<J>>, Fault>
        ensures begins { Begins key.now passes.old passes.new result }
        // A load is owed once the owner was asked, if that is another node.
        ensures asked { IfOk result (AsksOwner self.now.groups.now.sums (sum_key_bytes key.now)) }
    {
        self.groups.begin(rt, passes, key)
    }

    /// Completes what was begun, with the values of the quarters: `Groups::finish`.
    pub fn finish(
        &self,
        rt: &R,
        load: Open<SumKey, J, SumCalls<J>>,
        key: &SumKey,
        values: Result<Vec<Arc<SumVal>>, Fault>,
    ) -> Completed<SumKey, J, SumCalls<J>>
        requires key { open_key load ≡ key.now }
        requires values { AreOfQuarters J.System key.now values }
        ensures { TellsAll key.now values result }
    {
        self.groups.finish(rt, load, key, values)
    }
}
