//! Handles to the groups of a node for the asks of other nodes.

ghost use Rattle.iiif_tile_group.specs.Calls as tile;
ghost use Rattle.iiif_tile_group.specs.Finding.{FindsShape};
ghost use Rattle.iiif_sum_group.specs.Calls.{GetsLocal};

use crate::groups::Groups;
use iiif_group::{Gate, Link, Passes, SumCalls, TileCalls};
use iiif_keys::{CacheKey, Fault, Shape, SumKey, System, TileKey};
use iiif_singleflight::{Pass, Receipt};
use iiif_source::Source;
use std::sync::Wait;
use std::sync::ledger::Ledger;

/// A handle to the groups of a node by which no other node is asked for a key: an ask that is answered by it isn't passed on. It has no
/// `get`, no `load`, and lends neither a group nor an image with its source, so a call of a group counts each value that its holder has.
#[derive(Drop)]
pub struct LocalHandle<'a, R, S: Source<R>, J: System, N, T>
where
    TileCalls<J>: Ledger,
    SumCalls<J>: Ledger,
{
    groups: &'a Groups<R, S, J, N, T>,
}

impl<'a, R, S: Source<R> + Drop, J: System, N, T> LocalHandle<'a, R, S, J, N, T> {
    /// Makes a handle to these groups.
    pub(crate) fn new(groups: &'a Groups<R, S, J, N, T>) -> LocalHandle<'a, R, S, J, N, T> {
        LocalHandle { groups }
    }

    /// Finds the shape of the image of a key: `Images::shape_of`.
    pub fn shape_of<K: CacheKey>(&self, key: &K) -> Result<Shape, Fault>
        ensures { FindsShape K.CacheKey.own J.System key.now result }
    {
        self.groups.tiles().images().shape_of(key)
    }

    /// Lends the gate of the sums' loads, which may record the steps of an ask.
    pub fn gate(&self) -> &T {
        self.groups.sums().gate()
    }
}

impl<'a, R: Wait, S: Source<R> + Drop, J: System, N, T: Gate<R>> LocalHandle<'a, R, S, J, N, T> {
    /// Gets a tile by this node alone: `Tiles::get_local`.
    pub fn get_tile_local(
        &self,
        rt: &R,
        pass: &mut Pass<TileCalls<J>>,
        key: &TileKey,
    ) -> Result<Receipt<TileKey, J, TileCalls<J>>, Fault>
        ensures { tile.GetsLocal key.now pass.old pass.new result }
    {
        self.groups.tiles().get_local(rt, pass, key)
    }
}

impl<
    'a,
    R: Wait,
    S: Source<R> + Drop,
    J: System,
    N: Link<TileKey, J, R> + Link<SumKey, J, R>,
    T: Gate<R>,
> LocalHandle<'a, R, S, J, N, T> {
    /// Gets sums by this node alone: `Groups::get_local`. The owners of their parts are asked.
    pub fn get_local(
        &self,
        rt: &R,
        passes: &mut Passes<J>,
        key: &SumKey,
    ) -> Result<Receipt<SumKey, J, SumCalls<J>>, Fault>
        ensures { GetsLocal key.now passes.old passes.new result }
    {
        self.groups.get_local(rt, passes, key)
    }
}
