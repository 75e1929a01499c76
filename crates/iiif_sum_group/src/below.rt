//! Groups as the load of a block sees them.

ghost use Rattle.std.specs.Prelude.{◌≡◌, ◌<◌};
ghost use Rattle.iiif_keys.specs.Names.{named, IsSource};
ghost use Rattle.iiif_keys.specs.Shapes.{HasPicture};
ghost use Rattle.iiif_tile_group.specs.Calls as tile;
ghost use Rattle.iiif_sum_group.specs.Asking.{Asks};
ghost use Rattle.iiif_sum_group.specs.Code.{FitsShape};

use crate::groups::Groups;
use iiif_group::{Gate, Link, Passes, SumCalls, TileCalls};
use iiif_keys::{Fault, Shape, SumKey, System, TileKey};
use iiif_singleflight::{Pass, Receipt};
use iiif_source::Source;
use std::alloc::Global;
use std::sync::Wait;
use std::sync::ledger::Ledger;

/// Groups as the load of a block sees them: it may ask for tiles and for blocks of lower levels. It has no way to ask for its own block,
/// whose flight would wait for itself, or for a larger one, whose flight may wait for this one.
#[derive(Drop)]
pub(crate) struct Below<'a, R, S: Source<R>, J: System, N, T>
where
    TileCalls<J>: Ledger,
    SumCalls<J>: Ledger,
{
    groups: &'a Groups<R, S, J, N, T>,
    /// The level of the block.
    level: u8,
}

impl<'a, R, S: Source<R> + Drop, J: System, N, T> Below<'a, R, S, J, N, T> {
    ghost use Rattle.iiif_sum_group.specs.Levels.{level_above};

    /// Makes the groups below a block.
    pub(crate) fn new(groups: &'a Groups<R, S, J, N, T>, block: &SumKey) -> Below<'a, R, S, J, N, T>
        ensures { level_above result ≡ block.now.level }
    {
        Below {
            groups,
            level: block.level,
        }
    }

    /// Returns the allocator.
    pub(crate) fn alloc(&self) -> Global {
        self.groups.alloc
    }
}

impl<
    'a,
    R: Wait,
    S: Source<R> + Drop,
    J: System,
    N: Link<TileKey, J, R> + Link<SumKey, J, R>,
    T: Gate<R>,
> Below<'a, R, S, J, N, T> {
    ghost use Rattle.iiif_sum_group.specs.Levels.{level_above};

    /// Gets a tile.
    pub(crate) fn ask_tile(
        &self,
        rt: &R,
        pass: &mut Pass<TileCalls<J>>,
        key: &TileKey,
    ) -> Result<Receipt<TileKey, J, TileCalls<J>>, Fault>
        ensures { tile.Gets key.now pass.old pass.new result }
    {
        self.groups.tiles.get(rt, pass, key)
    }

    /// Gets the outcome of a flight of a key that fits, of a lower level.
    #[cycle(sums)]
    pub(crate) fn ask_part(
        &self,
        rt: &R,
        passes: &mut Passes<J>,
        shape: &Shape,
        key: &SumKey,
    ) -> Result<Receipt<SumKey, J, SumCalls<J>>, Fault>
        requires lower { key.now.level < level_above self.now }
        requires known { HasPicture J.pictures key.now.name shape.now }
        requires source { IsSource (named J.pictures key.now.name) }
        requires fits { FitsShape shape.now key.now }
        ensures { Asks key.now passes.old passes.new result }
    {
        self.groups.enter(rt, passes, shape, key)
    }
}
