//! The main clauses of the groups of a node that asks another of the same process: a key's value is its meaning, whichever node loads it.

ghost use Rattle.std.specs.Prelude.{◌≡◌, IfOk, IfSome, IsTrue};
ghost use Rattle.std.specs.Result.{ForOk};
ghost use Rattle.std.specs.Arc.{arc_value};
ghost use Rattle.iiif_keys.specs.Meaning.{sum_meaning, tile_meaning};
ghost use Rattle.iiif_outcome.specs.Views.{receipt_known};

use crate::other::OtherLink;
use iiif_group::{Gate, Link};
use iiif_keys::{Fault, SumKey, System, TileKey};
use iiif_singleflight::{Pass, Receipt};
use iiif_source::Source;
use iiif_sum_group::{Groups, Passes, SumCalls, TileCalls, Tiles};
use std::sync::Wait;

/// Gets a tile, from the other node where that owns its key. Where nodes are honest and the image is stable, the receipt knows the key's
/// meaning or a fault.
pub fn get_tile_by_two<R: Wait, S: Source<R> + Drop, I: System, J: System, N, T: Gate<R>>(
    rt: &R,
    tiles: &Tiles<R, S, J, OtherLink<'_, R, S, I, J, N, T>, T>,
    pass: &mut Pass<TileCalls<J>>,
    key: &TileKey,
) -> Result<Receipt<TileKey, J, TileCalls<J>>, Fault>
    requires honest { IsTrue J.honest }
    requires stable { J.stable key.now.name }
    ensures key { IfOk result (λ r. IfSome (receipt_known r) (λ x. arc_value x.key ≡ key.now)) }
    ensures meant { IfOk result (λ r. IfSome (receipt_known r)
        (λ x. ForOk x.outcome (λ v. arc_value v ≡ tile_meaning J.pictures key.now))) }
{
    tiles.get(rt, pass, key)
}

/// Gets the sums over a block, from the other node where that owns their key, and so their parts. Where nodes are honest and the image is
/// stable, the receipt knows the key's meaning or a fault.
pub fn get_sums_by_two<
    R: Wait,
    S: Source<R> + Drop,
    I: System,
    J: System,
    N: Link<TileKey, I, R> + Link<SumKey, I, R>,
    T: Gate<R>,
>(
    rt: &R,
    groups: &Groups<R, S, J, OtherLink<'_, R, S, I, J, N, T>, T>,
    passes: &mut Passes<J>,
    key: &SumKey,
) -> Result<Receipt<SumKey, J, SumCalls<J>>, Fault>
    requires honest { IsTrue J.honest }
    requires stable { J.stable key.now.name }
    ensures key { IfOk result (λ r. IfSome (receipt_known r) (λ x. arc_value x.key ≡ key.now)) }
    ensures meant { IfOk result (λ r. IfSome (receipt_known r)
        (λ x. ForOk x.outcome (λ v. arc_value v ≡ sum_meaning J.pictures key.now))) }
{
    groups.get(rt, passes, key)
}
