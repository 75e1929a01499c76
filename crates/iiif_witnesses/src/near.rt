//! A link to a node of the same process and of the same system.

ghost use Rattle.std.specs.Prelude.{◌≡◌, IfOk, IfSome, IsTrue};
ghost use Rattle.std.specs.Arc.{arc_value};
ghost use Rattle.iiif_keys.specs.Shapes.{HasPicture};
ghost use Rattle.iiif_outcome.specs.Views.{receipt_known};

use iiif_fault::Numbered;
use iiif_group::{Gate, Link, LinkFault};
use iiif_keys::{CacheKey, Shape, SumKey, SumVal, System, TileKey, TileVal};
use iiif_peer_wire::WireFault;
use iiif_singleflight::Receipt;
use iiif_source::Source;
use iiif_sum_group::{Handle, Passes, SumCalls, TileCalls, take_outcome};
use std::alloc::Global;
use std::sync::Wait;
use std::sync::ledger::Ledger;

/// The fault of an ask for which memory ran out, or the other node had no pass left.
const NO_MEMORY: LinkFault = LinkFault::Wire(WireFault::NoMemory);

/// A link over memory to a node of the same process: J is the system of both. That node's own contract says what it answers, so the link
/// promises its values and assumes nothing of any run.
#[derive(Drop)]
pub struct NearLink<'a, R, S: Source<R>, J: System, N, T>
where
    TileCalls<J>: Ledger,
    SumCalls<J>: Ledger,
{
    pub node: Handle<'a, R, S, J, N, T>,
    pub alloc: Global,
}

/// Copies the value that a receipt of this key knows, by its bytes, as a message carries it.
pub fn copy_value<K: CacheKey, J: System, L: Ledger>(
    alloc: Global,
    key: &K,
    shape: &Shape,
    receipt: Receipt<K, J, L>,
) -> Result<K::Value, LinkFault>
    requires known { HasPicture J.pictures (K.name_of key.now) shape.now }
    requires fits { K.fits_in shape.now key.now }
    requires receipt { IfSome (receipt_known receipt) (λ x. arc_value x.key ≡ key.now) }
    ensures { J.stable (K.name_of key.now) → IsTrue J.honest → IfOk result (λ v. v ≡ K.meaning J.pictures key.now) }
{
    // Laws of keys.
    K::laws();
    let value = match take_outcome(receipt, key) {
        Ok(value) => value,
        Err(fault) => return Err(LinkFault::Refused(fault.number())),
    };
    // Compared, so that the value is known to be one that is read from bytes.
    let _shaped = key.shaped(shape, &*value);
    let Ok(bytes) = K::value_bytes(alloc, &*value) else {
        return Err(NO_MEMORY);
    };
    match K::value_from(alloc, bytes.as_slice()) {
        Ok(value) => Ok(value),
        Err(_) => Err(LinkFault::Value),
    }
}

impl<'a, R: Wait, S: Source<R> + Drop, J: System, N, T: Gate<R>> Link<TileKey, J, R>
    for NearLink<'a, R, S, J, N, T> {
    fn ask(&self, rt: &R, key: &TileKey, shape: &Shape) -> Result<TileVal, LinkFault> {
        let tiles = self.node.tiles();
        let Some(mut pass) = tiles.pass(rt) else {
            return Err(NO_MEMORY);
        };
        let tile = self.node.local().get_tile_local(rt, &mut pass, key);
        tiles.give_back(rt, pass);
        match tile {
            Ok(tile) => copy_value(self.alloc, key, shape, tile),
            Err(fault) => Err(LinkFault::Refused(fault.number())),
        }
    }
}

impl<
    'a,
    R: Wait,
    S: Source<R> + Drop,
    J: System,
    N: Link<TileKey, J, R> + Link<SumKey, J, R>,
    T: Gate<R>,
> Link<SumKey, J, R> for NearLink<'a, R, S, J, N, T> {
    fn ask(&self, rt: &R, key: &SumKey, shape: &Shape) -> Result<SumVal, LinkFault> {
        let (tiles, sums) = (self.node.tiles(), self.node.sums());
        let Some(tile) = tiles.pass(rt) else {
            return Err(NO_MEMORY);
        };
        let Some(sum) = sums.pass(rt) else {
            tiles.give_back(rt, tile);
            return Err(NO_MEMORY);
        };
        let mut passes = Passes { tile, sum };
        let block = self.node.local().get_local(rt, &mut passes, key);
        let Passes { tile, sum } = passes;
        tiles.give_back(rt, tile);
        sums.give_back(rt, sum);
        match block {
            Ok(block) => copy_value(self.alloc, key, shape, block),
            Err(fault) => Err(LinkFault::Refused(fault.number())),
        }
    }
}
