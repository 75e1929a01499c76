//! A link to a node of the same process that has a system of its own, as each node has ledgers of its own.

ghost use Rattle.std.specs.Prelude.{◌≡◌, ℕ, List, IfOk, IsTrue};

use crate::near::NearLink;
use iiif_group::{Gate, Link, LinkFault};
use iiif_keys::{Shape, SumKey, SumVal, System, TileKey, TileVal};
use iiif_source::Source;
use iiif_sum_group::{Handle, SumCalls, TileCalls};
use std::alloc::Global;
use std::marker::PhantomData;
use std::sync::Wait;
use std::sync::ledger::Ledger;

/// A link over memory from a node of the system J to one of the system I, which differ in the names of their ledgers: images have the same
/// pictures, what is stable here is stable there, and that node assumes no more of other nodes than this one.
#[derive(Drop)]
pub struct OtherLink<'a, R, S: Source<R>, I: System, J: System, N, T>
where
    TileCalls<I>: Ledger,
    SumCalls<I>: Ledger,
{
    near: NearLink<'a, R, S, I, N, T>,
    of: PhantomData<J>,
    pub ghost same: { I.pictures ≡ J.pictures },
    pub ghost stable: { (name : List ℕ) → J.stable name → ∥ I.stable name ∥₁ },
    pub ghost honest: { IsTrue J.honest → IsTrue I.honest },
}

impl<'a, R, S: Source<R>, I: System, J: System, N, T> OtherLink<'a, R, S, I, J, N, T>
where
    TileCalls<I>: Ledger,
    SumCalls<I>: Ledger,
{
    /// Makes a link to this node, where the systems are alike.
    pub fn new(node: Handle<'a, R, S, I, N, T>, alloc: Global) -> Self
        requires same { I.pictures ≡ J.pictures }
        requires stable { (name : List ℕ) → J.stable name → ∥ I.stable name ∥₁ }
        requires honest { IsTrue J.honest → IsTrue I.honest }
    {
        OtherLink {
            near: NearLink { node, alloc },
            of: PhantomData,
        }
    }
}

impl<'a, R: Wait, S: Source<R> + Drop, I: System, J: System, N, T: Gate<R>> Link<TileKey, J, R>
    for OtherLink<'a, R, S, I, J, N, T> {
    fn ask(&self, rt: &R, key: &TileKey, shape: &Shape) -> Result<TileVal, LinkFault> {
        Link::<TileKey, I, R>::ask(&self.near, rt, key, shape)
    }
}

impl<
    'a,
    R: Wait,
    S: Source<R> + Drop,
    I: System,
    J: System,
    N: Link<TileKey, I, R> + Link<SumKey, I, R>,
    T: Gate<R>,
> Link<SumKey, J, R> for OtherLink<'a, R, S, I, J, N, T> {
    fn ask(&self, rt: &R, key: &SumKey, shape: &Shape) -> Result<SumVal, LinkFault> {
        Link::<SumKey, I, R>::ask(&self.near, rt, key, shape)
    }
}
