//! The passes of the workers that make the images of a connection.

ghost use Rattle.std.specs.Prelude.{◌≡◌, ◌<◌, ℕ, length, IfSome};

use iiif_keys::System;
use iiif_open_files::Opens;
use iiif_server::{Node, Passes, SumCalls, TileCalls};
use iiif_start::Stored;
use std::alloc::Global;
use std::marker::Model;
use std::sync::Wait;
use std::sync::ledger::Ledger;

/// Passes that were taken of a node, at least one: one for each worker of a connection. They can't be dropped: whoever took them gives
/// them back, once nothing more is made with them. Clauses see their number.
pub struct TakenPasses<J: System>
where
    TileCalls<J>: Ledger,
    SumCalls<J>: Ledger,
{
    all: Vec<Passes<J>>,
}

impl<J: System> Model for TakenPasses<J>
where
    TileCalls<J>: Ledger,
    SumCalls<J>: Ledger,
{
    ghost Value = { ℕ };

    ghost view = { λ taken. length taken.all.items };

    ghost invariant = { λ taken. 0 < length taken.all.items };
}

impl<J: System> TakenPasses<J> {
    /// Takes as many passes as there are workers. None, and none is kept, where one of them or memory for them runs out, and where there
    /// is no worker.
    pub fn take<R: Opens + Wait, N, T>(
        rt: &R,
        alloc: Global,
        node: &Node<R, Stored<R>, J, N, T>,
        workers: u32,
    ) -> Option<TakenPasses<J>>
        ensures count { IfSome result (λ count. count ≡ workers) }
    {
        let Ok(mut all) = Vec::with_capacity(alloc, workers as usize) else {
            return None;
        };
        for _ in 0..workers {
            let Some(passes) = node.pass(rt) else {
                give_back(rt, node, all);
                return None;
            };
            if all.push(passes).is_err() {
                give_back(rt, node, all);
                return None;
            }
        }
        if all.is_empty() {
            return None;
        }
        Some(TakenPasses { all })
    }

    /// Lends them, to make images with.
    pub fn lend(&mut self) -> &mut [Passes<J>]
        ensures count { length result.now ≡ self.old }
        ensures some { 0 < length result.now }
    {
        &mut self.all
    }

    /// Gives them back to the node that they are of.
    pub fn give_back<R: Opens + Wait, N, T>(self, rt: &R, node: &Node<R, Stored<R>, J, N, T>) {
        let TakenPasses { all } = self;
        give_back(rt, node, all);
    }
}

/// Gives passes back to the node that they are of.
fn give_back<R: Opens + Wait, J: System, N, T>(
    rt: &R,
    node: &Node<R, Stored<R>, J, N, T>,
    all: Vec<Passes<J>>,
) {
    for passes in all {
        node.give_back(rt, passes);
    }
}
