//! Passes by which a caller's calls are counted.

use iiif_keys::System;
use iiif_singleflight::Pass;
use std::marker::PhantomData;
use std::sync::ledger::Ledger;

/// Ledger that counts the calls of a node's group of tiles.
#[derive(Drop)]
pub struct TileCalls<J> {
    of: PhantomData<J>,
}

impl<J: System> Ledger for TileCalls<J> {
    ghost name = { J.tiles_name };

    ghost parts = { J.tiles_parts };
}

/// Ledger that counts the calls of a node's group of sums.
#[derive(Drop)]
pub struct SumCalls<J> {
    of: PhantomData<J>,
}

impl<J: System> Ledger for SumCalls<J> {
    ghost name = { J.sums_name };

    ghost parts = { J.sums_parts };
}

/// Passes of a node's two groups: a caller's shares of their calls.
#[derive(Drop)]
pub struct Passes<J: System>
where
    TileCalls<J>: Ledger,
    SumCalls<J>: Ledger,
{
    pub tile: Pass<TileCalls<J>>,
    pub sum: Pass<SumCalls<J>>,
}
