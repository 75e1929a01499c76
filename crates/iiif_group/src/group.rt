//! Group: the state behind its lock, the nodes of its cluster, and its counts.

ghost use Rattle.std.specs.Prelude.{◌≡◌, ℕ, ◌+◌, ◌<◌, ◌^◌, length, vec_len, IfErr, IfOk, IfSome};
ghost use Rattle.std.specs.List.{sum_by};
ghost use Rattle.std.specs.NonZero.{non_zero_usize_get};
ghost use Rattle.iiif_tables.specs.Flights.{IsBook};
ghost use Rattle.iiif_keys.specs.Ledgers.{all_parts};
ghost use Rattle.iiif_singleflight.specs.View.{limit_of, room_of};

use crate::asked::Nodes;
use iiif_keys::{CacheKey, PARTS, System};
use iiif_pixel::NoMemory;
use iiif_ring::Ring;
use iiif_singleflight::{FlightCondvar, FullLedger, GroupState, Kept, Limit, Pass, Table};
use iiif_tables::Book;
use std::alloc::Global;
use std::num::NonZeroUsize;
use std::sync::ledger::{Blank, Ledger};
use std::sync::{Mutex, Wait};

/// Nodes that share keys out: the ring of all, this node's own place of it, if it has any, and a link for each place. The link of the own
/// place is never asked.
#[derive(Drop)]
pub struct Cluster<N> {
    pub ring: Ring,
    pub own: Option<usize>,
    pub links: Vec<N>,
}

/// Cache of values that loads each key once for all callers in flight. A key of this node's own is loaded here; the owner of any other
/// is asked first.
#[derive(Drop)]
pub struct Group<K: CacheKey, J: System, L: Ledger, N, T> {
    pub(crate) state: Mutex<GroupState<K, J, L>>,
    pub(crate) sleepers: FlightCondvar<L>,
    pub(crate) nodes: Nodes<N>,
    pub(crate) gate: T,
    pub(crate) alloc: Global,
    pub(crate) limit: Limit<L>,
}

impl<K: CacheKey, J: System, L: Ledger, N, T> Group<K, J, L, N, T> {
    ghost use Rattle.iiif_group.specs.Beginning.{cluster_of};

    /// Creates a group of a ledger that no other has, on a node of this cluster, with room for so many bytes in all and so many entries a
    /// list. The only error is lack of memory.
    pub fn new(
        alloc: Global,
        bytes: u64,
        entries: NonZeroUsize,
        gate: T,
        cluster: Cluster<N>,
        blank: Blank,
    ) -> Result<Self, NoMemory>
    where
        N: Drop,
        T: Drop,
        requires links { vec_len cluster.links ≡ length cluster.ring }
        requires own { IfSome cluster.own (λ place. place < length cluster.ring) }
        requires bytes { bytes < 2 ^ 63 }
        requires name { blank.name ≡ L.name }
        requires parts { blank.parts ≡ L.parts }
        requires all { L.parts ≡ all_parts }
        // So much the table behind the lock may keep: the limit comes from that table alone.
        ensures limit { IfOk result (λ g. limit_of g.limit ≡ bytes) }
        ensures entries { IfOk result (λ g. room_of g.limit ≡ non_zero_usize_get entries) }
        ensures cluster { IfOk result (λ g. cluster_of g ≡ cluster) }
        ensures gate { IfOk result (λ g. g.gate ≡ gate) }
    {
        let (table, pass, sleepers) = Table::new(alloc, bytes, entries, PARTS, blank)?;
        let limit = table.limit();
        Ok(Group {
            state: Mutex::new(GroupState::new(table, pass, FullLedger::new())),
            sleepers,
            nodes: Nodes::new(cluster),
            gate,
            alloc,
            limit,
        })
    }

    /// Takes one of the 65,536 passes. None where all are out.
    pub fn pass<R: Wait>(&self, rt: &R) -> Option<Pass<L>>
        ensures { IfSome result (λ p. (p.parts ≡ 1) × (p.gets ≡ 0)) }
    {
        self.state.lock(rt).pass()
    }

    /// Takes a pass back: its share and its parts are added to those of the group, as `GroupState::give_back` says, which is lent what
    /// stands behind the lock.
    pub fn give_back<R: Wait>(&self, rt: &R, pass: Pass<L>) {
        self.state.lock(rt).give_back(pass)
    }

    /// Gathers all passes that are out: returns the counts, and the calls of passes that came back before. Where a pass is missing, returns
    /// the passes.
    pub fn gather<R: Wait>(&self, rt: &R, passes: Vec<Pass<L>>) -> Result<(Book, u64), Vec<Pass<L>>>
        ensures shares { IfOk result (λ r. r.0.gets ≡ r.1 + sum_by (λ p. p.gets) passes.items) }
        ensures book { IfOk result (λ r. (in_flight : ℕ) × IsBook in_flight r.0) }
        ensures back { IfErr result (λ ps. ps.items ≡ passes.items) }
    {
        self.state.lock(rt).gather(passes)
    }

    /// Returns the counts.
    pub fn book<R: Wait>(&self, rt: &R) -> Book
        ensures { (in_flight : ℕ) × IsBook in_flight result }
    {
        self.state.lock(rt).book()
    }

    /// Returns how many bytes keys and values may take together.
    pub fn limit(&self) -> u64
        ensures { result ≡ limit_of self.now.limit }
    {
        self.limit.bytes()
    }

    /// Returns the gate of loads.
    pub fn gate(&self) -> &T
        ensures { result.now ≡ self.now.gate }
    {
        &self.gate
    }

    /// Returns whether a value is kept for the key. It counts as no call.
    pub fn holds<R: Wait>(&self, rt: &R, key: &K) -> bool {
        self.state.lock(rt).holds(key)
    }

    /// Returns how much is kept.
    pub fn kept<R: Wait>(&self, rt: &R) -> Kept
        ensures { result.bytes < 2 ^ 63 }
    {
        self.state.lock(rt).kept()
    }
}
