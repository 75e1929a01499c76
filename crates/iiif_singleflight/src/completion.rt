//! Flights that have landed, before their callers know.

use crate::flight_condvar::{FlightCondvar, Woken};
use iiif_byte_cache::Evicted;
use iiif_keys::{CacheKey, System};
use iiif_outcome::{Entry, Landed, Receipt};

/// Completion of a flight of the table of the ledger `L`, which that table alone makes. It can't be dropped: whoever holds it wakes the
/// flight's callers, and then takes the receipt out of it, behind the lock.
pub struct Completion<K: CacheKey, J: System, L> {
    pub(crate) receipt: Receipt<K, J, L>,
    /// The number of the flight that landed.
    pub(crate) ticket: u64,
    /// Whether the cell took the outcome.
    pub(crate) taken: bool,
    /// Whether the outcome that stands in the cell is of the flight that landed.
    pub(crate) own: bool,
    /// The outcome that the cell refused.
    pub(crate) refused: Option<Box<Landed<K, J>>>,
    /// The entries that left the cache where the value was kept.
    pub(crate) evicted: Option<Evicted<K, Entry<K, J, L>>>,
}

impl<K: CacheKey, J: System, L> Completion<K, J, L> {
    ghost use Rattle.std.specs.Prelude.{◌≡◌};
    ghost use Rattle.iiif_outcome.specs.Views.{receipt_cell, receipt_known, receipt_ticket};
    ghost use Rattle.iiif_singleflight.specs.Completions.{completion_cell, completion_kept, completion_known, completion_own};
    ghost use Rattle.iiif_singleflight.specs.Completions.{completion_refused, completion_ticket, told_ticket};

    /// Returns whether the outcome that stands in the cell is of the flight that landed. Else the cell was given to two.
    pub fn is_own(&self) -> bool
        ensures { result ≡ completion_own self.now }
    {
        self.own
    }

    /// Returns whether the value was put into the cache.
    pub fn kept(&self) -> bool
        ensures { result ≡ completion_kept self.now }
    {
        self.evicted.is_some()
    }

    /// Wakes the callers that joined the flight, by its number. It has landed, so none of them sleeps on.
    pub fn wake(&self, waiting: &FlightCondvar<L>) -> Woken<L>
        ensures { result.ticket ≡ completion_ticket self.now }
    {
        waiting.wake(self.ticket)
    }

    /// Takes out the receipt of what stands in the cell, once the flight's callers were woken, and drops the entries that were
    /// evicted. Where the cell refused the outcome, which then comes back, the receipt is of another.
    pub fn into_receipt(self, woken: Woken<L>) -> (Receipt<K, J, L>, Option<Box<Landed<K, J>>>)
        requires { woken.ticket ≡ completion_ticket self }
        ensures receipt { (receipt_cell result.0 ≡ completion_cell self) × (receipt_known result.0 ≡ completion_known self) ×
            (receipt_ticket result.0 ≡ told_ticket self) }
        ensures refused { result.1 ≡ completion_refused self }
    {
        let Completion {
            receipt,
            ticket: _,
            taken: _,
            own: _,
            refused,
            evicted: _,
        } = self;
        drop(woken);
        (receipt, refused)
    }
}
