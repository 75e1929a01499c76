//! Open flights.

use crate::flights_of_class::FlightsOfClass;
use iiif_keys::{CacheKey, System};
use iiif_outcome::{Flight, Lead};
use iiif_pixel::NoMemory;
use iiif_tables::Class;
use std::alloc::Global;
use std::sync::ledger::{Book as Tally, Ledger};

/// Open flights: at most one for each class and key.
#[derive(Drop)]
pub struct OpenFlights<K: CacheKey, J: System, L> {
    pub(crate) wide: FlightsOfClass<K, J, L>,
    pub(crate) local: FlightsOfClass<K, J, L>,
}

impl<K: CacheKey, J: System, L: Ledger> OpenFlights<K, J, L> {
    ghost use Rattle.std.specs.Prelude.{◌≡◌, ℕ, ◌+◌, Option, Some, None, true, false, IfOk, IfSome, IfNone, OnErr, option_map, MatchOption};
    ghost use Rattle.std.specs.Prelude.{IsSome};
    ghost use Rattle.iiif_outcome.specs.Views.{flight_cell, flight_key, flight_ticket, lead_cell, lead_class, lead_key, lead_known};
    ghost use Rattle.iiif_outcome.specs.Views.{lead_ticket};
    ghost use Rattle.iiif_tables.specs.Flights.{has_ticket, is_found};
    ghost use Rattle.iiif_singleflight.specs.Seen.{with_at, the_flight, found_of};
    ghost use Rattle.iiif_singleflight.specs.Held.{open_at, in_flight};

    /// Makes the maps, with no open flight.
    pub fn new(alloc: Global) -> OpenFlights<K, J, L>
        ensures none { open_at K.eq result ≡ (λ c q. None) }
        ensures in_flight { in_flight result ≡ 0 }
    {
        OpenFlights {
            wide: FlightsOfClass::new(alloc),
            local: FlightsOfClass::new(alloc),
        }
    }

    /// Shares the open flight for a class and a key with one more caller. None where there is none.
    pub fn join(&mut self, class: Class, key: &K) -> Option<Result<Flight<K, J, L>, NoMemory>>
        ensures none { MatchOption result (open_at K.eq self.old class key.now ≡ None) (λ r. IsSome (open_at K.eq self.old class key.now)) }
        ensures key { IfSome result (λ r. IfOk r (λ f. flight_key f ≡ key.now)) }
        ensures joined { IfSome result (λ r. IfOk r
            (λ f. IfSome (open_at K.eq self.old class key.now) (λ s. (flight_ticket f ≡ s.flight.ticket) × (flight_cell f ≡ s.cell)))) }
        ensures same { open_at K.eq self.new ≡ open_at K.eq self.old }
        ensures in_flight { in_flight self.new ≡ in_flight self.old }
    {
        match class {
            Class::Wide => self.wide.join(key),
            Class::Local => self.local.join(key),
        }
    }

    /// Opens a flight for a class and a key that have no open one.
    pub fn open(
        &mut self,
        alloc: Global,
        class: Class,
        key: &K,
        ticket: u64,
        tally: &Tally<L>,
    ) -> Result<Lead<K, J, L>, NoMemory>
        requires { open_at K.eq self.old class key.now ≡ None }
        ensures lead { IfOk result (λ l. (lead_key l ≡ key.now) × (lead_ticket l ≡ ticket) × (lead_class l ≡ class) ×
            (lead_known l ≡ None)) }
        ensures opened { IfOk result (λ l. open_at K.eq self.new ≡ with_at K.eq class key.now
            (Some (record { flight = record { ticket = ticket; found = false }; cell = lead_cell l })) (open_at K.eq self.old)) }
        ensures in_flight { IfOk result (λ l. in_flight self.new ≡ in_flight self.old + 1) }
        ensures err { OnErr result ((open_at K.eq self.new ≡ open_at K.eq self.old) × (in_flight self.new ≡ in_flight self.old)) }
    {
        match class {
            Class::Wide => self.wide.open(alloc, class, key, ticket, tally),
            Class::Local => self.local.open(alloc, class, key, ticket, tally),
        }
    }

    /// Returns whether the flight with this class, key and ticket is open.
    pub fn is_open(&self, class: Class, key: &K, ticket: u64) -> bool
        ensures { result ≡ has_ticket ticket (option_map the_flight (open_at K.eq self.now class key.now)) }
    {
        match class {
            Class::Wide => self.wide.is_open(key, ticket),
            Class::Local => self.local.is_open(key, ticket),
        }
    }

    /// Marks the open flight for a class and a key: its leader found the value by looking again.
    pub fn mark(&mut self, class: Class, key: &K)
        ensures marked { IfSome (open_at K.eq self.old class key.now)
            (λ s. open_at K.eq self.new ≡ with_at K.eq class key.now (Some (found_of s)) (open_at K.eq self.old)) }
        ensures in_flight { in_flight self.new ≡ in_flight self.old }
    {
        match class {
            Class::Wide => self.wide.mark(key),
            Class::Local => self.local.mark(key),
        }
    }

    /// Closes the flight with this class, key and ticket, and returns whether its leader had found the value. None where it isn't
    /// open.
    pub fn close(&mut self, class: Class, key: &K, ticket: u64) -> Option<bool>
        ensures none { IfNone result ((has_ticket ticket (option_map the_flight (open_at K.eq self.old class key.now)) ≡ false) ×
            (open_at K.eq self.new ≡ open_at K.eq self.old) × (in_flight self.new ≡ in_flight self.old)) }
        ensures ticket { IfSome result (λ b. (has_ticket ticket (option_map the_flight (open_at K.eq self.old class key.now)) ≡ true) ×
            (b ≡ is_found (option_map the_flight (open_at K.eq self.old class key.now)))) }
        ensures closed { IfSome result (λ b. open_at K.eq self.new ≡ with_at K.eq class key.now None (open_at K.eq self.old)) }
        ensures in_flight { IfSome result (λ b. in_flight self.new + 1 ≡ in_flight self.old) }
    {
        match class {
            Class::Wide => self.wide.close(key, ticket),
            Class::Local => self.local.close(key, ticket),
        }
    }
}
