//! Open flights of one class.

ghost use Rattle.std.specs.Prelude.{◌≡◌};
ghost use Rattle.std.specs.Option.{ForSome};
ghost use Rattle.std.specs.HashMap.{get};
ghost use Rattle.iiif_outcome.specs.Views.{flight_key};

use iiif_keys::{CacheKey, System};
use iiif_outcome::{Flight, Lead};
use iiif_pixel::NoMemory;
use iiif_tables::Class;
use std::alloc::Global;
use std::collections::HashMap;
use std::sync::ledger::{Book as Tally, Ledger};

/// Open flight.
#[derive(Drop)]
pub struct OpenFlight<K: CacheKey, J: System, L> {
    pub(crate) flight: Flight<K, J, L>,
    /// Whether its leader found the value by looking again.
    pub(crate) found: bool,
}

/// Open flights of one class, at most one for a key.
#[derive(Drop)]
pub struct FlightsOfClass<K: CacheKey, J: System, L> {
    pub(crate) map: HashMap<K, OpenFlight<K, J, L>>,
    pub ghost keyed: { (q : K) → ForSome (get K.eq map q) (λ o. flight_key o.flight ≡ q) },
}

impl<K: CacheKey, J: System, L: Ledger> FlightsOfClass<K, J, L> {
    ghost use Rattle.std.specs.Prelude.{ℕ, ◌+◌, Option, Some, None, true, false, IfOk, IfSome, IfNone, OnErr, option_map, MatchOption};
    ghost use Rattle.std.specs.Prelude.{IsSome};
    ghost use Rattle.std.specs.HashMap.{hash_map_len};
    ghost use Rattle.std.specs.Map.{update};
    ghost use Rattle.iiif_outcome.specs.Views.{flight_cell, flight_ticket, lead_cell, lead_class, lead_key, lead_known, lead_ticket};
    ghost use Rattle.iiif_tables.specs.Flights.{has_ticket, is_found};
    ghost use Rattle.iiif_singleflight.specs.Seen.{the_flight, found_of};
    ghost use Rattle.iiif_singleflight.specs.Held.{held};

    /// Makes the map of a class with no open flight.
    pub fn new(alloc: Global) -> FlightsOfClass<K, J, L>
        ensures none { (q : K) → held K.eq result.map q ≡ None }
        ensures len { hash_map_len result.map ≡ 0 }
    {
        FlightsOfClass {
            map: HashMap::new(alloc),
        }
    }

    /// Shares the open flight for a key with one more caller. None where there is none.
    pub fn join(&mut self, key: &K) -> Option<Result<Flight<K, J, L>, NoMemory>>
        ensures none { MatchOption result (held K.eq self.old.map key.now ≡ None) (λ r. IsSome (held K.eq self.old.map key.now)) }
        ensures key { IfSome result (λ r. IfOk r (λ f. flight_key f ≡ key.now)) }
        ensures joined { IfSome result (λ r. IfOk r
            (λ f. IfSome (held K.eq self.old.map key.now) (λ s. (flight_ticket f ≡ s.flight.ticket) × (flight_cell f ≡ s.cell)))) }
        ensures same { (q : K) → held K.eq self.new.map q ≡ held K.eq self.old.map q }
        ensures len { hash_map_len self.new.map ≡ hash_map_len self.old.map }
    {
        let found = self.map.get_mut(key)?;
        Some(found.flight.join())
    }

    /// Opens a flight for a key that has no open one.
    pub fn open(
        &mut self,
        alloc: Global,
        class: Class,
        key: &K,
        ticket: u64,
        tally: &Tally<L>,
    ) -> Result<Lead<K, J, L>, NoMemory>
        requires { held K.eq self.old.map key.now ≡ None }
        ensures lead { IfOk result (λ l. (lead_key l ≡ key.now) × (lead_ticket l ≡ ticket) × (lead_class l ≡ class) ×
            (lead_known l ≡ None)) }
        ensures opened { IfOk result (λ l. (q : K) →
            held K.eq self.new.map q ≡ update K.eq (held K.eq self.old.map) key.now
            (Some (record { flight = record { ticket = ticket; found = false }; cell = lead_cell l })) q) }
        ensures len { IfOk result (λ l. hash_map_len self.new.map ≡ hash_map_len self.old.map + 1) }
        ensures err { OnErr result ((q : K) → held K.eq self.new.map q ≡ held K.eq self.old.map q) }
        ensures err_len { OnErr result (hash_map_len self.new.map ≡ hash_map_len self.old.map) }
    {
        self.map.reserve(1)?;
        let name = key.copy()?;
        let (lead, flight) = Lead::open(alloc, key, class, ticket, tally)?;
        match self.map.insert(
            name,
            OpenFlight {
                flight,
                found: false,
            },
        ) {
            Ok(_) => Ok(lead),
            Err(_) => unreachable!(),
        }
    }

    /// Returns whether the flight with this key and ticket is open.
    pub fn is_open(&self, key: &K, ticket: u64) -> bool
        ensures { result ≡ has_ticket ticket (option_map the_flight (held K.eq self.now.map key.now)) }
    {
        match self.map.get(key) {
            Some(one) => one.flight.ticket() == ticket,
            None => false,
        }
    }

    /// Marks the open flight for a key: its leader found the value by looking again.
    pub fn mark(&mut self, key: &K)
        ensures marked { IfSome (held K.eq self.old.map key.now)
            (λ s. (q : K) → held K.eq self.new.map q ≡ update K.eq (held K.eq self.old.map) key.now (Some (found_of s)) q) }
        ensures len { hash_map_len self.new.map ≡ hash_map_len self.old.map }
    {
        if let Some(one) = self.map.get_mut(key) {
            one.found = true;
        }
    }

    /// Closes the flight with this key and ticket, and returns whether its leader had found the value. None where it isn't open.
    pub fn close(&mut self, key: &K, ticket: u64) -> Option<bool>
        ensures none { IfNone result (has_ticket ticket (option_map the_flight (held K.eq self.old.map key.now)) ≡ false) }
        ensures same { IfNone result ((q : K) → held K.eq self.new.map q ≡ held K.eq self.old.map q) }
        ensures same_len { IfNone result (hash_map_len self.new.map ≡ hash_map_len self.old.map) }
        ensures ticket { IfSome result (λ b. (has_ticket ticket (option_map the_flight (held K.eq self.old.map key.now)) ≡ true) ×
            (b ≡ is_found (option_map the_flight (held K.eq self.old.map key.now)))) }
        ensures closed { IfSome result (λ b. (q : K) → held K.eq self.new.map q ≡ update K.eq (held K.eq self.old.map) key.now None q) }
        ensures len { IfSome result (λ b. hash_map_len self.new.map + 1 ≡ hash_map_len self.old.map) }
    {
        let one = self.map.get(key)?;
        if one.flight.ticket() != ticket {
            return None;
        }
        let found = one.found;
        drop(self.map.remove(key));
        Some(found)
    }
}
