//! The table of a group.

ghost use Rattle.std.specs.Prelude.{◌≡◌};
ghost use Rattle.iiif_tables.specs.Flights.{IsBook};
ghost use Rattle.iiif_singleflight.specs.Held.{in_flight};

use crate::completion::Completion;
use crate::entered::Entered;
use crate::flight_condvar::FlightCondvar;
use crate::keeping::{Arrival, count, keep, share_of};
use crate::open_flights::OpenFlights;
use crate::pass::{Pass, count_wide};
use iiif_byte_cache::ByteCache;
use iiif_keys::{CacheKey, Fault, System};
use iiif_outcome::{Ended, Lead};
use iiif_pixel::NoMemory;
use iiif_tables::{Book, Class, Place};
use std::alloc::{AllocError, Global};
use std::marker::PhantomData;
use std::num::NonZeroUsize;
use std::sync::Arc;
use std::sync::ledger::{Blank, Book as Tally, Ledger};

/// Table of a group: its cache, the open flights and the counts. It holds the book of the ledger `L`, so it alone makes the
/// handles of that ledger.
#[derive(Drop)]
pub struct Table<K: CacheKey, J: System, L: Ledger> {
    pub(crate) cache: ByteCache<K, J, L>,
    pub(crate) opens: OpenFlights<K, J, L>,
    pub(crate) book: Book,
    pub(crate) tally: Tally<L>,
    pub(crate) alloc: Global,
    pub ghost sums: { IsBook (in_flight opens) book },
    pub ghost counted: { book.gets ≡ tally.total },
}

/// Size of a cache.
#[derive(Clone, Copy, PartialEq, Eq)]
pub struct Kept {
    /// Bytes of the entries, with their keys.
    pub bytes: u64,
    /// The entries of both lists.
    pub entries: usize,
}

/// How much the table of the ledger `L` may keep: so many bytes in all, and so many entries a list. That table alone makes it.
#[derive(Drop)]
pub struct Limit<L: Ledger> {
    bytes: u64,
    entries: NonZeroUsize,
    of: PhantomData<L>,
}

impl<L: Ledger> Limit<L> {
    ghost use Rattle.iiif_singleflight.specs.View.{limit_of};

    /// Returns the number of bytes.
    pub fn bytes(&self) -> u64
        ensures { result ≡ limit_of self.now }
    {
        self.bytes
    }
}

impl<K: CacheKey, J: System, L: Ledger> Table<K, J, L> {
    ghost use Rattle.std.specs.Prelude.{◌^◌, ◌<◌, ◌≤◌, ◌+◌, IfOk, IfSome, IsSome, IsTrue, None, OnErr, OnOk, is_some, length, option_map};
    ghost use Rattle.std.specs.Arc.{arc_value};
    ghost use Rattle.std.specs.NonZero.{non_zero_usize_get};
    ghost use Rattle.iiif_tables.specs.Cache.{bytes_in, kept_for};
    ghost use Rattle.iiif_tables.specs.Flights.{again as looked, empty_table};
    ghost use Rattle.iiif_outcome.specs.Outcomes.{OutcomeFor};
    ghost use Rattle.iiif_outcome.specs.Views.{entry_size, lead_class, lead_key, lead_ticket};
    ghost use Rattle.iiif_singleflight.specs.Calls.{Enters, Lands};
    ghost use Rattle.iiif_singleflight.specs.View.{cells_of, limit_of, room_of, table_of, wide_leads};

    /// Makes the table of a ledger that no other has, for `bytes` bytes in all and `entries` entries a list, the pass that has all parts
    /// of the ledger, and the condition variables of the table's flights. The only error is lack of memory.
    pub fn new(
        alloc: Global,
        bytes: u64,
        entries: NonZeroUsize,
        parts: u64,
        blank: Blank,
    ) -> Result<(Table<K, J, L>, Pass<L>, FlightCondvar<L>), NoMemory>
        requires name { blank.name ≡ L.name }
        requires parts { (blank.parts ≡ L.parts) × (L.parts ≡ parts) × (0 < parts) }
        requires bytes { bytes < 2 ^ 63 }
        ensures table { IfOk result (λ r. table_of K.eq r.0 ≡ empty_table bytes (non_zero_usize_get entries)) }
        ensures cells { IfOk result (λ r. cells_of K.eq r.0 ≡ (λ class key. None)) }
        ensures pass { IfOk result (λ r. (r.1.parts ≡ parts) × (r.1.gets ≡ 0) × (wide_leads r.1 ≡ 0) × (r.1.id ≡ 0)) }
    {
        let cache = ByteCache::new(alloc, bytes, entries)?;
        let (tally, share) = blank.open::<L>();
        let book = Book {
            gets: 0,
            hits: 0,
            joins: 0,
            leads: 0,
            again_hits: 0,
            loads: 0,
            peer: 0,
            landed: 0,
            faults: 0,
        };
        let table = Table {
            cache,
            opens: OpenFlights::new(alloc),
            book,
            tally,
            alloc,
        };
        let pass = Pass {
            share,
            id: 0,
            parts,
            gets: 0,
            led: 0,
        };
        Ok((table, pass, FlightCondvar::new()))
    }

    /// Returns the counts.
    pub fn book(&self) -> Book
        ensures book { result ≡ (table_of K.eq self.now).book }
        ensures sums { IsBook (table_of K.eq self.now).in_flight result }
    {
        self.book
    }

    /// Returns whether a value is kept for the key. It changes and counts nothing, and takes no memory.
    pub fn holds(&self, key: &K) -> bool
        ensures { result ≡ is_some (kept_for K.eq key.now (table_of K.eq self.now).cache) }
    {
        self.cache.holds(key)
    }

    /// Returns how much is kept. It takes no memory.
    pub fn kept(&self) -> Kept
        ensures bytes { result.bytes ≡ bytes_in (entry_size K.key_bytes K.val_bytes) (table_of K.eq self.now).cache }
        ensures within { result.bytes ≤ (table_of K.eq self.now).cache.limit }
        ensures small { result.bytes < 2 ^ 63 }
        ensures entries { result.entries ≡ length (table_of K.eq self.now).cache.main + length (table_of K.eq self.now).cache.hot }
    {
        Kept {
            bytes: self.cache.bytes(),
            entries: self.cache.len(),
        }
    }

    /// Returns how much may be kept.
    pub fn limit(&self) -> Limit<L>
        ensures bytes { limit_of result ≡ (table_of K.eq self.now).cache.limit }
        ensures entries { room_of result ≡ (table_of K.eq self.now).cache.room }
    {
        Limit {
            bytes: self.cache.limit(),
            entries: self.cache.entries(),
            of: PhantomData,
        }
    }

    /// Enters a call for a key: it hits, joins or leads, and its pass counts one call more. The only error is lack of memory, or that
    /// 2^64 - 1 calls have entered.
    pub fn enter(
        &mut self,
        pass: &mut Pass<L>,
        key: &K,
        class: Class,
    ) -> Result<Entered<K, J, L>, NoMemory>
        ensures { Enters (λ e. e) class key.now self.old self.new pass.old pass.new result }
    {
        if self.book.gets == u64::MAX {
            return Err(AllocError);
        }
        if let Some(hit) = self.cache.hit(key)? {
            self.cache.touch(key);
            self.book.gets += 1;
            self.book.hits += 1;
            pass.count(&mut self.tally, 0);
            return Ok(Entered::Hit(hit.into_receipt()));
        }
        if let Some(flight) = self.opens.join(class, key) {
            let flight = flight?;
            self.book.gets += 1;
            self.book.joins += 1;
            pass.count(&mut self.tally, 0);
            return Ok(Entered::Joined(flight));
        }
        let ticket = self.book.leads + 1;
        let lead = self
            .opens
            .open(self.alloc, class, key, ticket, &self.tally)?;
        self.book.gets += 1;
        self.book.leads += 1;
        pass.count(&mut self.tally, count_wide(class));
        Ok(Entered::Lead(lead))
    }

    /// Looks again, for the leader of a flight: returns the value, if one is kept for its key by now. The only error is an entry that
    /// refuses another share.
    pub fn again(&mut self, lead: &Lead<K, J, L>) -> Result<Option<Arc<K::Value>>, NoMemory>
        ensures table { OnOk result (table_of K.eq self.new ≡
            (looked K.eq (lead_class lead.now) (lead_key lead.now) (lead_ticket lead.now) (table_of K.eq self.old)).1) }
        ensures found { IfOk result (λ o. option_map arc_value o ≡
            (looked K.eq (lead_class lead.now) (lead_key lead.now) (lead_ticket lead.now) (table_of K.eq self.old)).0) }
        ensures meant { IfOk result (λ o. IfSome o
            (λ v. J.stable (K.name_of (lead_key lead.now)) → IsTrue J.honest → arc_value v ≡ K.meaning J.pictures (lead_key lead.now))) }
        ensures shaped { IfOk result (λ o. IfSome o (λ v. IsTrue (K.is_shaped J.pictures (lead_key lead.now) (arc_value v)))) }
        ensures cells { cells_of K.eq self.new ≡ cells_of K.eq self.old }
        ensures err { OnErr result (table_of K.eq self.new ≡ table_of K.eq self.old) }
        ensures refused { OnErr result (IsSome (kept_for K.eq (lead_key lead.now) (table_of K.eq self.old).cache)) }
    {
        let class = lead.class();
        let key = lead.key();
        if !self.opens.is_open(class, key, lead.ticket()) {
            return Ok(None);
        }
        let Some(entry) = self.cache.hit(key)? else {
            return Ok(None);
        };
        self.cache.touch(key);
        self.opens.mark(class, key);
        Ok(Some(entry.into_value()))
    }

    /// Lands a flight: it closes and is counted, and its value is kept by its place. It never refuses: where memory runs out the value
    /// isn't kept. Where the cell refuses the outcome, because another stands in it, the outcome comes back.
    pub fn land(
        &mut self,
        lead: Lead<K, J, L>,
        outcome: Result<Arc<K::Value>, Fault>,
        place: Place,
    ) -> Completion<K, J, L>
        requires { OutcomeFor K.CacheKey.own J.System (lead_key lead) outcome }
        ensures { Lands lead outcome place self.old self.new result }
    {
        let class = lead.class();
        let ticket = lead.ticket();
        let value = share_of(&outcome);
        let fault = outcome.is_err();
        let Ended {
            mut receipt,
            key,
            taken,
            own,
            refused,
        } = lead.set(outcome);
        let name = &*key;
        let Some(found) = self.opens.close(class, name, ticket) else {
            return Completion {
                receipt,
                ticket,
                taken,
                own,
                refused,
                evicted: None,
            };
        };
        count(&mut self.book, found, fault, place);
        let arrival = Arrival {
            place,
            peer: self.book.peer,
        };
        let value = value.filter(|_| taken);
        let evicted = keep(&mut self.cache, arrival, name, value, &mut receipt);
        Completion {
            receipt,
            ticket,
            taken,
            own,
            refused,
            evicted,
        }
    }
}
