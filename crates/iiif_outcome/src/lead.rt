//! The duty to land a flight.

ghost use Rattle.std.specs.Prelude.{◌≡◌};
ghost use Rattle.std.specs.Arc.{arc_value};

use crate::flight::Flight;
use crate::landed::Landed;
use crate::receipt::Receipt;
use iiif_keys::{CacheKey, Fault, System};
use iiif_pixel::NoMemory;
use iiif_tables::Class;
use once_cell::race::OnceBox;
use std::alloc::Global;
use std::marker::PhantomData;
use std::sync::Arc;
use std::sync::ledger::{Book as Tally, Ledger};

/// Duty to land a flight of the table of the ledger `L`, with the room for its outcome. It can't be dropped: landing the flight spends
/// it.
pub struct Lead<K: CacheKey, J: System, L> {
    pub(crate) flight: Flight<K, J, L>,
    pub(crate) class: Class,
    pub(crate) room: Box<Landed<K, J>>,
    pub ghost room_key: { arc_value room.value.key ≡ arc_value flight.key },
    pub ghost room_ticket: { room.value.ticket ≡ flight.ticket },
}

/// Result of ending a flight.
#[derive(Drop)]
pub struct Ended<K: CacheKey, J: System, L> {
    /// The receipt of what stands in the cell.
    pub receipt: Receipt<K, J, L>,
    /// The key of the flight.
    pub key: Arc<K>,
    /// Whether the cell took the outcome of the lead. It refuses it only where another stands in it.
    pub taken: bool,
    /// Whether the outcome that stands in the cell is of this flight.
    pub own: bool,
    /// The outcome that the cell refused, in the room that its lead had.
    pub refused: Option<Box<Landed<K, J>>>,
}

impl<K: CacheKey, J: System, L: Ledger> Lead<K, J, L> {
    ghost use Rattle.std.specs.Prelude.{IfOk};
    ghost use Rattle.std.specs.declared.option.Option.TheVariants.{None};
    ghost use Rattle.iiif_outcome.specs.Views.{flight_cell, flight_key, flight_ticket, lead_cell, lead_class, lead_key, lead_known};
    ghost use Rattle.iiif_outcome.specs.Views.{lead_ticket};

    /// Opens a flight of the table that holds the ledger's book, with the room for its outcome, so that landing takes no memory. The
    /// flight beside the lead is for callers that join.
    pub fn open(
        alloc: Global,
        key: &K,
        class: Class,
        ticket: u64,
        _tally: &Tally<L>,
    ) -> Result<(Lead<K, J, L>, Flight<K, J, L>), NoMemory>
        ensures lead { IfOk result (λ l. (lead_key l.0 ≡ key.now) × (lead_ticket l.0 ≡ ticket) × (lead_class l.0 ≡ class) ×
            (lead_known l.0 ≡ None)) }
        ensures flight { IfOk result (λ l. (flight_key l.1 ≡ key.now) × (flight_ticket l.1 ≡ ticket) × (flight_cell l.1 ≡ lead_cell l.0)) }
    {
        let key = Arc::new(alloc, key.copy()?)?;
        let landed = Landed {
            key: Arc::try_clone(&key)?,
            ticket,
            outcome: Err(Fault::NoMemory),
            of: PhantomData,
        };
        let room = Box::new(alloc, landed)?;
        let cell = Arc::new(alloc, OnceBox::new(alloc))?;
        let note = cell.note();
        let mut flight = Flight {
            key,
            ticket,
            cell,
            note,
            of: PhantomData,
        };
        let joined = flight.join()?;
        Ok((
            Lead {
                flight,
                class,
                room,
            },
            joined,
        ))
    }
}

impl<K: CacheKey, J: System, L> Lead<K, J, L> {
    ghost use Rattle.std.specs.Prelude.{◌≢◌, ◌⊎◌, IfSome, IsFalse, IsTrue, MatchOption};
    ghost use Rattle.iiif_outcome.specs.Outcomes.{OutcomeFor};
    ghost use Rattle.iiif_outcome.specs.Views.{lead_cell, lead_class, lead_key, lead_ticket, receipt_cell, receipt_known, receipt_ticket};

    /// Returns the flight's key.
    pub fn key(&self) -> &K
        ensures { result.now ≡ lead_key self.now }
    {
        &self.flight.key
    }

    /// Returns the flight's number.
    pub fn ticket(&self) -> u64
        ensures { result ≡ lead_ticket self.now }
    {
        self.flight.ticket
    }

    /// Returns the flight's class: whether other nodes may be asked in it.
    pub fn class(&self) -> Class
        ensures { result ≡ lead_class self.now }
    {
        self.class
    }

    /// Ends the flight with a value that is its key's meaning, or with a fault that its source gave. The receipt has this outcome where
    /// the cell took it, else the one that stands there, which is of this flight unless the cell was given to two. It takes no memory.
    pub fn set(self, outcome: Result<Arc<K::Value>, Fault>) -> Ended<K, J, L>
        requires { OutcomeFor K.CacheKey.own J.System (lead_key self) outcome }
        ensures cell { receipt_cell result.receipt ≡ lead_cell self }
        ensures key { arc_value result.key ≡ lead_key self }
        ensures refused { MatchOption result.refused (IsTrue result.taken)
            (λ b. (b.value.outcome ≡ outcome) × (arc_value b.value.key ≡ lead_key self) × (b.value.ticket ≡ lead_ticket self)) }
        ensures taken { IsTrue result.taken → IfSome (receipt_known result.receipt)
            (λ x. (x.outcome ≡ outcome) × (arc_value x.key ≡ lead_key self)) × (receipt_ticket result.receipt ≡ lead_ticket self) }
        ensures taken_is_own { IsTrue result.taken → IsTrue result.own }
        ensures own { IsTrue result.own → (receipt_ticket result.receipt ≡ lead_ticket self) ×
            IfSome (receipt_known result.receipt) (λ x. arc_value x.key ≡ lead_key self) }
        ensures foreign { IsFalse result.own →
            IfSome (receipt_known result.receipt) (λ x. (x.ticket ≢ lead_ticket self) ⊎ IsFalse (K.eq (arc_value x.key) (lead_key self))) }
    {
        let Lead {
            flight,
            class: _,
            mut room,
        } = self;
        let Flight {
            key,
            ticket,
            cell,
            mut note,
            of,
        } = flight;
        room.outcome = outcome;
        let (ticket, own, refused) = match cell.set_as(room, &mut note) {
            Ok(()) => (ticket, true, None),
            Err(back) => match cell.get_as(&mut note) {
                Some(landed) => (landed.ticket, landed.is_of(&key, ticket), Some(back)),
                None => unreachable!(),
            },
        };
        let taken = refused.is_none();
        Ended {
            receipt: Receipt {
                cell,
                note,
                ticket,
                of,
            },
            key,
            taken,
            own,
            refused,
        }
    }
}
