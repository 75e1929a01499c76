//! Open flights, as callers hold them that joined.

ghost use Rattle.std.specs.Prelude.{◌≡◌};
ghost use Rattle.std.specs.Arc.{arc_value};
ghost use Rattle.once_cell.specs.Once.{cell_name};

use crate::landed::Landed;
use crate::receipt::Receipt;
use iiif_keys::{CacheKey, System};
use iiif_pixel::NoMemory;
use once_cell::race::{Note, OnceBox};
use std::marker::PhantomData;
use std::sync::Arc;

/// Flight of the table of the ledger `L`, as a caller holds it that joined: its key and ticket, and the cell in which its outcome will
/// stand.
#[derive(Drop)]
pub struct Flight<K: CacheKey, J: System, L> {
    pub(crate) key: Arc<K>,
    pub(crate) ticket: u64,
    pub(crate) cell: Arc<OnceBox<Landed<K, J>>>,
    pub(crate) note: Note<Landed<K, J>>,
    pub(crate) of: PhantomData<L>,
    pub ghost of_cell: { note.cell ≡ cell_name (arc_value cell) },
}

impl<K: CacheKey, J: System, L> Flight<K, J, L> {
    ghost use Rattle.std.specs.Prelude.{◌≢◌, ◌⊎◌, IfErr, IfOk, IfSome, IsFalse};
    ghost use Rattle.std.specs.Option.{ForSome};
    ghost use Rattle.iiif_outcome.specs.Views.{flight_cell, flight_key, flight_known, flight_ticket, receipt_cell, receipt_known};
    ghost use Rattle.iiif_outcome.specs.Views.{receipt_ticket};

    /// Returns the key whose value the flight loads.
    pub fn key(&self) -> &K
        ensures { result.now ≡ flight_key self.now }
    {
        &self.key
    }

    /// Returns the flight's number.
    pub fn ticket(&self) -> u64
        ensures { result ≡ flight_ticket self.now }
    {
        self.ticket
    }

    /// Shares the flight with one more caller that joins. The only error is a key or a cell that refuses another share.
    pub fn join(&mut self) -> Result<Flight<K, J, L>, NoMemory>
        ensures same { (flight_key self.new ≡ flight_key self.old) × (flight_ticket self.new ≡ flight_ticket self.old) ×
            (flight_cell self.new ≡ flight_cell self.old) × (flight_known self.new ≡ flight_known self.old) }
        ensures joined { IfOk result (λ f. (flight_key f ≡ flight_key self.old) × (flight_ticket f ≡ flight_ticket self.old) ×
            (flight_cell f ≡ flight_cell self.old)) }
    {
        let key = Arc::try_clone(&self.key)?;
        let cell = Arc::try_clone(&self.cell)?;
        let ticket = self.ticket;
        let note = self.note.again();
        Ok(Flight {
            key,
            ticket,
            cell,
            note,
            of: PhantomData,
        })
    }

    /// Returns the receipt of what the flight landed with, or the flight while nothing is known.
    pub fn learn(self) -> Result<Receipt<K, J, L>, Flight<K, J, L>>
        ensures flight { IfOk result (λ r. (receipt_cell r ≡ flight_cell self) × (receipt_ticket r ≡ flight_ticket self)) }
        ensures key { IfOk result (λ r. IfSome (receipt_known r) (λ x. arc_value x.key ≡ flight_key self)) }
        ensures kept { IfOk result (λ r. IfSome (flight_known self) (λ x. receipt_known r ≡ Some x)) }
        ensures back { IfErr result (λ f. (flight_cell f ≡ flight_cell self) × (flight_key f ≡ flight_key self) ×
            (flight_ticket f ≡ flight_ticket self)) }
        ensures forgets_nothing { IfErr result (λ f. IfSome (flight_known self) (λ x. flight_known f ≡ Some x)) }
        // By then the cell has an outcome of no other flight, unless a cell was given to two.
        ensures unknown { IfErr result (λ f. ForSome (flight_known f)
            (λ x. (x.ticket ≢ flight_ticket self) ⊎ IsFalse (K.eq (arc_value x.key) (flight_key self)))) }
    {
        let Flight {
            key,
            ticket,
            cell,
            mut note,
            of,
        } = self;
        match cell.get_as(&mut note) {
            Some(landed) if landed.ticket == ticket && *landed.key == *key => Ok(Receipt {
                cell,
                note,
                ticket,
                of,
            }),
            _ => Err(Flight {
                key,
                ticket,
                cell,
                note,
                of,
            }),
        }
    }
}
