//! Receipts of flights that landed.

ghost use Rattle.std.specs.Prelude.{◌≡◌, IfSome, IsSome};
ghost use Rattle.std.specs.Option.{ForSome};
ghost use Rattle.std.specs.Arc.{arc_value};
ghost use Rattle.once_cell.specs.Once.{cell_name};

use crate::landed::Landed;
use iiif_keys::{CacheKey, Fault, System};
use iiif_pixel::NoMemory;
use once_cell::race::{Note, OnceBox};
use std::marker::PhantomData;
use std::sync::Arc;

/// Right to read the outcome of a flight of the table of the ledger `L`, which stands in the flight's cell. A receipt's knowledge never
/// changes.
#[derive(Drop)]
pub struct Receipt<K: CacheKey, J: System, L> {
    pub(crate) cell: Arc<OnceBox<Landed<K, J>>>,
    pub(crate) note: Note<Landed<K, J>>,
    pub(crate) ticket: u64,
    pub(crate) of: PhantomData<L>,
    pub ghost of_cell: { note.cell ≡ cell_name (arc_value cell) },
    pub ghost known: { IsSome note.known },
    pub ghost ticket_is: { ForSome note.known (λ x. ticket ≡ x.ticket) },
}

impl<K: CacheKey, J: System, L> Receipt<K, J, L> {
    ghost use Rattle.std.specs.Prelude.{◌↔◌, ⊤, IfOk, IsTrue};
    ghost use Rattle.std.specs.Borrow.{sem, follows_so};
    ghost use mathlib.Core.Option.{none};
    ghost use Rattle.iiif_outcome.specs.Views.{receipt_cell, receipt_known, receipt_ticket, SameReceipt};
    ghost use Rattle.iiif_outcome.specs.contracts.receipt.Receipt.{the_row};

    /// Returns the flight's number.
    pub fn ticket(&self) -> u64
        ensures { result ≡ receipt_ticket self.now }
    {
        self.ticket
    }

    /// Returns whether both receipts are of one flight: whether their tickets are equal, as a table numbers its flights.
    pub fn same(&self, other: &Receipt<K, J, L>) -> bool
        ensures { IsTrue result ↔ (receipt_ticket self.now ≡ receipt_ticket other.now) }
    {
        self.ticket == other.ticket
    }

    /// Shares the receipt. The only error is a cell that refuses another share.
    pub fn share(&mut self) -> Result<Receipt<K, J, L>, NoMemory>
        ensures same { SameReceipt self.old self.new }
        ensures shared { IfOk result (λ r. SameReceipt self.old r) }
    {
        let cell = Arc::try_clone(&self.cell)?;
        let note = self.note.again();
        let ticket = self.ticket;
        Ok(Receipt {
            cell,
            note,
            ticket,
            of: PhantomData,
        })
    }

    /// States that two receipts of one cell have one ticket and one outcome, whichever threads hold them and however they came by
    /// them. It computes nothing.
    pub fn agree(&mut self, other: &mut Receipt<K, J, L>)
        requires { receipt_cell self.old ≡ receipt_cell other.old }
        ensures ticket { receipt_ticket self.old ≡ receipt_ticket other.old }
        ensures outcome { receipt_known self.old ≡ receipt_known other.old }
        ensures same { SameReceipt self.old self.new }
        ensures other_same { SameReceipt other.old other.new }
    {
        let note = other.note.again();
        self.note.compare(note);
    }

    /// Returns what the flight landed with, the same at each call.
    pub fn outcome(&mut self) -> &Result<Arc<K::Value>, Fault>
        ensures* same { sem 𝓛 (follows_so (the_row K.row J.row L.row K.Value.row K.CacheKey.own K.PartialEq K.Hash.own J.System)
            (the_row K.row J.row L.row K.Value.row K.CacheKey.own K.PartialEq K.Hash.own J.System) self.entry.ghost_name none (λ _ _. ⊤)
            (λ n. SameReceipt self.old n)) }
        ensures value { IfSome (receipt_known self.old) (λ x. x.outcome ≡ result.now) }
    {
        let mut note = self.note.again();
        read(&self.cell, &mut note)
    }
}

/// Reads the outcome in a cell of which something is known.
fn read<'a, K: CacheKey, J: System>(
    cell: &'a Arc<OnceBox<Landed<K, J>>>,
    note: &mut Note<Landed<K, J>>,
) -> &'a Result<Arc<K::Value>, Fault>
    requires cell { note.old.cell ≡ cell_name (arc_value cell.now) }
    requires known { IsSome note.old.known }
    ensures { IfSome note.old.known (λ x. x.outcome ≡ result.now) }
{
    match cell.get_as(note) {
        Some(landed) => &landed.outcome,
        None => unreachable!(),
    }
}
