//! Condition variables of the flights of a table, and waking on them.

use crate::striped_condvar::StripedCondvar;
use std::marker::PhantomData;
use std::sync::Condvar;

/// Condition variables on which the followers of the flights of the table of the ledger `L` sleep. `Table::new` alone makes them, with the
/// ledger's blank, so a table has no others: a leader can't wake on any but those on which its followers sleep.
#[derive(Drop)]
pub struct FlightCondvar<L> {
    stripes: StripedCondvar,
    of: PhantomData<L>,
}

/// Proof that the followers of a flight were woken. `FlightCondvar::wake` alone makes it.
#[derive(Drop)]
pub struct Woken<L> {
    ticket: u64,
    of: PhantomData<L>,
}

impl<L> FlightCondvar<L> {
    ghost use Rattle.std.specs.Prelude.{◌≡◌};

    /// Makes the condition variables, on which nobody sleeps.
    pub(crate) fn new() -> FlightCondvar<L> {
        FlightCondvar {
            stripes: StripedCondvar::new(),
            of: PhantomData,
        }
    }

    /// Returns the condition variable of a flight.
    pub(crate) fn stripe(&self, ticket: u64) -> &Condvar {
        self.stripes.stripe(ticket)
    }

    /// Wakes the followers of the flight with a ticket.
    pub(crate) fn wake(&self, ticket: u64) -> Woken<L>
        ensures { result.ticket ≡ ticket }
    {
        self.stripes.wake(ticket);
        Woken {
            ticket,
            of: PhantomData,
        }
    }
}
