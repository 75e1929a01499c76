//! Flights: one load for all callers that ask for its key at a time. The outcome stands in a cell that is set once. Callers that
//! joined the flight read it there, and a cache keeps the value with the flight's receipt.
//!
//! Each handle has the ledger `L` of its table in its type. A lead is opened against the book of that ledger, which the table alone
//! holds, and each other handle comes of a lead: so no handle of one table is taken for one of another.
#![tactic(auto)]

pub use apart::learn_apart;
pub use entry::Entry;
pub use flight::Flight;
pub use landed::Landed;
pub use lead::{Ended, Lead};
pub use receipt::Receipt;

pub mod apart;
pub mod entry;
pub mod flight;
pub mod landed;
pub mod lead;
pub mod receipt;
