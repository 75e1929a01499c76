//! Single flight: callers that ask for one key at a time share one load. A group's table has its cache, the open flights and the
//! counts. It is plain data behind the group's lock, and its calls take no lock and wait for nobody: a follower that sleeps alone does,
//! which is handed the lock.
#![tactic(auto)]

pub use agreeing::who_joins_learns_what_lands;
pub use checked::{Again, CheckedLead};
pub use completion::Completion;
pub use entered::{Entered, Lookup};
pub use flight_condvar::{FlightCondvar, Woken};
pub use follower::{Follower, Look, Sleeper};
pub use full_ledger::FullLedger;
pub use group_state::GroupState;
// The words of a table's calls, from the crates that define them.
pub use iiif_outcome::{Flight, Landed, Lead, Receipt};
pub use iiif_tables::{Book, Class, Place};
pub use pass::Pass;
pub use striped_condvar::StripedCondvar;
pub use table::{Kept, Limit, Table};

pub mod agreeing;
pub mod checked;
pub mod completion;
pub mod entered;
pub mod flight_condvar;
pub mod flights_of_class;
pub mod follower;
pub mod full_ledger;
pub mod group_state;
mod keeping;
pub mod open_flights;
pub mod pass;
pub mod striped_condvar;
pub mod table;
