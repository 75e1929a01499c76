//! Circuit breaker of a link to another node, which leaves a node alone that fails, and counts of how its asks ended. Moments are
//! milliseconds from any beginning, handed in.
#![tactic(auto)]

pub use breaker::{Breaker, State};
pub use change::Change;
pub use counts::Asks;
pub use durations::Durations;
pub use outcome::Outcome;
pub use record::LinkRecord;

pub mod breaker;
pub mod change;
pub mod counts;
pub mod durations;
pub mod laws;
pub mod outcome;
pub mod record;
