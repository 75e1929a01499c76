//! The groups of a node, as images are made of their values.
#![tactic(auto)]

pub use items::GroupItems;
pub use job_queue::{JobQueue, Queued};

pub mod items;
pub mod job_queue;
pub mod laws;
mod queue_state;
