//! An LRU cache of two lists with one limit in bytes: main for values that this node loaded, hot for values that came from peers. Each
//! list has its most recently used entry at its front. A cache isn't safe for concurrent access.
#![tactic(auto)]

pub use cache::{ByteCache, PutFault};
pub use evicted::Evicted;
pub use lists::Lists;

pub mod cache;
pub mod evicted;
pub mod lists;
mod recent;
