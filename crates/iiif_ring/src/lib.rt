//! Which of some nodes owns a key: consistent hashing on a ring of 2^64 places.
#![tactic(auto)]

pub use fault::RingFault;
pub use ring::Ring;

pub mod fault;
mod hash;
pub mod ring;
