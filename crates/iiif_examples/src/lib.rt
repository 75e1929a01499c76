//! Worked examples of the definitions, each with its numbers: a contract says what a definition comes to at values that were computed by
//! hand, and its proof is that both sides compute to one value. The functions do nothing.
#![tactic(auto)]

pub mod answers;
pub mod caches;
pub mod files;
pub mod keys;
pub mod pictures;
pub mod plans;
pub mod replies;
pub mod requests;
pub mod sizes;
pub mod wire;
pub mod words;
