//! Tables of kept values and open flights, as plain data: what a cache and its flights are to every crate above. The definitions
//! stand in `specs/`, and `laws` has what they keep.
#![tactic(auto)]

pub use table::{Book, Class, Place};

pub mod laws;
pub mod table;
