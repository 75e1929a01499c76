//! Systems in which each premise of a group's main clauses holds: two nodes of one process over one image in memory, one of which asks the
//! other. `honest` and `stable` are true there, so what [`ask_tile`] and [`ask_sums`] promise has no premise left. And items of
//! which it is fixed which fail, so that the first fault of [`gather_flagged`] says which. And a device that turns bits, over which a
//! checked source keeps its premise.
#![tactic(auto)]

pub use by_two::{get_sums_by_two, get_tile_by_two};
pub use checked::{check_flipping, read_four};
pub use flags::{Flags, gather_flagged};
pub use flipping::Flipping;
pub use near::NearLink;
pub use other::OtherLink;
pub use pair::{Answer, PairFault, ask_sums, ask_tile};
pub use served::{ServedByTwo, SharedImage, serve_one_by_two};

pub mod by_two;
pub mod checked;
pub mod flags;
pub mod flipping;
pub mod near;
mod nodes;
pub mod other;
pub mod pair;
pub mod served;
