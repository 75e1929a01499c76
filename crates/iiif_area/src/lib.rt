//! Area averaging: weights, sums over the parts of a region, and the averages that become scaled samples.
#![tactic(auto)]

mod adding;
pub mod averages;
mod cell;
mod column_sums;
mod columns;
pub mod laws;
mod merging;
mod narrow;
pub mod places;
mod rows;
pub mod sums;
pub mod weights;
mod wide;

pub use averages::Averager;
pub use places::{corner_of, is_inside, meets, part_of, places_of};
pub use sums::Sums;
pub use weights::weight;
