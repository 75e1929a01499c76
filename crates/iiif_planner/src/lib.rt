//! Plans: the tiles of an image, or the blocks of sums, that the answer to a request is made of; and the bands that it is cut into.
#![tactic(auto)]

pub use banding::{Band, band_at, band_count, band_in, bands};
pub use planning::plan;
pub use plans::Plan;

pub mod banding;
pub mod laws;
mod levels;
pub mod planning;
pub mod plans;
mod squares;
