//! Images made of their plans, band by band, by several workers.
#![tactic(auto)]

pub mod band;
pub mod context;
mod finishing;
mod growing;
mod idle;
pub mod items;
pub mod job;
pub mod kept;
pub mod laws;
pub mod lone;
mod merging;
pub mod opened;
mod parts;
mod pasting;
pub mod pool;

pub use band::{assemble, assemble_band};
pub use context::{ItemGroups, RenderContext};
pub use items::Items;
pub use job::{ImageRef, Job};
pub use kept::{KeptSum, WithKept, asks_again, count_kept, keep_band};
pub use lone::lone_tile;
pub use opened::Opened;
pub use pool::gather;
