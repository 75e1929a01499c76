//! Images that are sent band by band, as they are made.
#![tactic(auto)]

pub mod admission;
pub mod delivery;
mod rows;
pub mod sending;
mod tile;

pub use admission::Admission;
pub use delivery::{Delivered, Stopped, send_image};
pub use sending::Sending;
