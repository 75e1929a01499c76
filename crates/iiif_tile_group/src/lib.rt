//! The images that a node has, by their names, and their tiles: read from the images' sources, and shared by all that ask.
#![tactic(auto)]

pub use catalogue::{AddFault, Catalogue};
pub use entry::ImageEntry;
// The ledger that counts the calls.
pub use iiif_group::TileCalls;
pub use images::Images;
pub use tiles::Tiles;

pub mod catalogue;
pub mod entry;
pub mod images;
pub mod tiles;
