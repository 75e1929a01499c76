//! Reads TIFF files: the layout of an image in its file, and rectangles of its samples.
//!
//! It reads the image of the first directory of a file in baseline TIFF 6.0, little-endian or big-endian, in strips or in tiles, without
//! compression: gray of 1, 8 or 16 bits, or RGB of 8 or 16 bits a sample, in one plane. Any other file is refused, by the field at fault.
//! An image has sides of at most 1,000,000 pixels, 2^32 pixels in all, and 2^20 tiles of at most 2^20 pixels a side.
#![tactic(auto)]

mod byte_order;
mod checks;
mod directory;
mod entry;
mod fault;
mod field_type;
mod fields;
mod format;
mod grid;
mod image;
mod layout;
mod part;
mod pieces;
mod rows;
mod samples;
mod up_to_three;

pub use fault::{LoadFault, OpenFault};
pub use layout::{Layout, open};
