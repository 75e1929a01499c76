//! Lists of images as text, a line `NAME=FILE` each: what they name, or the first line that is at fault; and folders, whose files name
//! images.
#![tactic(auto)]

pub use fault::{Fault, FolderFault, ListFault};
pub use folder::{FolderImage, name_of};
pub use list::ImageList;

pub mod fault;
pub mod folder;
pub mod list;
