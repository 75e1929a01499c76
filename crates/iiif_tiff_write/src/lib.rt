//! Writes pictures as TIFF 6.0 files without compression: a head, and then one strip of all rows from the top.
#![tactic(auto)]

pub use directory::head;
pub use head_bytes::Head;
pub use kind::OutKind;
pub use layout::{fits, total_len};
pub use rows::{byte_rows, put_rows};

mod directory;
mod head_bytes;
pub mod kind;
pub mod laws;
mod layout;
mod rows;
