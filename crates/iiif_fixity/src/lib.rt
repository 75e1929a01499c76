//! Fixity: files against lists of their SHA-256 digests. [`hold`] takes a file into memory only if it has the digest that is listed,
//! [`compare`] compares one that isn't held, [`Manifest`] reads such a list, [`Bag`] looks paths up in it, and [`CheckedSource`] compares
//! each piece of a file that it reads with a digest.
#![tactic(auto)]

pub use bag::{Bag, folder_of};
pub use checked_source::CheckedSource;
pub use comparing::{compare, digest_whole};
pub use fault::{EntryFault, ManifestFault};
pub use holding::{HoldFault, hold};
pub use manifest::Manifest;
pub use pieces::PieceDigests;

pub mod bag;
pub mod checked_source;
pub mod comparing;
pub mod fault;
pub mod holding;
pub mod laws;
pub mod manifest;
pub mod pieces;
