//! Keys of tiles and of sums: the value that each means, the parts of which a sum is made, and the bytes of keys and values.
//!
//! `specs/Meaning` says the value of a key, `specs/Laws` that the parts of a sum make it, `specs/Bytes` how both are encoded.
#![tactic(auto)]

pub use cache_key::CacheKey;
pub use fault::{Fault, KeyFault};
pub use keys::{Parts, Shape, SumKey, TileKey};
pub use name::{Name, is_name};
pub use places::{LEVEL_LIMIT, side_of};
pub use splitting::parts;
pub use system::{PARTS, System};
pub use values::{SumVal, TileVal, add_sums};

pub mod cache_key;
pub mod fault;
mod fields;
pub mod keys;
pub mod laws;
pub mod name;
pub mod places;
pub mod splitting;
mod sum_key;
mod sum_val_bytes;
pub mod system;
mod tile_key;
mod tile_val_bytes;
pub mod values;
