//! Links by which tiles and sums are asked for.

use iiif_keys::{SumKey, System, TileKey};
use iiif_sum_group::Link;

/// Link to another node for tiles and for sums. R is the runtime over which it asks.
pub trait Links<J: System, R>: Link<TileKey, J, R> + Link<SumKey, J, R> {}

impl<J: System, R, N: Link<TileKey, J, R> + Link<SumKey, J, R>> Links<J, R> for N {}
