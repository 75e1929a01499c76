//! Room of the caches of a node.

ghost use Rattle.std.specs.Prelude.{◌≡◌, ◌<◌, ◌^◌};

use std::num::NonZeroUsize;

/// How much each of a node's two caches, of tiles and of sums, has room for.
#[derive(Drop)]
pub struct Room {
    /// The most bytes that keys and values take together.
    pub bytes: u64,
    /// The most entries of each of its two lists: of values that this node made, and of values that came from others.
    pub entries: NonZeroUsize,
    pub ghost within: { bytes < 2 ^ 63 },
}

impl Room {
    /// Returns an equal room, for another cache.
    pub fn again(&self) -> Room
        ensures { result ≡ self.now }
    {
        Room {
            bytes: self.bytes,
            entries: self.entries,
        }
    }
}
