//! Memory that the next answer is likely to be made in.

use std::alloc::Global;

/// The bytes that are written at once. A larger piece would be written past the processor's caches.
const PIECE: [u8; 1024] = [0; 1024];

/// The most bytes: a part of a processor's cache.
const MOST: usize = 262_144;

/// Memory that is written to while a viewer takes its answer, and given back before the next is made. The allocator hands out again what
/// it was given back last: so the next answer of that size is made in memory that stands in the processor's cache.
#[derive(Drop)]
pub struct PrimedMemory {
    bytes: Vec<u8>,
}

impl PrimedMemory {
    /// Makes primed memory of no bytes.
    pub fn new(alloc: Global) -> PrimedMemory {
        PrimedMemory {
            bytes: Vec::new(alloc),
        }
    }

    /// Takes so many bytes, at most 256 KiB, and writes to the whole pieces of them. Where memory is refused there is nothing to write to.
    pub(crate) fn take(&mut self, count: usize) {
        let count = count.min(MOST);
        if self.bytes.reserve_exact(count).is_err() {
            return;
        }
        for _ in 0..count / PIECE.len() {
            if self.bytes.extend_from_slice(&PIECE).is_err() {
                return;
            }
        }
    }

    /// Gives back what was taken.
    pub(crate) fn give_back(&mut self) {
        self.bytes.clear();
        self.bytes.shrink_to_fit();
    }
}
