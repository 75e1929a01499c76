//! A device that turns bits.

ghost use Rattle.std.specs.Prelude.{◌≡◌, ℕ, List, false};
ghost use Rattle.iiif_witnesses.specs.Flips.{flipped, IsReadOf};

use iiif_source::{ReadFault, Source};
use std::marker::Model;
use std::sync::atomic::{AtomicU64, Ordering};

/// Bytes in memory, of which every second read, the first among them, has a bit turned. It reports no fault, so it doesn't keep its bytes.
#[derive(Drop)]
pub struct Flipping {
    bytes: Vec<u8>,
    reads: AtomicU64,
}

impl Model for Flipping {
    ghost Value = { List ℕ };

    ghost view = { λ s. s.bytes.items };
}

impl Flipping {
    /// Makes a device of these bytes.
    pub fn new(bytes: Vec<u8>) -> Flipping
        ensures { result ≡ bytes.items }
    {
        Flipping {
            bytes,
            reads: AtomicU64::new(0),
        }
    }
}

/// Turns the lowest bit of the first byte.
fn flip(buffer: &mut [u8])
    ensures { buffer.new ≡ flipped buffer.old }
{
    if buffer.len() > 0 {
        buffer[0] ^= 1;
    }
}

impl<R> Source<R> for Flipping {
    ghost bytes = { λ s. s };

    ghost keeps = { λ _. ⊥ };

    ghost gave = { λ _ _. false };

    ghost reads = { λ s. IsReadOf s };

    fn len(&self) -> u64 {
        let bytes = self.bytes.as_slice();
        bytes.len() as u64
    }

    fn read_at(&self, _rt: &R, at: u64, buffer: &mut [u8]) -> Result<(), ReadFault> {
        let bytes = self.bytes.as_slice();
        let start = at as usize;
        let end = start + buffer.len();
        buffer.copy_from_slice(&bytes[start..end]);
        if self.reads.fetch_add(1, Ordering::SeqCst) % 2 == 0 {
            flip(buffer);
        }
        Ok(())
    }
}
