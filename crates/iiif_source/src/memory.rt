//! Bytes in memory as a source.

ghost use Rattle.std.specs.Prelude.{◌≡◌, ℕ, List, drop, false, length, take};

use crate::{ReadFault, Source};
use std::marker::Model;

/// Bytes in memory. A read never fails: no fault is this device's.
#[derive(Drop)]
pub struct MemSource {
    bytes: Vec<u8>,
}

impl Model for MemSource {
    ghost Value = { List ℕ };

    ghost view = { λ s. s.bytes.items };
}

impl MemSource {
    /// Makes a source of these bytes.
    pub fn new(bytes: Vec<u8>) -> MemSource
        ensures { result ≡ bytes.items }
    {
        MemSource { bytes }
    }
}

impl<R> Source<R> for MemSource {
    ghost bytes = { λ s. s };

    ghost keeps = { λ _. Unit {0} };

    ghost gave = { λ _ _. false };

    ghost reads = { λ s at given. given ≡ take (length given) (drop at s) };

    fn len(&self) -> u64 {
        let bytes = self.bytes.as_slice();
        bytes.len() as u64
    }

    fn read_at(&self, _rt: &R, at: u64, buffer: &mut [u8]) -> Result<(), ReadFault> {
        let bytes = self.bytes.as_slice();
        let start = at as usize;
        let end = start + buffer.len();
        buffer.copy_from_slice(&bytes[start..end]);
        Ok(())
    }
}
