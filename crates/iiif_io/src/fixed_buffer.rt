//! A writer into memory that was allocated beforehand. Unlike a `Vec<u8>` it can't fail for lack of memory.

ghost use Rattle.std.specs.Prelude.{◌≡◌, ◌-◌, ℕ, ◌<◌, ◌≤◌, min, List, [], length, vec_len, vec_capacity, Some, Ok, IfOk, OnErr};
ghost use Rattle.std.specs.Io.{WritesAtMost};
ghost use Rattle.std.specs.Io.KnownBytes.{WriteAppends};
ghost use Rattle.iiif_io.specs.Sending.{IsFull};

use crate::Outlet;
use std::alloc::{AllocError, Global};
use std::io;
use std::io::Write;
use std::marker::Model;

/// A writer into a buffer of `ROOM` bytes, which never grows. It fails only where the buffer is full. Clauses see the bytes that were
/// written.
#[derive(Drop)]
pub struct FixedBuffer<const ROOM: usize> {
    bytes: Vec<u8>,
}

impl<const ROOM: usize> Model for FixedBuffer<ROOM> {
    ghost Value = { List ℕ };

    ghost view = { λ b. b.bytes.items };

    ghost invariant = { λ b. (vec_len b.bytes ≤ ROOM) × (ROOM ≤ vec_capacity b.bytes) };
}

impl<const ROOM: usize> FixedBuffer<ROOM> {
    /// Allocates the buffer, the only allocation that it ever makes.
    pub fn new(alloc: Global) -> Result<FixedBuffer<ROOM>, AllocError>
        ensures { IfOk result (λ buffer. buffer ≡ []) }
    {
        Ok(FixedBuffer {
            bytes: Vec::with_capacity(alloc, ROOM)?,
        })
    }

    /// Returns the bytes that were written.
    pub fn as_slice(&self) -> &[u8]
        ensures value { result.now ≡ self.now }
        ensures bound { length self.now ≤ ROOM }
    {
        self.bytes.as_slice()
    }
}

impl<const ROOM: usize> Write for FixedBuffer<ROOM> {
    ghost contents = { λ b. Some b };

    fn write(&mut self, bytes: &[u8]) -> io::Result<usize>
        ensures bound { WritesAtMost result bytes.now }
        ensures bytes { WriteAppends (Some self.old) (Some self.new) result bytes.now }
        ensures count { result ≡ Ok (min (ROOM - length self.old) (length bytes.now)) }
        ensures full { IfOk result (λ n. n ≡ 0 → 0 < length bytes.now → IsFull ROOM self.old self.new) }
    {
        let count = (ROOM - self.bytes.len()).min(bytes.len());
        let (front, _) = bytes.split_at(count);
        self.bytes.extend_from_slice(front)?;
        Ok(count)
    }

    fn flush(&mut self) -> io::Result<()> {
        Ok(())
    }
}

impl<const ROOM: usize> Outlet for FixedBuffer<ROOM> {
    ghost fails = { λ old new. IsFull ROOM old new };

    fn put(&mut self, bytes: &[u8]) -> io::Result<usize>
        ensures bound { WritesAtMost result bytes.now }
        ensures bytes { WriteAppends (Some self.old) (Some self.new) result bytes.now }
        ensures err { OnErr result (IsFull ROOM self.old self.new) }
        ensures none { IfOk result (λ n. n ≡ 0 → 0 < length bytes.now → IsFull ROOM self.old self.new) }
        ensures count { result ≡ Ok (min (ROOM - length self.old) (length bytes.now)) }
    {
        self.write(bytes)
    }
}
