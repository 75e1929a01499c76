//! The buffer of a connection.

ghost use Rattle.std.specs.Prelude.{◌≡◌, ◌+◌, ◌<◌, ◌≤◌, ◌++◌, ℕ, List, [], length, drop, slice_range, vec_len, IfOk, OnErr, MatchResult};
ghost use Rattle.std.specs.Io.KnownBytes.{Consumes, Keeps, IsAtEnd};

use iiif_io::Inlet;
use std::alloc::{AllocError, Global};
use std::io;
use std::marker::Model;

/// The size of the buffer in bytes, and so the most bytes that a head may have.
pub const BYTE_LIMIT: usize = 8192;

/// Bytes that were read and belong to no call yet: `bytes[start..end]`. The buffer never grows.
#[derive(Drop)]
pub struct Unread {
    bytes: Vec<u8>,
    start: usize,
    end: usize,
}

impl Model for Unread {
    ghost Value = { List ℕ };

    ghost view = { λ u. slice_range u.bytes.items u.start u.end };

    ghost invariant = { λ u. (u.start ≤ u.end) × (u.end ≤ 8192) × (vec_len u.bytes ≡ 8192) };
}

impl Unread {
    /// Allocates an empty buffer with room for the longest head.
    pub fn new(alloc: Global) -> Result<Unread, AllocError>
        ensures { IfOk result (λ unread. unread ≡ []) }
    {
        let mut bytes = Vec::with_capacity(alloc, BYTE_LIMIT)?;
        bytes.resize(BYTE_LIMIT, 0)?;
        Ok(Unread {
            bytes,
            start: 0,
            end: 0,
        })
    }

    /// Returns the bytes that belong to no call yet.
    pub fn as_slice(&self) -> &[u8]
        ensures value { result.now ≡ self.now }
        ensures bound { length self.now ≤ 8192 }
    {
        &self.bytes[self.start..self.end]
    }

    /// Drops the first bytes.
    pub fn consume(&mut self, count: usize)
        requires { count ≤ length self.old }
        ensures { self.new ≡ drop count self.old }
    {
        self.start += count;
    }

    /// Moves the bytes to the front and reads some more behind them. `Ok(0)` means the end of the input.
    pub fn fill<I: Inlet>(&mut self, reader: &mut I) -> io::Result<usize>
        requires { length self.old < 8192 }
        ensures came { IfOk result (λ count. (came : List ℕ) × (length came ≡ count) × (self.new ≡ self.old ++ came)
            × Consumes (I.remaining reader.old) (I.remaining reader.new) came × I.gave reader.old came reader.new) }
        ensures end { IfOk result (λ count. count ≡ 0 → IsAtEnd (I.remaining reader.new)) }
        ensures kept { OnErr result ((self.new ≡ self.old) × Keeps (I.remaining reader.old) (I.remaining reader.new)) }
        ensures failed { OnErr result (I.fails reader.old reader.new) }
    {
        self.bytes.copy_within(self.start..self.end, 0);
        self.end -= self.start;
        self.start = 0;
        let count = reader.pull(&mut self.bytes[self.end..])?;
        self.end += count;
        Ok(count)
    }
}
