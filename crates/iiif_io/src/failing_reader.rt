//! A fake reader.

ghost use Rattle.std.specs.Prelude.{Some};

use crate::Inlet;
use std::io;
use std::io::{ErrorKind, Read};

/// A reader for tests: it gives known bytes, at most `piece` of them a read, and fails once its reads are used up.
#[derive(Drop)]
pub struct FailingReader<'a> {
    /// The bytes that are still to be read.
    pub left: &'a [u8],
    /// The most bytes that one read gives, at least 1.
    pub piece: usize,
    /// How many more reads succeed.
    pub reads: usize,
}

impl<'a> Read for FailingReader<'a> {
    ghost remaining = { λ r. Some r.left.now };

    fn read(&mut self, buffer: &mut [u8]) -> io::Result<usize> {
        if self.reads == 0 || self.piece == 0 {
            return Err(io::Error::from(ErrorKind::ConnectionReset));
        }
        self.reads -= 1;
        let count = self.piece.min(buffer.len()).min(self.left.len());
        let (front, back) = self.left.split_at(count);
        buffer[..count].copy_from_slice(front);
        self.left = back;
        Ok(count)
    }
}

impl<'a> Inlet for FailingReader<'a> {
    ghost fails = { λ _ _. Unit {0} };

    fn pull(&mut self, buffer: &mut [u8]) -> io::Result<usize> {
        self.read(buffer)
    }
}
