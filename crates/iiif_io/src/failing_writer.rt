//! A fake writer.

ghost use Rattle.std.specs.Prelude.{Some};

use crate::Outlet;
use std::io;
use std::io::{ErrorKind, Write};

/// A writer for tests: it takes at most `piece` bytes a write, and fails once its room is used up.
#[derive(Drop)]
pub struct FailingWriter {
    /// The bytes that were written.
    pub taken: Vec<u8>,
    /// How many more bytes fit.
    pub room: usize,
    /// The most bytes that one write takes.
    pub piece: usize,
}

impl Write for FailingWriter {
    ghost contents = { λ w. Some w.taken.items };

    fn write(&mut self, bytes: &[u8]) -> io::Result<usize> {
        let count = self.room.min(self.piece).min(bytes.len());
        if count == 0 {
            return Err(io::Error::from(ErrorKind::BrokenPipe));
        }
        let (front, _) = bytes.split_at(count);
        self.taken.extend_from_slice(front)?;
        self.room -= count;
        Ok(count)
    }

    fn flush(&mut self) -> io::Result<()> {
        Ok(())
    }
}

impl Outlet for FailingWriter {
    ghost fails = { λ _ _. Unit {0} };

    fn put(&mut self, bytes: &[u8]) -> io::Result<usize> {
        self.write(bytes)
    }

    fn is_gone(&self) -> bool {
        self.room == 0
    }
}
