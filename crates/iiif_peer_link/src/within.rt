//! A reader of which no more than so many bytes are read.

ghost use Rattle.std.specs.Prelude.{◌≡◌, ◌+◌, IfOk, OnErr};
ghost use Rattle.std.specs.Io.{ReadsAtMost};
ghost use Rattle.std.specs.Io.KnownBytes.{ReadConsumes};

use iiif_io::Inlet;
use std::io;
use std::io::{ErrorKind, Read};

/// A reader that fails where more is read than `left` bytes.
#[derive(Drop)]
pub struct Within<I: Inlet> {
    pub inner: I,
    /// How many more bytes are read at most.
    pub left: usize,
}

impl<I: Inlet> Read for Within<I> {
    ghost remaining = { λ w. I.remaining w.inner };

    fn read(&mut self, buffer: &mut [u8]) -> io::Result<usize>
        ensures bound { ReadsAtMost result buffer.new }
        ensures bytes { ReadConsumes (I.remaining self.old.inner) (I.remaining self.new.inner) result buffer.new }
        ensures counted { IfOk result (λ n. n + self.new.left ≡ self.old.left) }
    {
        let most = self.left.min(buffer.len());
        if most == 0 && !buffer.is_empty() {
            return Err(io::Error::from(ErrorKind::InvalidData));
        }
        let count = self.inner.pull(&mut buffer[..most])?;
        self.left -= count;
        Ok(count)
    }
}

/// Nothing is known but that a read failed, or that there was more.
impl<I: Inlet> Inlet for Within<I> {
    ghost fails = { λ _ _. Unit {0} };

    fn pull(&mut self, buffer: &mut [u8]) -> io::Result<usize>
        ensures bound { ReadsAtMost result buffer.new }
        ensures bytes { ReadConsumes (I.remaining self.old.inner) (I.remaining self.new.inner) result buffer.new }
        ensures err { OnErr result (Unit {0}) }
        ensures gave { IfOk result (λ _. Unit {0}) }
        ensures counted { IfOk result (λ n. n + self.new.left ≡ self.old.left) }
    {
        self.read(buffer)
    }
}
