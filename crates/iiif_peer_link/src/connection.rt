//! The connection of one ask of a link.

ghost use Rattle.std.specs.Prelude.{IsTrue};
ghost use Rattle.iiif_peer_link.specs.Honest.{Carries};

use crate::exchange::Exchange;
use crate::reaches::Reaches;
use crate::timed::Timed;
use crate::within::Within;
use iiif_io::Outlet;
use std::io;
use std::io::Write;
use std::time::Clock;

/// A connection to which an ask is written, and of whose reply at most so many bytes are read, all within one limit of time.
#[derive(Drop)]
pub struct Connection<'a, R: Reaches + Clock> {
    pub out: Timed<'a, R>,
    pub most: usize,
}

impl<'a, R: Reaches + Clock> Write for Connection<'a, R> {
    ghost contents = { λ c. R.written c.out.line };

    fn write(&mut self, bytes: &[u8]) -> io::Result<usize> {
        self.out.write(bytes)
    }

    fn flush(&mut self) -> io::Result<()> {
        self.out.flush()
    }
}

/// Nothing is known but that a write failed.
impl<'a, R: Reaches + Clock> Outlet for Connection<'a, R> {
    ghost fails = { λ _ _. Unit {0} };

    fn put(&mut self, bytes: &[u8]) -> io::Result<usize> {
        self.write(bytes)
    }
}

/// An exchange by the runtime's word: it says which bytes the node answers to those that were written.
impl<'a, R: Reaches + Clock> Exchange<Within<Timed<'a, R>>> for Connection<'a, R> {
    ghost turned = { λ c reader. IsTrue R.keeps → Carries R.answers (R.written c.out.line) (R.unread reader.inner.line) };

    fn turn(self) -> Within<Timed<'a, R>> {
        let Connection {
            out: Timed { line, deadline },
            most,
        } = self;
        let line = deadline.runtime().turn(line);
        Within {
            inner: Timed { line, deadline },
            left: most,
        }
    }
}
