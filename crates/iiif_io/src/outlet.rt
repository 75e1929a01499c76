//! The writer trait, for sockets, standard streams and memory.

ghost use Rattle.std.specs.Prelude.{◌≡◌, ◌<◌, ◌++◌, length, Some, IfOk, IsTrue, OnErr};
ghost use Rattle.std.specs.Io.{WritesAtMost};
ghost use Rattle.std.specs.Io.KnownBytes.{WriteAppends};

use crate::inlet::TRIES;
use crate::sockets::is_reset;
use std::io;
use std::io::{ErrorKind, IoSlice, Stderr, Stdout, Write};
use std::net::TcpStream;

/// A writer whose clauses tell which writes failed.
pub trait Outlet: Write {
    /// A write in the first state failed and left the second, or the client was found to be disconnected.
    ghost fails: { Self → Self → Type 0 };

    /// Writes some of the bytes. `Ok(0)` counts as a failure, unless there are no bytes to write.
    fn put(&mut self, bytes: &[u8]) -> io::Result<usize>
        ensures bound { WritesAtMost result bytes.now }
        ensures bytes { WriteAppends (Self.contents self.old) (Self.contents self.new) result bytes.now }
        ensures err { OnErr result (fails self.old self.new) }
        ensures none { IfOk result (λ n. n ≡ 0 → 0 < length bytes.now → fails self.old self.new) };

    /// Returns whether the client is known to have disconnected, which counts as a failed write. A device that can't tell returns false.
    fn is_gone(&self) -> bool
        ensures { IsTrue result → fails self.now self.now }
    {
        false
    }

    /// Writes some of the bytes of two texts, one after the other. `Ok(0)` counts as a failure, unless both are empty. By default the first
    /// one that isn't empty goes into one `put`.
    fn put_both(&mut self, first: &[u8], second: &[u8]) -> io::Result<usize>
        ensures bound { WritesAtMost result (first.now ++ second.now) }
        ensures bytes { WriteAppends (Self.contents self.old) (Self.contents self.new) result (first.now ++ second.now) }
        ensures err { OnErr result (fails self.old self.new) }
        ensures none { IfOk result (λ n. n ≡ 0 → 0 < length (first.now ++ second.now) → fails self.old self.new) }
    {
        if first.is_empty() {
            self.put(second)
        } else {
            self.put(first)
        }
    }
}

/// A vector, which takes all bytes at once. It fails only where its allocation does, and then stays as it was.
impl Outlet for Vec<u8> {
    ghost fails = { λ old new. new.items ≡ old.items };

    fn put(&mut self, bytes: &[u8]) -> io::Result<usize>
        ensures bound { WritesAtMost result bytes.now }
        ensures bytes { WriteAppends (Some self.old.items) (Some self.new.items) result bytes.now }
        ensures err { OnErr result (self.new.items ≡ self.old.items) }
        ensures none { IfOk result (λ n. n ≡ 0 → 0 < length bytes.now → self.new.items ≡ self.old.items) }
        ensures whole { IfOk result (λ n. n ≡ length bytes.now) }
    {
        self.extend_from_slice(bytes)?;
        Ok(bytes.len())
    }
}

/// A socket, of whose output nothing is known. Interrupted writes are retried, and two texts go out in one system call.
impl Outlet for TcpStream {
    ghost fails = { λ _ _. Unit {0} };

    fn put(&mut self, bytes: &[u8]) -> io::Result<usize> {
        for _ in 0..TRIES {
            match self.write(bytes) {
                Err(error) if error.kind() == ErrorKind::Interrupted => {}
                other => return other,
            }
        }
        self.write(bytes)
    }

    fn is_gone(&self) -> bool {
        is_reset(self)
    }

    fn put_both(&mut self, first: &[u8], second: &[u8]) -> io::Result<usize> {
        let parts = [IoSlice::new(first), IoSlice::new(second)];
        for _ in 0..TRIES {
            match TcpStream::write_vectored(self, &parts) {
                Err(error) if error.kind() == ErrorKind::Interrupted => {}
                other => return other,
            }
        }
        TcpStream::write_vectored(self, &parts)
    }
}

/// Standard output, of whose content nothing is known. Interrupted writes are retried.
impl Outlet for Stdout {
    ghost fails = { λ _ _. Unit {0} };

    fn put(&mut self, bytes: &[u8]) -> io::Result<usize> {
        for _ in 0..TRIES {
            match self.write(bytes) {
                Err(error) if error.kind() == ErrorKind::Interrupted => {}
                other => return other,
            }
        }
        self.write(bytes)
    }
}

/// Standard error, of whose content nothing is known. Interrupted writes are retried.
impl Outlet for Stderr {
    ghost fails = { λ _ _. Unit {0} };

    fn put(&mut self, bytes: &[u8]) -> io::Result<usize> {
        for _ in 0..TRIES {
            match self.write(bytes) {
                Err(error) if error.kind() == ErrorKind::Interrupted => {}
                other => return other,
            }
        }
        self.write(bytes)
    }
}
