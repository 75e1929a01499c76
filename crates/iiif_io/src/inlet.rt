//! The reader trait, for sockets and for memory.

ghost use Rattle.std.specs.Prelude.{◌≡◌, ℕ, List, length, take, drop, ◌++◌, min, Some, Ok, IfOk, OnErr};
ghost use Rattle.std.specs.Io.{ReadsAtMost};
ghost use Rattle.std.specs.Io.KnownBytes.{ReadConsumes};

use std::io;
use std::io::{ErrorKind, Read};
use std::net::TcpStream;

/// How many times a system call that a signal interrupts is retried.
pub const TRIES: u32 = 1000;

/// A reader whose clauses tell which reads failed and what each gave.
pub trait Inlet: Read {
    /// A read in the first state failed and left the second.
    ghost fails: { Self → Self → Type 0 };

    /// One read in the first state gave these bytes and left the second. Generic code can show it only of a read that it made.
    ghost gave: { Self → List ℕ → Self → Type 0 } = { λ _ _ _. Unit {0} };

    /// Reads some bytes into the buffer. `Ok(0)` means the end of the input, or an empty buffer.
    fn pull(&mut self, buffer: &mut [u8]) -> io::Result<usize>
        ensures bound { ReadsAtMost result buffer.new }
        ensures bytes { ReadConsumes (Self.remaining self.old) (Self.remaining self.new) result buffer.new }
        ensures err { OnErr result (fails self.old self.new) }
        ensures gave { IfOk result (λ n. gave self.old (take n buffer.new) self.new) };
}

/// A socket, of whose input nothing is known. Interrupted reads are retried.
impl Inlet for TcpStream {
    ghost fails = { λ _ _. Unit {0} };

    fn pull(&mut self, buffer: &mut [u8]) -> io::Result<usize> {
        for _ in 0..TRIES {
            match self.read(buffer) {
                Err(error) if error.kind() == ErrorKind::Interrupted => {}
                other => return other,
            }
        }
        self.read(buffer)
    }
}

/// A slice, which gives its bytes from the front, as many as the buffer takes. It never fails.
impl<'a> Inlet for &'a [u8] {
    ghost fails = { λ _ _. ⊥ };

    fn pull(&mut self, buffer: &mut [u8]) -> io::Result<usize>
        ensures bound { ReadsAtMost result buffer.new }
        ensures bytes { ReadConsumes (Some self.old.now) (Some self.new.now) result buffer.new }
        ensures err { OnErr result ⊥ }
        ensures gave { IfOk result (λ _. Unit {0}) }
        ensures count { result ≡ Ok (min (length self.old.now) (length buffer.old)) }
        ensures copied { IfOk result (λ n. buffer.new ≡ take n self.old.now ++ drop n buffer.old) }
        ensures rest { IfOk result (λ n. self.new.now ≡ drop n self.old.now) }
    {
        self.read(buffer)
    }
}
