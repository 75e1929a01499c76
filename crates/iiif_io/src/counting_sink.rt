//! A writer that counts.

ghost use Rattle.std.specs.Prelude.{◌≡◌, ◌+◌, ◌<◌, length, None, Ok, IfOk, OnErr};
ghost use Rattle.std.specs.Io.{WritesAtMost};
ghost use Rattle.std.specs.Io.KnownBytes.{WriteAppends};
ghost use Rattle.iiif_io.specs.Counting.{capped};

use crate::Outlet;
use std::io;
use std::io::Write;

/// A writer that counts bytes and keeps none. It never fails.
#[derive(Clone, Copy, Drop, Default, PartialEq, Eq)]
pub struct CountingSink {
    /// How many bytes were written; saturates at `u64::MAX`.
    pub written: u64,
}

impl Write for CountingSink {
    fn write(&mut self, bytes: &[u8]) -> io::Result<usize>
        ensures bound { WritesAtMost result bytes.now }
        ensures bytes { WriteAppends None None result bytes.now }
        ensures whole { result ≡ Ok (length bytes.now) }
        ensures written { self.new.written ≡ capped (self.old.written + length bytes.now) }
    {
        self.written = self.written.saturating_add(bytes.len() as u64);
        Ok(bytes.len())
    }

    fn flush(&mut self) -> io::Result<()> {
        Ok(())
    }
}

impl Outlet for CountingSink {
    ghost fails = { λ _ _. ⊥ };

    fn put(&mut self, bytes: &[u8]) -> io::Result<usize>
        ensures bound { WritesAtMost result bytes.now }
        ensures bytes { WriteAppends None None result bytes.now }
        ensures err { OnErr result ⊥ }
        ensures none { IfOk result (λ n. n ≡ 0 → 0 < length bytes.now → ⊥) }
        ensures whole { result ≡ Ok (length bytes.now) }
        ensures written { self.new.written ≡ capped (self.old.written + length bytes.now) }
    {
        self.write(bytes)
    }
}
