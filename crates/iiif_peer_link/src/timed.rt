//! A connection with a limit of time for all that is read and written.

ghost use Rattle.std.specs.Prelude.{◌≡◌};

use crate::reaches::Reaches;
use iiif_io::{Inlet, Outlet};
use std::io;
use std::io::{ErrorKind, Read, Write};
use std::time::{Clock, Duration, Instant};

/// When something is to have ended.
#[derive(Drop)]
pub struct Deadline<'a, R: Clock> {
    rt: &'a R,
    start: Instant,
    limit: Duration,
}

impl<'a, R: Clock> Deadline<'a, R> {
    /// So much time from now on.
    pub fn new(rt: &'a R, limit: Duration) -> io::Result<Deadline<'a, R>> {
        Ok(Deadline {
            rt,
            start: Instant::now(rt)?,
            limit,
        })
    }

    /// The runtime whose clock it goes by.
    pub fn runtime(&self) -> &'a R
        ensures { result ≡ self.now.rt }
    {
        self.rt
    }

    /// Returns a deadline that ends with this one.
    pub fn again(&self) -> Deadline<'a, R> {
        Deadline {
            rt: self.rt,
            start: self.start,
            limit: self.limit,
        }
    }

    /// The microseconds since its beginning, 0 where there is no clock.
    pub fn micros(&self) -> u64 {
        match self.start.elapsed(self.rt) {
            Ok(passed) => u64::try_from(passed.as_micros()).unwrap_or(u64::MAX),
            Err(_) => 0,
        }
    }

    /// The time that is left, an error where none is.
    pub fn left(&self) -> io::Result<Duration> {
        match self.limit.checked_sub(self.start.elapsed(self.rt)?) {
            Some(left) if !left.is_zero() => Ok(left),
            _ => Err(io::Error::from(ErrorKind::TimedOut)),
        }
    }
}

/// A connection to a node, whose reads and writes fail once its time is up, however few bytes come at once.
#[derive(Drop)]
pub struct Timed<'a, R: Reaches + Clock> {
    pub line: R::Line,
    pub deadline: Deadline<'a, R>,
}

impl<'a, R: Reaches + Clock> Read for Timed<'a, R> {
    ghost remaining = { λ t. R.unread t.line };

    fn read(&mut self, buffer: &mut [u8]) -> io::Result<usize> {
        let left = self.deadline.left()?;
        self.deadline.rt.pull(&mut self.line, left, buffer)
    }
}

/// Nothing is known but that a read failed.
impl<'a, R: Reaches + Clock> Inlet for Timed<'a, R> {
    ghost fails = { λ _ _. Unit {0} };

    fn pull(&mut self, buffer: &mut [u8]) -> io::Result<usize> {
        self.read(buffer)
    }
}

impl<'a, R: Reaches + Clock> Write for Timed<'a, R> {
    ghost contents = { λ t. R.written t.line };

    fn write(&mut self, bytes: &[u8]) -> io::Result<usize> {
        let left = self.deadline.left()?;
        self.deadline.rt.put(&mut self.line, left, bytes)
    }

    fn flush(&mut self) -> io::Result<()> {
        Ok(())
    }
}

/// Nothing is known but that a write failed.
impl<'a, R: Reaches + Clock> Outlet for Timed<'a, R> {
    ghost fails = { λ _ _. Unit {0} };

    fn put(&mut self, bytes: &[u8]) -> io::Result<usize> {
        self.write(bytes)
    }
}
