//! Generations of a node, of which one after the other serves.

use std::io;
use std::sync::atomic::{AtomicU64, Ordering};
use std::time::{Clock, Duration, Instant};

/// Time that connections have for their next request once the node drains, in milliseconds.
const GRACE: u64 = 1_000;

/// The number of the generation that serves, and the time at which idle connections are closed.
#[derive(Drop)]
pub struct Generations {
    start: Instant,
    current: AtomicU64,
    /// Milliseconds since the start; the greatest number where connections stay.
    closing: AtomicU64,
}

impl Generations {
    /// Makes the generations of a node, of which none serves yet.
    pub fn new<R: Clock>(rt: &R) -> io::Result<Generations> {
        Ok(Generations {
            start: Instant::now(rt)?,
            current: AtomicU64::new(0),
            closing: AtomicU64::new(u64::MAX),
        })
    }

    /// Returns the number of the generation that serves, 0 before the first.
    pub fn current(&self) -> u64 {
        self.current.load(Ordering::SeqCst)
    }

    /// Lets another generation serve from now on.
    pub fn begin(&self, number: u64) {
        self.current.store(number, Ordering::SeqCst);
    }

    /// Returns the milliseconds since the start.
    pub fn now<R: Clock>(&self, rt: &R) -> io::Result<u64> {
        let millis = self.start.elapsed(rt)?.as_millis();
        Ok(u64::try_from(millis).unwrap_or(u64::MAX))
    }

    /// Closes connections between two requests from a second later on. Where the clock fails, at once.
    pub fn drain<R: Clock>(&self, rt: &R) {
        let closing = match self.now(rt) {
            Ok(now) => now.saturating_add(GRACE),
            Err(_) => 0,
        };
        self.closing.store(closing, Ordering::SeqCst);
    }

    /// Returns whether the listeners are to take no more connections.
    pub fn is_draining(&self) -> bool {
        self.closing.load(Ordering::SeqCst) != u64::MAX
    }

    /// Returns the time that a connection may still wait for a request. None where that isn't bounded.
    pub fn left<R: Clock>(&self, rt: &R) -> io::Result<Option<Duration>> {
        if !self.is_draining() {
            return Ok(None);
        }
        let closing = self.closing.load(Ordering::SeqCst);
        let left = closing.saturating_sub(self.now(rt)?);
        Ok(Some(Duration::from_millis(left)))
    }
}

/// One generation among all, as its connections have it.
#[derive(Clone, Copy)]
pub struct Generation<'a> {
    pub all: &'a Generations,
    pub number: u64,
}

impl<'a> Generation<'a> {
    /// Returns whether another one serves.
    pub fn is_over(&self) -> bool {
        self.all.current() != self.number
    }
}
