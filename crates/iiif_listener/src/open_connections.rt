//! How many connections are open at once, as their readers see it.

use std::sync::atomic::{AtomicU64, Ordering};

/// A count of the connections that are open.
#[derive(Drop)]
pub struct OpenConnections {
    open: AtomicU64,
}

impl OpenConnections {
    /// Makes a count of 0.
    pub fn new() -> OpenConnections {
        OpenConnections {
            open: AtomicU64::new(0),
        }
    }

    /// Counts a connection in.
    pub fn enter(&self) {
        self.open.fetch_add(1, Ordering::SeqCst);
    }

    /// Counts a connection out.
    pub fn leave(&self) {
        self.open.fetch_sub(1, Ordering::SeqCst);
    }

    /// Returns whether exactly one is open.
    pub fn is_alone(&self) -> bool {
        self.open.load(Ordering::SeqCst) == 1
    }
}
