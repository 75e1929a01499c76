//! Health checks of other nodes.

use std::alloc::Global;

/// Checks other nodes every so often while a node serves.
pub trait HealthChecker<R> {
    /// Checks each of them where that is due.
    fn check(&self, rt: &R, alloc: Global);
}
