//! Runtime, allocator and watch of a connection.

use std::alloc::Global;

/// Runtime, allocator and watch of a connection.
#[derive(Drop)]
pub struct Serving<'a, 'w, R, V> {
    /// The runtime.
    pub rt: &'a R,
    /// The allocator.
    pub alloc: Global,
    /// Told of each answer.
    pub watch: &'w V,
}
