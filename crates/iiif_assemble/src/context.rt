//! Contexts in which images are made.

use std::alloc::Global;

/// The groups that answer for the items of a plan.
#[derive(Drop)]
pub struct ItemGroups<'a, A, B> {
    /// The group of tiles.
    pub tiles: &'a A,
    /// The group of sums.
    pub sums: &'a B,
}

/// Context in which images are made: the groups that answer for tiles and sums, and the runtime and allocator to ask them with.
#[derive(Drop)]
pub struct RenderContext<'a, A, B, R> {
    /// The runtime.
    pub rt: &'a R,
    /// The allocator of all that is made.
    pub alloc: Global,
    /// The group of tiles.
    pub tiles: &'a A,
    /// The group of sums.
    pub sums: &'a B,
}
