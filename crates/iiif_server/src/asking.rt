//! Parts of a request that private functions hand on.

use iiif_answers::Part;
use iiif_answers::accepted::Accepted;
use iiif_assemble::Job;
use iiif_source::Source;
use iiif_tile_group::ImageEntry;
use std::alloc::Global;

/// Runtime and allocator of an answer.
#[derive(Drop)]
pub(crate) struct Host<'a, R> {
    /// The runtime.
    pub rt: &'a R,
    /// The allocator.
    pub alloc: Global,
}

/// An accepted request of an image, and the part of its answer that is sent.
#[derive(Drop)]
pub(crate) struct Asked<'a, R, S: Source<R>> {
    pub part: Part,
    pub entry: &'a ImageEntry<R, S>,
    pub accepted: &'a Accepted,
}

/// The job of an accepted request, and the head of its answer.
#[derive(Drop)]
pub(crate) struct Planned<'a> {
    pub job: &'a Job,
    pub head: &'a [u8],
}
