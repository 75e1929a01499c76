//! Sample buffers of 8 or 16 bits: owned, and borrowed.

ghost use Rattle.std.specs.Prelude.{◌≡◌, ◌+◌, ◌<◌, ◌≤◌, ◌^◌, ◌++◌, [], All, IfOk, OnOk, length, take, drop, replicate, slice_index};
ghost use Rattle.std.specs.Prelude.{slice_set};
ghost use Rattle.iiif_pixel.specs.Geometry.{top_of};
ghost use Rattle.iiif_pixel.specs.Depths.{values_of, depth_of, capacity_of, span_values, span_depth};

use crate::geometry::Depth;
use std::alloc::{AllocError, Global};

/// A sample buffer: one byte a sample at 8 bits, two at 16.
#[derive(Drop)]
pub enum Samples {
    Eight(Vec<u8>),
    Sixteen(Vec<u16>),
}

/// A run of samples, borrowed from a buffer.
#[derive(Clone, Copy, Debug, PartialEq)]
pub enum Span<'a> {
    Eight(&'a [u8]),
    Sixteen(&'a [u16]),
}

impl Samples {
    /// Allocates `count` zeros.
    pub(crate) fn zeros(alloc: Global, depth: Depth, count: usize) -> Result<Samples, AllocError>
        ensures values { IfOk result (λ s. values_of s ≡ replicate count 0) }
        ensures depth { IfOk result (λ s. depth_of s ≡ depth) }
    {
        Ok(match depth {
            Depth::Eight => Samples::Eight(vec![in alloc; 0u8; count]?),
            Depth::Sixteen => Samples::Sixteen(vec![in alloc; 0u16; count]?),
        })
    }

    /// Allocates an empty buffer with room for `count` samples.
    pub fn with_capacity(alloc: Global, depth: Depth, count: usize) -> Result<Samples, AllocError>
        ensures values { IfOk result (λ s. values_of s ≡ []) }
        ensures depth { IfOk result (λ s. depth_of s ≡ depth) }
        ensures capacity { IfOk result (λ s. capacity_of s ≡ count) }
    {
        Ok(match depth {
            Depth::Eight => Samples::Eight(Vec::with_capacity(alloc, count)?),
            Depth::Sixteen => Samples::Sixteen(Vec::with_capacity(alloc, count)?),
        })
    }

    /// Returns the bits per sample.
    pub fn depth(&self) -> Depth
        ensures { result ≡ depth_of self.now }
    {
        match self {
            Samples::Eight(_) => Depth::Eight,
            Samples::Sixteen(_) => Depth::Sixteen,
        }
    }

    /// Returns the allocator that the samples came from.
    pub(crate) fn allocator(&self) -> Global {
        match self {
            Samples::Eight(samples) => *samples.allocator(),
            Samples::Sixteen(samples) => *samples.allocator(),
        }
    }

    /// Borrows all samples. None is above the depth's greatest.
    pub fn as_span(&self) -> Span<'_>
        ensures values { span_values result ≡ values_of self.now }
        ensures depth { span_depth result ≡ depth_of self.now }
        ensures bound { All (λ v. v ≤ top_of (depth_of self.now)) (values_of self.now) }
    {
        match self {
            Samples::Eight(samples) => {
                let samples = samples.as_slice();
                Span::Eight(samples)
            }
            Samples::Sixteen(samples) => {
                let samples = samples.as_slice();
                Span::Sixteen(samples)
            }
        }
    }

    /// Reads the sample at `index`.
    pub(crate) fn get(&self, index: usize) -> u16
        requires { index < length (values_of self.now) }
        ensures { result ≡ slice_index (values_of self.now) index }
    {
        match self {
            Samples::Eight(samples) => u16::from(samples[index]),
            Samples::Sixteen(samples) => samples[index],
        }
    }

    /// Writes the sample at `index`.
    pub(crate) fn set(&mut self, index: usize, value: u16)
        requires index { index < length (values_of self.old) }
        requires value { value ≤ top_of (depth_of self.old) }
        ensures values { values_of self.new ≡ slice_set (values_of self.old) index value }
        ensures depth { depth_of self.new ≡ depth_of self.old }
    {
        match self {
            Samples::Eight(samples) => samples[index] = value as u8,
            Samples::Sixteen(samples) => samples[index] = value,
        }
    }

    /// Borrows `count` samples, from index `start` on.
    pub(crate) fn part(&self, start: usize, count: usize) -> Span<'_>
        requires { start + count ≤ length (values_of self.now) }
        ensures values { span_values result ≡ take count (drop start (values_of self.now)) }
        ensures depth { span_depth result ≡ depth_of self.now }
    {
        match self {
            Samples::Eight(samples) => Span::Eight(&samples[start..start + count]),
            Samples::Sixteen(samples) => Span::Sixteen(&samples[start..start + count]),
        }
    }

    /// Overwrites the samples from index `start` on with a run of the same depth.
    pub(crate) fn put(&mut self, start: usize, part: Span)
        requires depth { span_depth part ≡ depth_of self.old }
        requires within { start + length (span_values part) ≤ length (values_of self.old) }
        ensures values { values_of self.new ≡ take start (values_of self.old) ++ span_values part.entry ++ drop
            (start + length (span_values part.entry)) (values_of self.old) }
        ensures depth { depth_of self.new ≡ depth_of self.old }
    {
        match (self, part) {
            (Samples::Eight(samples), Span::Eight(part)) => {
                samples[start..start + part.len()].copy_from_slice(part);
            }
            (Samples::Sixteen(samples), Span::Sixteen(part)) => {
                samples[start..start + part.len()].copy_from_slice(part);
            }
            _ => {}
        }
    }

    /// Appends a run of the same depth.
    pub(crate) fn extend(&mut self, more: Span) -> Result<(), AllocError>
        requires { span_depth more ≡ depth_of self.old }
        ensures values { OnOk result (values_of self.new ≡ values_of self.old ++ span_values more.entry) }
        ensures depth { depth_of self.new ≡ depth_of self.old }
    {
        match (self, more) {
            (Samples::Eight(samples), Span::Eight(more)) => samples.extend_from_slice(more)?,
            (Samples::Sixteen(samples), Span::Sixteen(more)) => samples.extend_from_slice(more)?,
            _ => {}
        }
        Ok(())
    }

    /// Copies the samples.
    pub(crate) fn copy(&self) -> Result<Samples, AllocError>
        ensures values { IfOk result (λ s. values_of s ≡ values_of self.now) }
        ensures depth { IfOk result (λ s. depth_of s ≡ depth_of self.now) }
    {
        let alloc = self.allocator();
        Ok(match self {
            Samples::Eight(samples) => Samples::Eight(Vec::from_slice(alloc, samples)?),
            Samples::Sixteen(samples) => Samples::Sixteen(Vec::from_slice(alloc, samples)?),
        })
    }
}
