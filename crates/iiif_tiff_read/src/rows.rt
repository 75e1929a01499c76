//! Reads runs of bytes, and unpacks rows of samples.

ghost use Rattle.std.specs.Prelude.{◌≡◌, ◌≢◌, ◌+◌, ◌-◌, ◌*◌, ◌/◌, ◌%◌, ◌^◌, ◌<◌, ◌≤◌, ℕ, length, slice_index, take, drop};
ghost use Rattle.std.specs.Prelude.{IfOk, IfErr, OnOk};
ghost use Rattle.std.specs.Int.{div_ceil};
ghost use Rattle.iiif_tiff.specs.Tiff.{stored};
ghost use Rattle.iiif_source.specs.Runs.{AreIn, HoldsRuns};
ghost use Rattle.iiif_tiff_read.specs.Code.{IsSpan, FitsWindow, HoldsRows, KeepsRest};
ghost use Rattle.iiif_tiff_read.specs.Faults.{IsLoadFault};

use crate::fault::LoadFault;
use iiif_source::{Runs, Source};
use std::alloc::Global;

/// Reads runs of bytes, one run after another, into a new vector.
fn read_runs_at<R, S: Source<R>>(
    rt: &R,
    alloc: Global,
    source: &S,
    runs: Runs,
) -> Result<Vec<u8>, LoadFault>
    requires runs { AreIn (length (S.bytes source.now)) runs }
    ensures length { IfOk result (λ v. length v.items ≡ runs.count * runs.len) }
    ensures bytes { IfOk result (λ v. S.keeps source.now → HoldsRuns (S.bytes source.now) runs runs.count v.items) }
    ensures fault { IfErr result (IsLoadFault (S.gave source.now)) }
{
    let mut bytes = vec![in alloc; 0u8; runs.count as usize * runs.len]?;
    source.read_runs(rt, runs, &mut bytes)?;
    Ok(bytes)
}

/// Span of the bytes of a row that hold some samples: its first byte in the row, its length, and how many samples to skip in it.
#[derive(Clone, Copy)]
struct Span {
    pub start: usize,
    pub len: usize,
    pub skip: usize,
}

/// Finds the bytes of a row that hold n samples from sample `first` on.
fn span_of(bits: u32, first: usize, n: usize) -> Span
    requires bits { bits ≢ 8 → bits ≡ 1 }
    requires small { first + n ≤ 2 ^ 40 }
    ensures { IsSpan bits first n result }
{
    if bits == 8 {
        Span {
            start: first,
            len: n,
            skip: 0,
        }
    } else {
        let start = first / 8;
        Span {
            start,
            len: (first + n).div_ceil(8) - start,
            skip: first % 8,
        }
    }
}

/// Decodes a bit of a byte as a sample. Bit 0 is the high one.
fn sample_of_bit(byte: u8, bit: usize) -> u8
    requires { bit < 8 }
    ensures { result ≡ 255 * (byte / 2 ^ (7 - bit) % 2) }
{
    (byte >> (7 - bit)) % 2 * 255
}

/// Unpacks the bits of a byte to eight samples.
fn unpack_byte(byte: u8, samples: &mut [u8])
    requires { length samples.old ≡ 8 }
    ensures length { length samples.new ≡ 8 }
    ensures samples { (k : ℕ) → k < 8 → slice_index samples.new k ≡ 255 * (byte / 2 ^ (7 - k) % 2) }
{
    for bit in 0..8 {
        samples[bit] = sample_of_bit(byte, bit);
    }
}

/// Unpacks bits to samples behind those that are skipped, a whole byte at a time where all its samples are wanted.
fn unpack_bits(bytes: &[u8], skip: usize, samples: &mut [u8])
    requires room { skip + length samples.old ≤ 8 * length bytes.now }
    requires skip { skip < 8 }
    ensures length { length samples.new ≡ length samples.old }
    ensures samples { (i : ℕ) → i < length samples.old → slice_index samples.new i ≡ stored 1 bytes.now 0 (skip + i) }
{
    let mut i = 0;
    while i < samples.len() {
        let place = skip + i;
        let byte = bytes[place / 8];
        if place % 8 == 0 && i + 8 <= samples.len() {
            unpack_byte(byte, &mut samples[i..i + 8]);
            i += 8;
        } else {
            samples[i] = sample_of_bit(byte, place % 8);
            i += 1;
        }
    }
}

/// Unpacks a row of samples behind those that are skipped.
fn put_row(bits: u32, bytes: &[u8], skip: usize, samples: &mut [u8])
    requires bits { bits ≢ 8 → bits ≡ 1 }
    requires room { (skip + length samples.old) * bits ≤ 8 * length bytes.now }
    requires skip { skip < 8 }
    requires whole { bits ≡ 8 → (skip ≡ 0) × (length samples.old ≡ length bytes.now) }
    ensures length { length samples.new ≡ length samples.old }
    ensures samples { (i : ℕ) → i < length samples.old → slice_index samples.new i ≡ stored bits bytes.now 0 (skip + i) }
{
    if bits == 8 {
        samples.copy_from_slice(bytes);
    } else {
        unpack_bits(bytes, skip, samples);
    }
}

/// Window of a rectangle that rows of samples fill, counted in samples: a row of the rectangle has `width`, and of the `rows` rows from
/// `top` on the window takes `columns` from `left` on.
#[derive(Clone, Copy)]
pub struct Window {
    pub width: usize,
    pub left: usize,
    pub top: u32,
    pub columns: usize,
    pub rows: u32,
}

/// Unpacks rows of samples, which stand one after another, into their window.
fn put_rows(bits: u32, bytes: &[u8], span: Span, window: Window, samples: &mut [u8])
    requires bits { bits ≢ 8 → bits ≡ 1 }
    requires bytes { length bytes.now ≡ window.rows * span.len }
    requires skip { span.skip < 8 }
    requires room { (span.skip + window.columns) * bits ≤ 8 * span.len }
    requires whole { bits ≡ 8 → (span.skip ≡ 0) × (window.columns ≡ span.len) }
    requires fits { FitsWindow window (length samples.old) }
    ensures held { HoldsRows (λ j i. stored bits (take span.len (drop (j * span.len) bytes.now)) 0 (span.skip + i)) window window.rows
        samples.new }
    ensures rest { KeepsRest window window.rows samples.old samples.new }
{
    for j in 0..window.rows as usize {
        let from = j * span.len;
        let start = (window.top as usize + j) * window.width + window.left;
        let row = &mut samples[start..start + window.columns];
        put_row(bits, &bytes[from..from + span.len], span.skip, row);
    }
}

/// Rows of samples in a file: the bits of a sample, the offset of the first row, the bytes from one row to the next, and the first sample
/// of a row that is wanted.
#[derive(Clone, Copy)]
pub struct Rows {
    pub bits: u32,
    pub at: u64,
    pub stride: u64,
    pub first: usize,
}

/// Reads samples of rows into their window.
#[tactic(auto, using(crate::proofs::Spans::span_in_row, crate::proofs::Spans::span_skip, crate::proofs::Spans::span_room))]
pub fn read_window<R, S: Source<R>>(
    rt: &R,
    alloc: Global,
    source: &S,
    rows: Rows,
    window: Window,
    samples: &mut [u8],
) -> Result<(), LoadFault>
    requires bits { rows.bits ≢ 8 → rows.bits ≡ 1 }
    requires small { (rows.at ≤ 2 ^ 60) × (rows.stride ≤ 2 ^ 23) }
    requires rows { 0 < window.rows }
    requires in_row { div_ceil ((rows.first + window.columns) * rows.bits) 8 ≤ rows.stride }
    requires in_file { rows.at + window.rows * rows.stride ≤ length (S.bytes source.now) }
    requires fits { FitsWindow window (length samples.old) }
    ensures held { OnOk result (S.keeps source.now →
        HoldsRows (λ j i. stored rows.bits (S.bytes source.now) (rows.at + j * rows.stride) (rows.first + i)) window window.rows
        samples.new) }
    ensures rest { OnOk result (KeepsRest window window.rows samples.old samples.new) }
    ensures fault { IfErr result (IsLoadFault (S.gave source.now)) }
{
    let span = span_of(rows.bits, rows.first, window.columns);
    let runs = Runs {
        at: rows.at + span.start as u64,
        stride: rows.stride,
        len: span.len,
        count: window.rows,
    };
    if rows.bits == 8 && window.columns == window.width {
        let start = window.top as usize * window.width;
        let end = start + window.rows as usize * window.width;
        source.read_runs(rt, runs, &mut samples[start..end])?;
        return Ok(());
    }
    let read = read_runs_at(rt, alloc, source, runs)?;
    put_rows(rows.bits, &read, span, window, samples);
    Ok(())
}
