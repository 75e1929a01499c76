//! Rows of a tile, added to its column sums: each with its weight, or several whole rows without.

ghost use Rattle.std.specs.Prelude.{◌≡◌, ℕ, ◌+◌, ◌*◌, ◌<◌, ◌≤◌, ◌^◌, length, slice_index, EachIndex};
ghost use Rattle.iiif_pixel.specs.Depths.{span_values};
ghost use Rattle.iiif_pixel.specs.Picture.{span_of};

use iiif_pixel::{Raster, Rect, Span};

/// Adds each sample of `row`, times `weight`, to the number of `columns` at its index.
pub(crate) fn add_row(columns: &mut [u64], row: Span, weight: u32)
    requires same { length columns.old ≡ length (span_values row) }
    requires room { (t : ℕ) → t < length columns.old → slice_index columns.old t + weight * slice_index (span_values row) t < 2 ^ 64 }
    ensures { EachIndex columns.new (λ t. slice_index columns.new t ≡ slice_index columns.old t + weight * slice_index
        (span_values row.entry) t) }
{
    match row {
        Span::Eight(row) => add_eight(columns, row, weight),
        Span::Sixteen(row) => add_sixteen(columns, row, weight),
    }
}

fn add_eight(columns: &mut [u64], row: &[u8], weight: u32)
    requires same { length columns.old ≡ length row.now }
    requires room { (t : ℕ) → t < length columns.old → slice_index columns.old t + weight * slice_index row.now t < 2 ^ 64 }
    ensures { EachIndex columns.new (λ t. slice_index columns.new t ≡ slice_index columns.old t + weight * slice_index row.now t) }
{
    for (t, column) in columns.iter_mut().enumerate() {
        *column += u64::from(weight) * u64::from(row[t]);
    }
}

fn add_sixteen(columns: &mut [u64], row: &[u16], weight: u32)
    requires same { length columns.old ≡ length row.now }
    requires room { (t : ℕ) → t < length columns.old → slice_index columns.old t + weight * slice_index row.now t < 2 ^ 64 }
    ensures { EachIndex columns.new (λ t. slice_index columns.new t ≡ slice_index columns.old t + weight * slice_index row.now t) }
{
    for (t, column) in columns.iter_mut().enumerate() {
        *column += u64::from(weight) * u64::from(row[t]);
    }
}

/// Adds each sample of `row` to the number of `inner` at its index.
pub(crate) fn sum_row(inner: &mut [u32], row: Span)
    requires same { length inner.old ≡ length (span_values row) }
    requires room { (t : ℕ) → t < length inner.old → slice_index inner.old t + slice_index (span_values row) t < 2 ^ 32 }
    ensures { EachIndex inner.new (λ t. slice_index inner.new t ≡ slice_index inner.old t + slice_index (span_values row.entry) t) }
{
    match row {
        Span::Eight(row) => sum_eight(inner, row),
        Span::Sixteen(row) => sum_sixteen(inner, row),
    }
}

fn sum_eight(inner: &mut [u32], row: &[u8])
    requires same { length inner.old ≡ length row.now }
    requires room { (t : ℕ) → t < length inner.old → slice_index inner.old t + slice_index row.now t < 2 ^ 32 }
    ensures { EachIndex inner.new (λ t. slice_index inner.new t ≡ slice_index inner.old t + slice_index row.now t) }
{
    for (t, sum) in inner.iter_mut().enumerate() {
        *sum += u32::from(row[t]);
    }
}

fn sum_sixteen(inner: &mut [u32], row: &[u16])
    requires same { length inner.old ≡ length row.now }
    requires room { (t : ℕ) → t < length inner.old → slice_index inner.old t + slice_index row.now t < 2 ^ 32 }
    ensures { EachIndex inner.new (λ t. slice_index inner.new t ≡ slice_index inner.old t + slice_index row.now t) }
{
    for (t, sum) in inner.iter_mut().enumerate() {
        *sum += u32::from(row[t]);
    }
}

/// Adds each number of `inner`, times `weight`, to the number of `columns` at its index.
pub(crate) fn add_sums(columns: &mut [u64], inner: &[u32], weight: u32)
    requires same { length columns.old ≡ length inner.now }
    requires room { (t : ℕ) → t < length columns.old → slice_index columns.old t + weight * slice_index inner.now t < 2 ^ 64 }
    ensures { EachIndex columns.new (λ t. slice_index columns.new t ≡ slice_index columns.old t + weight * slice_index inner.now t) }
{
    for (t, column) in columns.iter_mut().enumerate() {
        *column += u64::from(weight) * u64::from(inner[t]);
    }
}

/// Borrows row `s` of the part that a tile of 8 bits holds in its rectangle `held`.
pub(crate) fn row_of<'a>(tile: &'a Raster, held: Rect, s: u32) -> &'a [u8]
    requires depth { tile.now.top ≡ 255 }
    requires held { (held.x + held.w ≤ tile.now.width) × (held.y + s < tile.now.height) }
    requires corner { held.y + s < 2 ^ 32 }
    ensures { result.now ≡ span_of tile.now held.x (held.y + s) held.w }
{
    match tile.span(held.x, held.y + s, held.w) {
        Span::Eight(samples) => samples,
        Span::Sixteen(_) => &[],
    }
}

/// Adds the samples of four rows to the number of `short` at their index.
pub(crate) fn sum_four(short: &mut [u16], a: &[u8], b: &[u8], c: &[u8], d: &[u8])
    requires same { (length a.now ≡ length short.old) × (length b.now ≡ length short.old) × (length c.now ≡ length short.old) ×
        (length d.now ≡ length short.old) }
    requires room { (t : ℕ) → t < length short.old → slice_index short.old t + 1020 < 2 ^ 16 }
    ensures { EachIndex short.new (λ t. slice_index short.new t
        ≡ slice_index short.old t + (slice_index a.now t + slice_index b.now t + slice_index c.now t + slice_index d.now t)) }
{
    for (t, sum) in short.iter_mut().enumerate() {
        *sum += u16::from(a[t]) + u16::from(b[t]) + u16::from(c[t]) + u16::from(d[t]);
    }
}

/// Adds each sample of `row` to the number of `short` at its index.
pub(crate) fn sum_one(short: &mut [u16], row: &[u8])
    requires same { length row.now ≡ length short.old }
    requires room { (t : ℕ) → t < length short.old → slice_index short.old t + 255 < 2 ^ 16 }
    ensures { EachIndex short.new (λ t. slice_index short.new t ≡ slice_index short.old t + slice_index row.now t) }
{
    for (t, sum) in short.iter_mut().enumerate() {
        *sum += u16::from(row[t]);
    }
}

/// Writes to each of `columns` the samples of two rows at its index, each times its row's weight, added up.
pub(crate) fn join_ends(columns: &mut [u32], first: &[u8], above: u16, last: &[u8], below: u16)
    requires same { (length first.now ≡ length columns.old) × (length last.now ≡ length columns.old) }
    ensures { EachIndex columns.new (λ t. slice_index columns.new t ≡ above * slice_index first.now t + below * slice_index last.now t) }
{
    for (t, column) in columns.iter_mut().enumerate() {
        *column = u32::from(above) * u32::from(first[t]) + u32::from(below) * u32::from(last[t]);
    }
}

/// The weights of a result row's first source row, of each row between, and of its last.
#[derive(Clone, Copy)]
pub(crate) struct RowWeights {
    pub above: u16,
    pub between: u16,
    pub below: u16,
}

/// Writes to each of `columns` the samples of the first row and of the last at its index, and the sum of those between from `short`, each
/// times its weight, added up.
pub(crate) fn join_rows(
    columns: &mut [u32],
    first: &[u8],
    short: &[u16],
    last: &[u8],
    weights: RowWeights,
)
    requires same { (length first.now ≡ length columns.old) × (length last.now ≡ length columns.old) ×
        (length short.now ≡ length columns.old) }
    requires room { (t : ℕ) → t < length columns.old
        → weights.above * slice_index first.now t + weights.between * slice_index short.now t + weights.below * slice_index last.now t
        < 2 ^ 32 }
    ensures { EachIndex columns.new (λ t. slice_index columns.new t
        ≡ weights.above * slice_index first.now t + weights.between * slice_index short.now t + weights.below * slice_index last.now t) }
{
    for (t, column) in columns.iter_mut().enumerate() {
        *column = u32::from(weights.above) * u32::from(first[t])
            + u32::from(weights.between) * u32::from(short[t])
            + u32::from(weights.below) * u32::from(last[t]);
    }
}
