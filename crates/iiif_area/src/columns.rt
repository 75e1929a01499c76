//! Sums over a tile, in two steps: the columns are summed up for each result row, and then the column sums of each result place.

ghost use Rattle.std.specs.Prelude.{◌≡◌, ℕ, ◌+◌, ◌*◌, ◌<◌, ◌≤◌, ◌^◌, length, slice_index, slice_index_or, true, vec_len, vec_capacity};
ghost use Rattle.std.specs.Prelude.{IfOk, IfSome};
ghost use Rattle.iiif_pixel.specs.Geometry.{LiesIn};
ghost use Rattle.iiif_pixel.specs.Picture.{samples_of};
ghost use Rattle.iiif_pixel.specs.Scaling.{sum_from};
ghost use Rattle.iiif_area.specs.Code.{rows_of, share_sum, span_total, HoldsShare, IsMore, IsSpan, IsWholeSpan};

use crate::cell::Cell;
use crate::column_sums::ColumnSums;
use crate::narrow::{Narrow, is_short};
use crate::places::Share;
use crate::weights::{Axis, sources, weight};
use crate::wide::Wide;
use iiif_pixel::{Kind, NoMemory, Raster, Rect};
use std::alloc::{AllocError, Global};

/// The columns of a part that have a weight in a result column, counted from the part's first, and the weights of the first and of the
/// last. A single column counts as the first.
#[derive(Clone, Copy)]
pub struct Span {
    pub(crate) start: usize,
    pub(crate) end: usize,
    pub(crate) first: u64,
    pub(crate) last: u64,
}

/// Sums up a tile's share of a region, at the result places `rect`.
pub(crate) fn tile_sums(
    alloc: Global,
    tile: &Raster,
    share: Share,
    rect: Rect,
) -> Result<Vec<u64>, NoMemory>
    requires holds { HoldsShare tile.now share }
    requires rect { LiesIn rect share.size }
    ensures { IfOk result (λ v. v.items ≡ samples_of rect.w rect.h tile.now.channels
        (λ i j k. share_sum tile.now share (rect.x + i) (rect.y + j) k)) }
{
    if is_short(tile.depth(), share.rows()) {
        match tile.kind() {
            Kind::Gray => sums_by::<Narrow>(alloc, tile, 1, share, rect),
            Kind::Rgb => sums_by::<Narrow>(alloc, tile, 3, share, rect),
        }
    } else {
        match tile.kind() {
            Kind::Gray => sums_by::<Wide>(alloc, tile, 1, share, rect),
            Kind::Rgb => sums_by::<Wide>(alloc, tile, 3, share, rect),
        }
    }
}

/// Sums up a share of a tile with `channels` channels, by column sums that fit. It is inlined for each number of channels, so that no place
/// costs a loop over channels.
#[inline(always)]
fn sums_by<C: ColumnSums>(
    alloc: Global,
    tile: &Raster,
    channels: usize,
    share: Share,
    rect: Rect,
) -> Result<Vec<u64>, NoMemory>
    requires channels { channels ≡ tile.now.channels }
    requires fits { C.fits tile.now (rows_of share) }
    requires holds { HoldsShare tile.now share }
    requires rect { LiesIn rect share.size }
    ensures { IfOk result (λ v. v.items ≡ samples_of rect.w rect.h tile.now.channels
        (λ i j k. share_sum tile.now share (rect.x + i) (rect.y + j) k)) }
{
    // No sample is above 65,535, so the sums fit.
    tile.is_whole();
    let (held, rows) = (share.held(), share.rows());
    let mut columns = C::new(alloc, held.w as usize * channels)?;
    let spans = spans(alloc, rect.x, rect.w, share.columns())?;
    let Some(count) = tile.kind().count(rect.dim()) else {
        return Err(AllocError);
    };
    let mut sums = Vec::with_capacity(alloc, count)?;
    let c = share.size.w;
    let whole = whole_columns(&spans, c);
    for j in 0..rect.h {
        columns.fill(tile, held, rows, rect.y + j);
        let cells = columns.cells();
        if let Some(n) = whole {
            sums = with_whole(sums, cells, channels, c, n, rect.w as usize);
            continue;
        }
        for i in 0..rect.w {
            for k in 0..channels {
                let span = spans[i as usize];
                let sum = span_sum(cells, channels, k, u64::from(c), span);
                sums.push_reserved(sum);
            }
        }
    }
    Ok(sums)
}

/// Makes the spans of `results` result columns from `first` on.
fn spans(alloc: Global, first: u32, results: u32, axis: Axis) -> Result<Vec<Span>, NoMemory>
    requires divides { 0 < axis.c }
    requires inside { axis.from + axis.count ≤ axis.a }
    requires results { first + results ≤ axis.c }
    ensures len { IfOk result (λ v. vec_len v ≡ results) }
    ensures each { IfOk result (λ v. (t : ℕ) (d : Span) → t < results →
        IsSpan axis (first + t) (slice_index_or v.items t d)) }
{
    let mut spans = Vec::with_capacity(alloc, results as usize)?;
    for i in 0..results {
        spans.push(span_of(first + i, axis))?;
    }
    Ok(spans)
}

/// Makes the span of result column `i`.
fn span_of(i: u32, axis: Axis) -> Span
    requires divides { 0 < axis.c }
    requires inside { axis.from + axis.count ≤ axis.a }
    ensures { IsSpan axis i result }
{
    let (start, end) = sources(i, axis);
    let (first, last) = match end - start {
        0 => (0, 0),
        1 => (weight(i, axis.from + start, axis.a, axis.c), 0),
        _ => (
            weight(i, axis.from + start, axis.a, axis.c),
            weight(i, axis.from + (end - 1), axis.a, axis.c),
        ),
    };
    Span {
        start: start as usize,
        end: end as usize,
        first,
        last,
    }
}

/// Returns the number of columns of each span, if all spans have equally many, at least two, whole and side by side from the first column
/// on. Columns are scaled to `c`.
fn whole_columns(spans: &[Span], c: u32) -> Option<usize>
    ensures many { IfSome result (λ n. 1 < n) }
    ensures each { IfSome result (λ n. (i : ℕ) (d : Span) → i < length spans.now → IsWholeSpan c n i (slice_index_or spans.now i d)) }
{
    let columns = spans.first()?.end;
    if columns < 2 {
        return None;
    }
    let mut start = 0;
    for span in spans {
        if span.start != start || span.end < start || span.end - start != columns {
            return None;
        }
        if span.first != u64::from(c) || span.last != u64::from(c) {
            return None;
        }
        start = span.end;
    }
    Some(columns)
}

/// Weighs the sum of a span's first column, that of the columns between, each of weight `c`, and that of the last, and adds them up.
#[inline(always)]
fn taken_of(span: Span, c: u64, first: u64, inner: u64, last: u64) -> u64
    requires { span.first * first + c * inner + span.last * last < 2 ^ 64 }
    ensures { result ≡ span.first * first + c * inner + span.last * last }
{
    let between = c * inner;
    span.first * first + between + span.last * last
}

/// Adds up a span's column sums in channel `k`, each times its weight.
fn span_sum<N: Cell>(columns: &[N], channels: usize, k: usize, c: u64, span: Span) -> u64
    requires in_order { span.start ≤ span.end }
    requires within { span.end * channels ≤ length columns.now }
    requires channel { k < channels }
    requires none { span.start ≡ span.end → span.first ≡ 0 }
    requires single { span.end ≤ span.start + 1 → span.last ≡ 0 }
    requires takes { 0 < c }
    requires fits { span_total (N.numbers columns.now) channels k c span < 2 ^ 64 }
    ensures { result ≡ span_total (N.numbers columns.now) channels k c span }
{
    if span.start == span.end {
        return 0;
    }
    let mut inner = 0;
    for t in span.start + 1..span.end - 1 {
        inner += N::at(columns, t * channels + k);
    }
    let first = N::at(columns, span.start * channels + k);
    let last = N::at(columns, (span.end - 1) * channels + k);
    taken_of(span, c, first, inner, last)
}

/// Appends the weighted sums of `count` result places, each of `n` whole columns. It is inlined for the `n` of scales by a power of two, so
/// that the sums of several places are made at once.
#[inline(always)]
fn with_whole<N: Cell>(
    sums: Vec<u64>,
    columns: &[N],
    channels: usize,
    c: u32,
    n: usize,
    count: usize,
) -> Vec<u64>
    requires room { vec_len sums + count * channels ≤ vec_capacity sums }
    requires within { count * n * channels ≤ length columns.now }
    requires takes { 0 < c }
    requires fits { (i k : ℕ) → i < count → k < channels →
        c * sum_from (i * n) n (λ t. slice_index (N.numbers columns.now) (t * channels + k)) < 2 ^ 64 }
    ensures row { IsMore sums.items result.items channels (count * channels)
        (λ i k. c * sum_from (i * n) n (λ t. slice_index (N.numbers columns.now) (t * channels + k))) }
    ensures capacity { vec_capacity result ≡ vec_capacity sums }
{
    match n {
        2 => with_whole_of(sums, columns, channels, c, 2, count),
        4 => with_whole_of(sums, columns, channels, c, 4, count),
        8 => with_whole_of(sums, columns, channels, c, 8, count),
        _ => with_whole_of(sums, columns, channels, c, n, count),
    }
}

/// Appends the weighted sums of `count` result places, each of `n` whole columns.
#[inline(always)]
fn with_whole_of<N: Cell>(
    mut sums: Vec<u64>,
    columns: &[N],
    channels: usize,
    c: u32,
    n: usize,
    count: usize,
) -> Vec<u64>
    requires room { vec_len sums + count * channels ≤ vec_capacity sums }
    requires within { count * n * channels ≤ length columns.now }
    requires takes { 0 < c }
    requires fits { (i k : ℕ) → i < count → k < channels →
        c * sum_from (i * n) n (λ t. slice_index (N.numbers columns.now) (t * channels + k)) < 2 ^ 64 }
    ensures row { IsMore sums.items result.items channels (count * channels)
        (λ i k. c * sum_from (i * n) n (λ t. slice_index (N.numbers columns.now) (t * channels + k))) }
    ensures capacity { vec_capacity result ≡ vec_capacity sums }
{
    for i in 0..count {
        for k in 0..channels {
            let sum = sum_of(columns, channels, k, i * n, n);
            sums.push_reserved(u64::from(c) * sum);
        }
    }
    sums
}

/// Adds up channel `k` of the `n` columns from `start` on.
#[inline(always)]
fn sum_of<N: Cell>(columns: &[N], channels: usize, k: usize, start: usize, n: usize) -> u64
    requires channel { k < channels }
    requires within { (start + n) * channels ≤ length columns.now }
    requires fits { sum_from start n (λ t. slice_index (N.numbers columns.now) (t * channels + k)) < 2 ^ 64 }
    ensures { result ≡ sum_from start n (λ t. slice_index (N.numbers columns.now) (t * channels + k)) }
{
    let mut sum = 0;
    for t in 0..n {
        sum += N::at(columns, (start + t) * channels + k);
    }
    sum
}
