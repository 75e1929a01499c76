//! A tile's weighted samples, added to sums in place: quick where sides grow, since a tile then has few columns and rows to a result place.

ghost use Rattle.std.specs.Prelude.{◌≡◌, ℕ, ◌+◌, ◌-◌, ◌*◌, ◌<◌, ◌≤◌, ◌^◌, ◌⊎◌, min, length, slice_index};
ghost use Rattle.iiif_pixel.specs.Depths.{span_values};
ghost use Rattle.iiif_pixel.specs.Geometry.{LiesIn};
ghost use Rattle.iiif_area.specs.Grid.{merged};
ghost use Rattle.iiif_area.specs.Code.{row_sum, share_sum, share_sums, HoldsShare};

use crate::places::{Share, corner_of, part_of, places_of};
use crate::weights::{Axis, sources, sources_of_run, weight};
use iiif_pixel::{Raster, Rect, Span};

/// A run of `results` result columns from `first` on, and the source columns that are added to them.
#[derive(Clone, Copy)]
pub struct Stretch {
    first: u32,
    results: u32,
    columns: Axis,
}

/// Adds a tile's share of a region to the sums at the places of `mine`.
pub(crate) fn add_part(mine: Rect, sums: &mut [u64], tile: &Raster, share: Share)
    requires holds { HoldsShare tile.now share }
    requires small { length sums.old < 2 ^ 60 }
    requires mine { length sums.old ≡ mine.w * mine.h * tile.now.channels }
    ensures { sums.new ≡ (merged (record { rect = mine; channels = tile.now.channels; sums = sums.old })
        (share_sums tile.now share)).sums }
{
    let channels = tile.kind().channels();
    let places = places_of(share.region, share.size, share.part);
    let common = part_of(places, mine);
    let (left, top) = corner_of(places, mine);
    if common.w == 0 {
        return;
    }
    let run = common.w as usize * channels;
    for j in 0..common.h {
        let to = ((common.y + j) as usize * mine.w as usize + common.x as usize) * channels;
        let row = Rect {
            x: places.x + left,
            y: places.y + top + j,
            w: common.w,
            h: 1,
        };
        add_rows(&mut sums[to..to + run], tile, share, row);
    }
}

/// Adds all rows of a share to the sums at a row of result places. Only rows and columns that have a weight there are walked: a narrow band
/// of a result that is turned covers few columns of each tile.
fn add_rows(sums: &mut [u64], tile: &Raster, share: Share, row: Rect)
    requires holds { HoldsShare tile.now share }
    requires row { LiesIn row share.size }
    requires len { length sums.old ≡ row.w * tile.now.channels }
    ensures { (i k : ℕ) → i < row.w → k < tile.now.channels → slice_index sums.new (i * tile.now.channels + k)
        ≡ min (2 ^ 64 - 1) (slice_index sums.old (i * tile.now.channels + k)
        + share_sum tile.now share (row.x + i) row.y k) }
{
    let channels = tile.kind().channels();
    let (held, rows, columns) = (share.held(), share.rows(), share.columns());
    let (left, right) = sources_of_run(row.x, row.w, columns);
    let stretch = Stretch {
        first: row.x,
        results: row.w,
        columns: Axis {
            a: columns.a,
            c: columns.c,
            from: columns.from + left,
            count: right - left,
        },
    };
    let (start, end) = sources(row.y, rows);
    for s in start..end {
        let samples = tile.span(held.x + left, held.y + s, right - left);
        let weight = weight(row.y, rows.from + s, rows.a, rows.c);
        add_row(sums, stretch, samples, channels, weight);
    }
}

/// Adds a row of samples to the sums at a row of result places, each sample times the weight of its column and times `rows`, the weight of
/// the row. Source and result columns are walked together: a source column ends where the next begins, and the walk returns to the result
/// column that lies on both.
fn add_row(sums: &mut [u64], stretch: Stretch, samples: Span, channels: usize, rows: u64)
    requires columns { stretch.columns.from + stretch.columns.count ≤ stretch.columns.a }
    requires results { stretch.first + stretch.results ≤ stretch.columns.c }
    requires weights { rows * stretch.columns.a ≤ 2 ^ 32 }
    requires sums { length sums.old ≡ stretch.results * channels }
    requires samples { length (span_values samples) ≡ stretch.columns.count * channels }
    ensures { (i k : ℕ) → i < stretch.results → k < channels → slice_index sums.new (i * channels + k)
        ≡ min (2 ^ 64 - 1) (slice_index sums.old (i * channels + k)
        + rows * row_sum (span_values samples.entry) channels stretch.columns (stretch.first + i) k) }
{
    let (a, c) = (u64::from(stretch.columns.a), u64::from(stretch.columns.c));
    let mut i = 0;
    let mut left = u64::from(stretch.first) * a;
    let mut begin = u64::from(stretch.columns.from) * c;
    for t in 0..stretch.columns.count as usize {
        let end = begin + c;
        while i < stretch.results as usize && left < end {
            let columns = (left + a).min(end).saturating_sub(left.max(begin));
            add_place(
                sums,
                i * channels,
                samples,
                t * channels,
                channels,
                rows * columns,
            );
            i += 1;
            left += a;
        }
        if i > 0 && left > end {
            i -= 1;
            left -= a;
        }
        begin = end;
    }
}

/// Adds `channels` samples from index `from` on, each times `weight`, to as many sums from index `to` on.
fn add_place(sums: &mut [u64], to: usize, samples: Span, from: usize, channels: usize, weight: u64)
    requires sums { to + channels ≤ length sums.old }
    requires samples { from + channels ≤ length (span_values samples) }
    requires weight { weight ≤ 2 ^ 32 }
    ensures added { (k : ℕ) → k < channels → slice_index sums.new (to + k)
        ≡ min (2 ^ 64 - 1) (slice_index sums.old (to + k) + weight * slice_index (span_values samples.entry) (from + k)) }
    ensures kept { (n : ℕ) → (n < to) ⊎ (to + channels ≤ n) → slice_index sums.new n ≡ slice_index sums.old n }
{
    match samples {
        Span::Eight(samples) => add_eight(sums, to, samples, from, channels, weight),
        Span::Sixteen(samples) => add_sixteen(sums, to, samples, from, channels, weight),
    }
}

fn add_eight(sums: &mut [u64], to: usize, samples: &[u8], from: usize, channels: usize, weight: u64)
    requires sums { to + channels ≤ length sums.old }
    requires samples { from + channels ≤ length samples.now }
    requires weight { weight ≤ 2 ^ 32 }
    ensures added { (k : ℕ) → k < channels → slice_index sums.new (to + k)
        ≡ min (2 ^ 64 - 1) (slice_index sums.old (to + k) + weight * slice_index samples.now (from + k)) }
    ensures kept { (n : ℕ) → (n < to) ⊎ (to + channels ≤ n) → slice_index sums.new n ≡ slice_index sums.old n }
{
    for k in 0..channels {
        sums[to + k] = sums[to + k].saturating_add(weight * u64::from(samples[from + k]));
    }
}

fn add_sixteen(
    sums: &mut [u64],
    to: usize,
    samples: &[u16],
    from: usize,
    channels: usize,
    weight: u64,
)
    requires sums { to + channels ≤ length sums.old }
    requires samples { from + channels ≤ length samples.now }
    requires weight { weight ≤ 2 ^ 32 }
    ensures added { (k : ℕ) → k < channels → slice_index sums.new (to + k)
        ≡ min (2 ^ 64 - 1) (slice_index sums.old (to + k) + weight * slice_index samples.now (from + k)) }
    ensures kept { (n : ℕ) → (n < to) ⊎ (to + channels ≤ n) → slice_index sums.new n ≡ slice_index sums.old n }
{
    for k in 0..channels {
        sums[to + k] = sums[to + k].saturating_add(weight * u64::from(samples[from + k]));
    }
}
