//! Column sums of 32 bits, for most tiles of 8 bits a sample. Whole rows are added in 16 bits first: the narrower the numbers, the more of
//! them are added at once.

ghost use Rattle.std.specs.Prelude.{◌≡◌, ℕ, ◌+◌, ◌-◌, ◌*◌, ◌<◌, ◌≤◌, ◌^◌, length, slice_index, true};
ghost use Rattle.iiif_pixel.specs.Geometry.{top_of};
ghost use Rattle.iiif_pixel.specs.Picture.{sample_at};
ghost use Rattle.iiif_pixel.specs.Scaling.{sum_from};
ghost use Rattle.iiif_area.specs.Code.{column_sum, HasRows, IsShort};

use crate::column_sums::ColumnSums;
use crate::rows::{RowWeights, join_ends, join_rows, row_of, sum_four, sum_one};
use crate::weights::{Axis, sources, weight};
use iiif_pixel::{Depth, NoMemory, Raster, Rect};
use std::alloc::Global;

/// Rows that are added up at once, where each is whole.
const FOUR: u32 = 4;

/// Samples of 8 bits whose sum fits in 16 bits: 257 times 255 is 65,535.
const SHORT_RUN: u32 = 257;

/// Rows of a region whose weighted sum of samples of 8 bits fits in 32 bits.
const SHORT_ROWS: u32 = 16_843_009;

/// Sums of the columns of a tile for which `is_short` holds.
#[derive(Drop)]
pub(crate) struct Narrow {
    cells: Vec<u32>,
    short: Vec<u16>,
}

impl ColumnSums for Narrow {
    type Cell = u32;

    ghost row = { λ s. s.cells.items };

    ghost is_ready = { λ s n. (length s.cells.items ≡ n) × (length s.short.items ≡ n) };

    ghost fits = { λ tile rows. IsShort tile.top rows };

    fn new(alloc: Global, count: usize) -> Result<Narrow, NoMemory> {
        let cells = vec![in alloc; 0u32; count]?;
        let short = vec![in alloc; 0u16; count]?;
        Ok(Narrow { cells, short })
    }

    #[inline(always)]
    fn fill(&mut self, tile: &Raster, held: Rect, rows: Axis, j: u32) {
        // No sample is above 255, so the sums fit.
        tile.is_whole();
        let columns = self.cells.as_mut_slice();
        fill_narrow(columns, self.short.as_mut_slice(), tile, held, rows, j);
    }

    #[inline(always)]
    fn cells(&self) -> &[u32] {
        self.cells.as_slice()
    }
}

/// Returns whether a sample has 8 bits.
fn is_eight(depth: Depth) -> bool
    ensures { result ≡ true → top_of depth ≡ 255 }
{
    match depth {
        Depth::Eight => true,
        Depth::Sixteen => false,
    }
}

/// Returns whether the column sums of a part with these rows fit here.
pub(crate) fn is_short(depth: Depth, rows: Axis) -> bool
    ensures { result ≡ true → IsShort (top_of depth) rows }
{
    let (b, d) = (rows.a, rows.c);
    is_eight(depth)
        && b <= SHORT_ROWS
        && d <= u32::from(u16::MAX)
        && (rows.count <= SHORT_RUN || u64::from(b) <= u64::from(SHORT_RUN) * u64::from(d))
}

/// Sums up each column of the part that a tile holds in its rectangle `held`, each sample times the weight of its row in result row `j`.
/// Rows between the first and the last are whole: they are added up in `short`, and weighted once.
#[inline(never)]
fn fill_narrow(
    columns: &mut [u32],
    short: &mut [u16],
    tile: &Raster,
    held: Rect,
    rows: Axis,
    j: u32,
)
    requires part { HasRows tile.now held rows }
    requires narrow { IsShort tile.now.top rows }
    requires samples { (x y k : ℕ) → sample_at tile.now x y k ≤ 255 }
    requires room { length columns.old ≡ held.w * tile.now.channels }
    requires short { length short.old ≡ length columns.old }
    ensures sums { (t k : ℕ) → t < held.w → k < tile.now.channels →
        slice_index columns.new (t * tile.now.channels + k) ≡ column_sum tile.now held rows j t k }
{
    let (start, end) = sources(j, rows);
    if start == end {
        columns.fill(0);
        return;
    }
    let first = row_of(tile, held, start);
    let above = weight(j, rows.from + start, rows.a, rows.c) as u16;
    if end - start == 1 {
        join_ends(columns, first, above, first, 0);
        return;
    }
    let last = row_of(tile, held, end - 1);
    let below = weight(j, rows.from + (end - 1), rows.a, rows.c) as u16;
    if end - start == 2 {
        join_ends(columns, first, above, last, below);
        return;
    }
    sum_inner(short, tile, held, start + 1, end - 1);
    let weights = RowWeights {
        above,
        between: rows.c as u16,
        below,
    };
    join_rows(columns, first, short, last, weights);
}

/// Adds up the rows from `from` to `to` (`to` excluded) of the part that a tile of 8 bits holds in its rectangle `held`.
fn sum_inner(short: &mut [u16], tile: &Raster, held: Rect, from: u32, to: u32)
    requires depth { tile.now.top ≡ 255 }
    requires samples { (x y k : ℕ) → sample_at tile.now x y k ≤ 255 }
    requires run { to ≤ from + 257 }
    requires in_order { from ≤ to }
    requires held { (held.x + held.w ≤ tile.now.width) × (held.y + to ≤ tile.now.height) }
    requires corner { held.y + to < 2 ^ 32 }
    requires room { length short.old ≡ held.w * tile.now.channels }
    ensures sums { (t k : ℕ) → t < held.w → k < tile.now.channels →
        slice_index short.new (t * tile.now.channels + k) ≡ sum_from from (to - from)
        (λ s. sample_at tile.now (held.x + t) (held.y + s) k) }
{
    short.fill(0);
    let mut s = from;
    while s < to {
        if FOUR <= to - s {
            let first = row_of(tile, held, s);
            let second = row_of(tile, held, s + 1);
            let third = row_of(tile, held, s + 2);
            let fourth = row_of(tile, held, s + 3);
            sum_four(short, first, second, third, fourth);
            s += FOUR;
        } else {
            sum_one(short, row_of(tile, held, s));
            s += 1;
        }
    }
}
