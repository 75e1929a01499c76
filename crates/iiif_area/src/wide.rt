//! Column sums of 64 bits, for any tile.

ghost use Rattle.std.specs.Prelude.{◌≡◌, ℕ, ◌+◌, ◌*◌, ◌<◌, ◌≤◌, ◌^◌, length, slice_index, EachIndex, ⊤};
ghost use Rattle.iiif_pixel.specs.Picture.{sample_at};
ghost use Rattle.iiif_area.specs.Code.{column_sum, HasRows};

use crate::column_sums::ColumnSums;
use crate::rows::{add_row, add_sums, sum_row};
use crate::weights::{Axis, sources, weight};
use iiif_pixel::{NoMemory, Raster, Rect};
use std::alloc::Global;

/// The most source rows that are added with their weights, one by one: to add them up apart costs a pass over all columns.
const FEW: u32 = 6;

/// Samples of at most 65,535 whose sum fits in 32 bits. Rows past them are added with their weights.
const RUN: u32 = 65_536;

/// Sums of the columns of any tile.
#[derive(Drop)]
pub(crate) struct Wide {
    cells: Vec<u64>,
    inner: Vec<u32>,
}

impl ColumnSums for Wide {
    type Cell = u64;

    ghost row = { λ s. s.cells.items };

    ghost is_ready = { λ s n. (length s.cells.items ≡ n) × (length s.inner.items ≡ n) ×
        EachIndex s.inner.items (λ t. slice_index s.inner.items t ≡ 0) };

    ghost fits = { λ _ _. ⊤ };

    fn new(alloc: Global, count: usize) -> Result<Wide, NoMemory> {
        let cells = vec![in alloc; 0u64; count]?;
        let inner = vec![in alloc; 0u32; count]?;
        Ok(Wide { cells, inner })
    }

    #[inline(always)]
    fn fill(&mut self, tile: &Raster, held: Rect, rows: Axis, j: u32) {
        // No sample is above 65,535, so the sums fit.
        tile.is_whole();
        let columns = self.cells.as_mut_slice();
        fill_wide(columns, self.inner.as_mut_slice(), tile, held, rows, j);
    }

    #[inline(always)]
    fn cells(&self) -> &[u64] {
        self.cells.as_slice()
    }
}

/// Sums up each column of the part that a tile holds in its rectangle `held`, each sample times the weight of its row in result row `j`.
/// Whole rows are added up in `inner`, and weighted once, since numbers of 32 bits take less than half of the time. `inner` is 0 before and
/// after.
#[inline(never)]
fn fill_wide(columns: &mut [u64], inner: &mut [u32], tile: &Raster, held: Rect, rows: Axis, j: u32)
    requires part { HasRows tile.now held rows }
    requires samples { (x y k : ℕ) → sample_at tile.now x y k ≤ 65535 }
    requires room { length columns.old ≡ held.w * tile.now.channels }
    requires inner { length inner.old ≡ length columns.old }
    requires clear { EachIndex inner.old (λ t. slice_index inner.old t ≡ 0) }
    ensures clear { EachIndex inner.new (λ t. slice_index inner.new t ≡ 0) }
    ensures sums { (t k : ℕ) → t < held.w → k < tile.now.channels →
        slice_index columns.new (t * tile.now.channels + k) ≡ column_sum tile.now held rows j t k }
{
    columns.fill(0);
    let (start, end) = sources(j, rows);
    let many = end - start > FEW;
    for s in start..end {
        let row = tile.span(held.x, held.y + s, held.w);
        let weight = weight(j, rows.from + s, rows.a, rows.c);
        if many && weight == u64::from(rows.c) && s - start < RUN {
            sum_row(inner, row);
        } else {
            add_row(columns, row, weight as u32);
        }
    }
    if many {
        add_sums(columns, inner, rows.c);
        inner.fill(0);
    }
}
