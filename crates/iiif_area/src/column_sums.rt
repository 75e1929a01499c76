//! Sums of a tile's columns, over cells of any width.

ghost use Rattle.std.specs.Prelude.{◌≡◌, ℕ, ◌+◌, ◌*◌, ◌<◌, IfOk, List, length, slice_index};
ghost use Rattle.iiif_pixel.specs.Picture.{Picture};
ghost use Rattle.iiif_area.specs.declared.weights.Axis.{Axis};
ghost use Rattle.iiif_area.specs.Code.{column_sum, HasRows};

use crate::cell::Cell;
use crate::weights::Axis;
use iiif_pixel::{NoMemory, Raster, Rect};
use std::alloc::Global;

/// Weighted sums of a tile's columns, for one result row after another.
pub(crate) trait ColumnSums: Drop {
    /// The number that a sum is kept in.
    type Cell: Cell;

    /// The sums of the row that was filled last.
    ghost row: { Self → List Self.Cell };

    /// There is room for a row of so many sums.
    ghost is_ready: { Self → ℕ → Type 0 };

    /// The sums of a tile's columns fit in the cells, if its rows are scaled along this axis.
    ghost fits: { Picture → Axis → Type 0 };

    /// Allocates room for rows of `count` sums.
    fn new(alloc: Global, count: usize) -> Result<Self, NoMemory>
        ensures { IfOk result (λ s. is_ready s count) };

    /// Sums up each column of the part that a tile holds in its rectangle `held`, each sample times the weight of its row in result
    /// row `j`.
    fn fill(&mut self, tile: &Raster, held: Rect, rows: Axis, j: u32)
        requires part { HasRows tile.now held rows }
        requires fits { fits tile.now rows }
        requires ready { is_ready self.old (held.w * tile.now.channels) }
        ensures ready { is_ready self.new (held.w * tile.now.channels) }
        ensures count { length (row self.new) ≡ held.w * tile.now.channels }
        ensures sums { (t k : ℕ) → t < held.w → k < tile.now.channels →
            slice_index (Self.Cell.numbers (row self.new)) (t * tile.now.channels + k) ≡ column_sum tile.now held rows j t k };

    /// Borrows the sums of the row that was filled last.
    fn cells(&self) -> &[Self::Cell]
        ensures { result.now ≡ row self.now };
}
