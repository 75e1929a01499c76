//! Squares of a grid over an image.

ghost use Rattle.std.specs.Prelude.{◌≡◌, ◌+◌, ◌-◌, ◌*◌, ◌/◌, ◌^◌, ◌<◌, ◌≤◌};
ghost use Rattle.std.specs.Int.{div_ceil};

use iiif_pixel::Rect;

/// Squares of a grid: those in the columns from `left` up to `right` and in the rows from `top` up to `bottom`, where `right`
/// and `bottom` are excluded.
#[derive(Clone, Copy)]
pub struct Squares {
    pub left: u32,
    pub right: u32,
    pub top: u32,
    pub bottom: u32,
}

impl Squares {
    ghost use Rattle.iiif_planner.specs.Code.{place_among};
    ghost use Rattle.iiif_planner.specs.Items.{squares_met};

    /// Returns the squares with this side that have a place of the region.
    pub(crate) fn met(side: u64, region: Rect) -> Squares
        requires side { 0 < side }
        requires columns { region.x + region.w < 2 ^ 32 }
        requires rows { region.y + region.h < 2 ^ 32 }
        ensures squares { result ≡ squares_met side region }
        ensures columns { result.left ≤ result.right }
        ensures rows { result.top ≤ result.bottom }
    {
        let (left, right) = met_along(side, region.x, region.w);
        let (top, bottom) = met_along(side, region.y, region.h);
        Squares {
            left,
            right,
            top,
            bottom,
        }
    }

    /// Counts the squares.
    pub(crate) fn count(self) -> usize
        ensures { result ≡ (self.right - self.left) * (self.bottom - self.top) }
    {
        self.right.saturating_sub(self.left) as usize
            * self.bottom.saturating_sub(self.top) as usize
    }

    /// Returns the place of a square among these, where they are listed row by row.
    pub(crate) fn place(self, column: u32, row: u32) -> usize
        requires columns { (self.left ≤ self.right) × (self.left ≤ column) }
        requires rows { self.top ≤ row }
        ensures { result ≡ place_among self column row }
    {
        (row - self.top) as usize * (self.right - self.left) as usize
            + (column - self.left) as usize
    }
}

/// Returns the first of the columns of squares that have one of the `count` columns from `from` on, and the end of these squares.
fn met_along(side: u64, from: u32, count: u32) -> (u32, u32)
    requires side { 0 < side }
    requires within { from + count < 2 ^ 32 }
    ensures first { result.0 ≡ from / side }
    ensures end { result.1 ≡ div_ceil (from + count) side }
    ensures in_order { result.0 ≤ result.1 }
{
    let first = u64::from(from) / side;
    let end = u64::from(from + count).div_ceil(side);
    (first as u32, end as u32)
}
