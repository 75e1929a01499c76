//! Numbers that a column's sum is kept in.

ghost use Rattle.std.specs.Prelude.{◌≡◌, ℕ, ◌<◌, List, length, slice_index};

/// A number that the sum of a column is kept in. The narrower it is, the more of them are added at once.
pub(crate) trait Cell: Copy {
    /// The cells as numbers.
    ghost numbers: { List Self → List ℕ };

    /// Reads the cell at index `i`.
    fn at(cells: &[Self], i: usize) -> u64
        requires { i < length cells.now }
        ensures { result ≡ slice_index (numbers cells.now) i };
}

impl Cell for u32 {
    ghost numbers = { λ cells. cells };

    #[inline(always)]
    fn at(cells: &[u32], i: usize) -> u64 {
        u64::from(cells[i])
    }
}

impl Cell for u64 {
    ghost numbers = { λ cells. cells };

    #[inline(always)]
    fn at(cells: &[u64], i: usize) -> u64 {
        cells[i]
    }
}
