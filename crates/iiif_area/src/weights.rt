//! Weights of source columns in result columns. Rows have theirs likewise.

ghost use Rattle.std.specs.Prelude.{◌≡◌, ℕ, ◌+◌, ◌<◌, ◌≤◌};
ghost use Rattle.iiif_pixel.specs.Scaling.{weight_of};

/// The columns of a region that is scaled, or its rows, and which of them a part of the region has.
#[derive(Clone, Copy)]
pub(crate) struct Axis {
    /// The number of columns, or rows, of the region.
    pub a: u32,
    /// The number that they are scaled to.
    pub c: u32,
    /// The part's first, counted in the region.
    pub from: u32,
    /// The number of those that the part has.
    pub count: u32,
}

/// Returns the weight of source column `x` in result column `i`, where `a` columns are scaled to `c`: of the `a` parts of result column `i`
/// the number of those that lie in source column `x`.
pub fn weight(i: u32, x: u32, a: u32, c: u32) -> u64
    ensures { result ≡ weight_of i x a c }
{
    let (i, x, a, c) = (u64::from(i), u64::from(x), u64::from(a), u64::from(c));
    let end = ((i + 1) * a).min((x + 1) * c);
    let start = (i * a).max(x * c);
    end.saturating_sub(start)
}

/// Returns the first of a part's source columns that has a weight in result column `i`, counted from the part's first, and the one past the
/// last.
pub(crate) fn sources(i: u32, axis: Axis) -> (u32, u32)
    requires { 0 < axis.c }
    ensures in_order { result.0 ≤ result.1 }
    ensures within { result.1 ≤ axis.count }
    ensures below { (t : ℕ) → t < result.0 → weight_of i (axis.from + t) axis.a axis.c ≡ 0 }
    ensures between { (t : ℕ) → result.0 < t → t + 1 < result.1 → weight_of i (axis.from + t) axis.a axis.c ≡ axis.c }
    ensures above { (t : ℕ) → result.1 ≤ t → t < axis.count → weight_of i (axis.from + t) axis.a axis.c ≡ 0 }
{
    let (i, a, c) = (u64::from(i), u64::from(axis.a), u64::from(axis.c));
    let from = u64::from(axis.from);
    let end = from + u64::from(axis.count);
    let first = (i * a / c).max(from).min(end);
    let last = ((i + 1) * a).div_ceil(c).min(end).max(first);
    ((first - from) as u32, (last - from) as u32)
}

/// Returns the first of a part's source columns that has a weight in any of the `results` result columns from `first` on, counted from the
/// part's first, and the one past the last.
pub(crate) fn sources_of_run(first: u32, results: u32, axis: Axis) -> (u32, u32)
    requires divides { 0 < axis.c }
    requires results { first + results ≤ axis.c }
    ensures in_order { result.0 ≤ result.1 }
    ensures within { result.1 ≤ axis.count }
    ensures below { (i t : ℕ) → first ≤ i → t < result.0 → weight_of i (axis.from + t) axis.a axis.c ≡ 0 }
    ensures above { (i t : ℕ) → i < first + results → result.1 ≤ t → t < axis.count → weight_of i (axis.from + t) axis.a axis.c ≡ 0 }
{
    let (a, c) = (u64::from(axis.a), u64::from(axis.c));
    let from = u64::from(axis.from);
    let end = from + u64::from(axis.count);
    let start = (u64::from(first) * a / c).max(from).min(end);
    let stop = (u64::from(first + results) * a)
        .div_ceil(c)
        .min(end)
        .max(start);
    ((start - from) as u32, (stop - from) as u32)
}
