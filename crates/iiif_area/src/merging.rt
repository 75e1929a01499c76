//! Sums of two rectangles, added at the places that both have.

ghost use Rattle.std.specs.Prelude.{◌≡◌, ℕ, ◌+◌, ◌*◌, ◌-◌, ◌<◌, ◌≤◌, ◌^◌, min, length, slice_index, EachIndex};
ghost use Rattle.iiif_area.specs.Grid.{merged};

use crate::places::{corner_of, part_of};
use iiif_pixel::Rect;

/// Adds to the sums at the places of `mine` the others, at the places of `theirs`, wherever both rectangles have the place.
pub(crate) fn add_places(
    channels: usize,
    mine: Rect,
    sums: &mut [u64],
    theirs: Rect,
    others: &[u64],
)
    requires channels { (0 < channels) × (channels ≤ 3) }
    requires small { (length sums.old < 2 ^ 60) × (length others.now < 2 ^ 60) }
    requires mine { length sums.old ≡ mine.w * mine.h * channels }
    requires theirs { length others.now ≡ theirs.w * theirs.h * channels }
    ensures { sums.new ≡ (merged (record { rect = mine; channels = channels; sums = sums.old })
        (record { rect = theirs; channels = channels; sums = others.now })).sums }
{
    let common = part_of(theirs, mine);
    let (left, top) = corner_of(theirs, mine);
    if common.w == 0 {
        return;
    }
    let run = common.w as usize * channels;
    for j in 0..common.h {
        let to = ((common.y + j) as usize * mine.w as usize + common.x as usize) * channels;
        let from = ((top + j) as usize * theirs.w as usize + left as usize) * channels;
        add_saturating(&mut sums[to..to + run], &others[from..from + run]);
    }
}

/// Adds each number of `more` to that of `sums` at its index.
fn add_saturating(sums: &mut [u64], more: &[u64])
    requires { length sums.old ≡ length more.now }
    ensures { EachIndex sums.new (λ k. slice_index sums.new k ≡ min (2 ^ 64 - 1) (slice_index sums.old k + slice_index more.now k)) }
{
    for (k, sum) in sums.iter_mut().enumerate() {
        *sum = sum.saturating_add(more[k]);
    }
}
