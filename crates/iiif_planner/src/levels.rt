//! The level of the blocks that a scaled region is made of.

ghost use Rattle.std.specs.Prelude.{◌≡◌, ◌↔◌, ◌+◌, ◌*◌, ◌^◌, ◌<◌, ◌≤◌, IsTrue};
ghost use Rattle.std.specs.Int.{div_ceil};
ghost use Rattle.iiif_planner.specs.Levels.{sums_at_most, HoldsImage, IsLevel, IsUsable};
ghost use Rattle.iiif_keys.specs.Blocks.{IsEdge};

use iiif_keys::{LEVEL_LIMIT, side_of};
use iiif_pixel::Dim;

/// A region of an image to be scaled to `size`, with the edge of its tiles, its channels, and room for so many sums of a block.
#[derive(Clone, Copy)]
pub struct Scaled {
    pub edge: u32,
    pub image: Dim,
    pub region: Dim,
    pub size: Dim,
    pub channels: u64,
    pub room: u64,
}

impl Scaled {
    /// Returns the greatest level that may be planned with, or 0 where there is none.
    pub(crate) fn level(self) -> u8
        requires edge { IsEdge self.edge }
        requires channels { self.channels ≤ 3 }
        requires columns { (0 < self.size.w) × (self.size.w ≤ self.region.w) }
        requires rows { (0 < self.size.h) × (self.size.h ≤ self.region.h) }
        ensures level { IsLevel self.edge self.image self.region self.size self.channels self.room result }
        ensures within { result ≤ 20 }
    {
        for level in (0..LEVEL_LIMIT + 1).rev() {
            if self.is_usable(level) {
                return level;
            }
        }
        0
    }

    /// Returns whether a level may be planned with.
    fn is_usable(self, level: u8) -> bool
        requires edge { IsEdge self.edge }
        requires level { level ≤ 20 }
        requires channels { self.channels ≤ 3 }
        requires columns { (0 < self.size.w) × (self.size.w ≤ self.region.w) }
        requires rows { (0 < self.size.h) × (self.size.h ≤ self.region.h) }
        ensures { IsTrue result ↔ IsUsable self.edge self.image self.region self.size self.channels self.room level }
    {
        let needed = level == 0 || !self.holds_image(level - 1);
        needed && self.sums_at_most(level) <= self.room
    }

    /// Returns whether one block of the level holds the image.
    fn holds_image(self, level: u8) -> bool
        requires edge { IsEdge self.edge }
        requires level { level ≤ 20 }
        ensures { IsTrue result ↔ HoldsImage self.edge self.image level }
    {
        u64::from(self.image.w.max(self.image.h)) <= side_of(self.edge, level)
    }

    /// Returns the most sums that a block of the level can have.
    fn sums_at_most(self, level: u8) -> u64
        requires edge { IsEdge self.edge }
        requires level { level ≤ 20 }
        requires channels { self.channels ≤ 3 }
        requires columns { (0 < self.size.w) × (self.size.w ≤ self.region.w) }
        requires rows { (0 < self.size.h) × (self.size.h ≤ self.region.h) }
        ensures { result ≡ sums_at_most self.edge level self.region self.size self.channels }
    {
        let side = side_of(self.edge, level);
        met_at_most(side, self.region.w, self.size.w)
            * met_at_most(side, self.region.h, self.size.h)
            * self.channels
    }
}

/// Returns the most result columns that a block with this side can meet, where `a` columns are scaled to `c`.
fn met_at_most(side: u64, a: u32, c: u32) -> u64
    requires side { side ≤ 2 ^ 30 }
    requires scaled { (0 < c) × (c ≤ a) }
    ensures met { result ≡ div_ceil (side * c) a + 1 }
    ensures within { result ≤ 2 ^ 30 + 1 }
{
    let (a, c) = (u64::from(a), u64::from(c));
    (side * c).div_ceil(a) + 1
}
