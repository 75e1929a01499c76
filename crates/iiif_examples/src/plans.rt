//! Of which tiles or blocks an image of a region is made, and how its rows are cut into bands.
#![tactic(auto, unfolding(crate::proofs::Computing::plans))]

ghost use Rattle.std.specs.Prelude.{◌≡◌, codes, length, [], ◌∷◌};
ghost use Rattle.iiif_pixel.specs.declared.geometry.Dim.{Dim};
ghost use Rattle.iiif_planner.specs.Bands.{band_rect, places_from};
ghost use Rattle.iiif_planner.specs.Items.{blocks_for, level_for, tiles_for};
ghost use Rattle.iiif_planner.specs.Levels.{IsLevel};
ghost use Rattle.iiif_planner.specs.Plans.{BlocksCover, TilesCover};
ghost use Rattle.iiif_examples.specs.Keys.{block, half_block, scaled_to, tile};
ghost use Rattle.iiif_examples.specs.Pictures.{at, sides};

/// Lists each tile of edge 2 that has a place of the region, row by row.
pub fn tiles_of_a_region_stand_row_by_row()
    ensures all { tiles_for (codes "a") 2 (scaled_to (at 0 0 4 4) (sides 4 4)) ≡ tile 2 0 0 ∷ tile 2 1 0 ∷ tile 2 0 1 ∷ tile 2 1 1 ∷ [] }
    ensures last { tiles_for (codes "a") 2 (scaled_to (at 2 2 2 2) (sides 2 2)) ≡ tile 2 1 1 ∷ [] }
    ensures middle { tiles_for (codes "a") 2 (scaled_to (at 1 1 2 2) (sides 2 2)) ≡ tile 2 0 0 ∷ tile 2 1 0 ∷ tile 2 0 1 ∷ tile 2 1 1 ∷ [] }
    ensures lower { tiles_for (codes "a") 2 (scaled_to (at 1 3 3 1) (sides 3 1)) ≡ tile 2 0 1 ∷ tile 2 1 1 ∷ [] }
    ensures cover { TilesCover (codes "a") 2 (sides 4 4) 1 (at 1 3 3 1) (tile 2 0 1 ∷ tile 2 1 1 ∷ []) }
{}

/// Takes level 1, at which one block of side 4 holds the image. Such a block meets at most 4 * 2 / 4 + 1 = 3 result columns and rows, so it
/// has 9 sums, and 27 of three channels; with less room level 0 is taken.
pub fn level_is_the_greatest_with_room()
    ensures one { IsLevel 2 (sides 4 4) (sides 4 4) (sides 2 2) 1 65536 1 }
    ensures room { level_for 2 (sides 4 4) 1 9 (scaled_to (at 0 0 4 4) (sides 2 2)) ≡ 1 }
    ensures less { level_for 2 (sides 4 4) 1 8 (scaled_to (at 0 0 4 4) (sides 2 2)) ≡ 0 }
    ensures rgb { level_for 2 (sides 4 4) 3 27 (scaled_to (at 0 0 4 4) (sides 2 2)) ≡ 1 }
    ensures rgb_less { level_for 2 (sides 4 4) 3 26 (scaled_to (at 0 0 4 4) (sides 2 2)) ≡ 0 }
{}

/// Takes level 3 for 10,000 by 10,000 at 1,024 by 1,024, with tiles of 256: a block of side 2,048 meets at most 210 + 1 columns, and has
/// 44,521 sums; one of side 4,096 has 421 * 421 = 177,241, which is above the room of 65,536. Five blocks a side are 25.
pub fn large_image_is_made_of_blocks_of_level_three()
    ensures level { level_for 256 (sides 10000 10000) 1 65536 (scaled_to (at 0 0 10000 10000) (sides 1024 1024)) ≡ 3 }
    ensures count { length (blocks_for (codes "a") 256 3 (scaled_to (at 0 0 10000 10000) (sides 1024 1024))) ≡ 25 }
{}

/// Lists the one block of level 1, and the four of level 0.
pub fn blocks_of_a_region_stand_row_by_row()
    ensures one { blocks_for (codes "a") 2 1 (scaled_to (at 0 0 4 4) (sides 2 2)) ≡ half_block 1 0 0 ∷ [] }
    ensures four { blocks_for (codes "a") 2 0 (scaled_to (at 0 0 4 4) (sides 2 2))
        ≡ half_block 0 0 0 ∷ half_block 0 1 0 ∷ half_block 0 0 1 ∷ half_block 0 1 1 ∷ [] }
    ensures cover { BlocksCover (codes "a") 2 (sides 4 4) 1 (at 0 0 4 4) (sides 2 2) 1 (half_block 1 0 0 ∷ []) }
{}

/// Cuts five rows into two, two and one.
pub fn last_band_may_be_lower()
    ensures first { band_rect (sides 4 5) 2 0 ≡ at 0 0 4 2 }
    ensures last { band_rect (sides 4 5) 2 2 ≡ at 0 4 4 1 }
{}
