//! Regions, sizes, rotations and qualities of small pictures. The samples stand row by row.
#![tactic(auto, unfolding(crate::proofs::Computing::pictures))]

ghost use Rattle.std.specs.Prelude.{◌≡◌, false, true, [], ◌∷◌};
ghost use Rattle.iiif_pixel.specs.Operations.{crop, quality, turn};
ghost use Rattle.iiif_pixel.specs.Scaling.{scale, weight_of};
ghost use Rattle.iiif_pixel.specs.declared.geometry.Quality.TheVariants.{Bitonal, Color, Default, Gray};
ghost use Rattle.iiif_examples.specs.Pictures.{at, by_quarters, deep_edge, faint_red, gray_16, gray_8, half_ramp, ramp, rgb_16, rgb_8};
ghost use Rattle.iiif_examples.specs.Pictures.{sides, speck};

/// Takes rows 1 and 2 of columns 1 and 2, rows 2 and 3 of columns 1 to 3, and the last place.
pub fn region_is_the_part_in_the_rectangle()
    ensures middle { crop ramp (at 1 1 2 2) ≡ gray_8 2 2 (50 ∷ 60 ∷ 90 ∷ 100 ∷ []) }
    ensures wide { crop ramp (at 1 2 3 2) ≡ gray_8 3 2 (90 ∷ 100 ∷ 110 ∷ 130 ∷ 140 ∷ 150 ∷ []) }
    ensures last { crop ramp (at 3 3 1 1) ≡ gray_8 1 1 (150 ∷ []) }
{}

/// Averages four places into one: (0 + 10 + 40 + 50) / 4 = 25, (20 + 30 + 60 + 70) / 4 = 45, (80 + 90 + 120 + 130) / 4 = 105 and
/// (100 + 110 + 140 + 150) / 4 = 125.
pub fn half_width_averages_columns()
    ensures { scale ramp (sides 2 2) ≡ gray_8 2 2 (25 ∷ 45 ∷ 105 ∷ 125 ∷ []) }
{}

/// Shares four columns between three: of 4, the first takes 3 of column 0 and 1 of column 1, the second 2 and 2, the third 1 and 3. Rows
/// likewise, so the first sample is (9 * 0 + 3 * 10 + 3 * 40 + 50) / 16 = 12.5, and the second (6 * 10 + 6 * 20 + 2 * 50 + 2 * 60) / 16 =
/// 25.
pub fn three_of_four_columns_take_parts()
    ensures most { weight_of 0 0 4 3 ≡ 3 }
    ensures least { weight_of 0 1 4 3 ≡ 1 }
    ensures half { weight_of 1 1 4 3 ≡ 2 }
    ensures none { weight_of 0 2 4 3 ≡ 0 }
    ensures samples { scale ramp (sides 3 3) ≡ gray_8 3 3 (13 ∷ 25 ∷ 38 ∷ 63 ∷ 75 ∷ 88 ∷ 113 ∷ 125 ∷ 138 ∷ []) }
{}

/// Rounds a quarter down. If the averages of both halves were rounded first, 0.5 and 0 to 1 and 0, their average, 0.5, would come to 1.
pub fn average_is_rounded_once()
    ensures once { scale speck (sides 1 1) ≡ gray_8 1 1 (0 ∷ []) }
    ensures twice { scale (scale speck (sides 2 1)) (sides 1 1) ≡ gray_8 1 1 (1 ∷ []) }
{}

/// Rounds 32,767.5 to 32,768, and leaves 65,534 / 2 = 32,767. Of red, green and blue each is an average.
pub fn half_rounds_up_in_each_channel()
    ensures up { scale deep_edge (sides 1 1) ≡ gray_16 1 1 (32768 ∷ []) }
    ensures exact { scale (gray_16 2 1 (0 ∷ 65534 ∷ [])) (sides 1 1) ≡ gray_16 1 1 (32767 ∷ []) }
    ensures channels { scale faint_red (sides 1 1) ≡ rgb_8 1 1 (1 ∷ 0 ∷ 0 ∷ []) }
{}

/// Averages where a side grows, too: of three columns from two, the middle one takes a half of each, so that 0 and 1 make 0.5, which is 1.
/// Twice as wide each column stands twice; and as a single row it is the mean of its column, (0 + 40 + 80 + 120) / 4 = 60.
pub fn larger_sizes_are_averages()
    ensures grown { scale (crop ramp (at 0 0 2 2)) (sides 3 3) ≡ gray_8 3 3 (0 ∷ 5 ∷ 10 ∷ 20 ∷ 25 ∷ 30 ∷ 40 ∷ 45 ∷ 50 ∷ []) }
    ensures rounded { scale (crop speck (at 0 0 2 1)) (sides 3 1) ≡ gray_8 3 1 (0 ∷ 1 ∷ 1 ∷ []) }
    ensures doubled { scale (crop ramp (at 0 0 4 1)) (sides 8 1) ≡ gray_8 8 1 (0 ∷ 0 ∷ 10 ∷ 10 ∷ 20 ∷ 20 ∷ 30 ∷ 30 ∷ []) }
    ensures flat { scale ramp (sides 8 1) ≡ gray_8 8 1 (60 ∷ 60 ∷ 70 ∷ 70 ∷ 80 ∷ 80 ∷ 90 ∷ 90 ∷ []) }
{}

/// Brings the lower left place to the upper left with each quarter. A picture of 3 by 2 becomes one of 2 by 3, whose rows are its columns
/// from below.
pub fn quarters_go_clockwise()
    ensures one { turn half_ramp (by_quarters false 1) ≡ gray_8 2 2 (105 ∷ 25 ∷ 125 ∷ 45 ∷ []) }
    ensures two { turn half_ramp (by_quarters false 2) ≡ gray_8 2 2 (125 ∷ 105 ∷ 45 ∷ 25 ∷ []) }
    ensures three { turn half_ramp (by_quarters false 3) ≡ gray_8 2 2 (45 ∷ 125 ∷ 25 ∷ 105 ∷ []) }
    ensures oblong { turn (gray_8 3 2 (1 ∷ 2 ∷ 3 ∷ 4 ∷ 5 ∷ 6 ∷ [])) (by_quarters false 1) ≡ gray_8 2 3 (4 ∷ 1 ∷ 5 ∷ 2 ∷ 6 ∷ 3 ∷ []) }
{}

/// Swaps left and right first: to 45 25 / 125 105, which a quarter turns into 125 45 / 105 25. Turned first and mirrored then, it would be
/// 25 105 / 45 125.
pub fn mirroring_comes_before_turning()
    ensures none { turn half_ramp (by_quarters true 0) ≡ gray_8 2 2 (45 ∷ 25 ∷ 125 ∷ 105 ∷ []) }
    ensures one { turn half_ramp (by_quarters true 1) ≡ gray_8 2 2 (125 ∷ 45 ∷ 105 ∷ 25 ∷ []) }
    ensures two { turn half_ramp (by_quarters true 2) ≡ gray_8 2 2 (105 ∷ 125 ∷ 25 ∷ 45 ∷ []) }
    ensures three { turn half_ramp (by_quarters true 3) ≡ gray_8 2 2 (25 ∷ 105 ∷ 45 ∷ 125 ∷ []) }
{}

/// Rounds the weighted means 0.299, 0.598, 0.587, 0.114, 255 and 2.99 + 11.74 + 3.42 = 18.15; of 16 bits 19,594.965, 38,469.045 and
/// 299 + 1,174 + 342 = 1,815. A gray picture has no colours to lose.
pub fn gray_is_the_weighted_mean()
    ensures eight { quality (rgb_8 3 2 (1 ∷ 0 ∷ 0 ∷ 2 ∷ 0 ∷ 0 ∷ 0 ∷ 1 ∷ 0 ∷ 0 ∷ 0 ∷ 1 ∷ 255 ∷ 255 ∷ 255 ∷ 10 ∷ 20 ∷ 30 ∷ [])) Gray
        ≡ gray_8 3 2 (0 ∷ 1 ∷ 1 ∷ 0 ∷ 255 ∷ 18 ∷ []) }
    ensures sixteen { quality (rgb_16 3 1 (65535 ∷ 0 ∷ 0 ∷ 0 ∷ 65535 ∷ 0 ∷ 1000 ∷ 2000 ∷ 3000 ∷ [])) Gray
        ≡ gray_16 3 1 (19595 ∷ 38469 ∷ 1815 ∷ []) }
    ensures same { quality ramp Gray ≡ ramp }
    ensures color { quality ramp Color ≡ ramp }
    ensures default { quality faint_red Default ≡ faint_red }
{}

/// Averages red 2 and 0 to 1, whose gray is 0.299, which is 0. Made gray first, 2 is 0.598 and so 1, and the average of 1 and 0 is 1.
pub fn gray_comes_after_averaging()
    ensures after { quality (scale faint_red (sides 1 1)) Gray ≡ gray_8 1 1 (0 ∷ []) }
    ensures before { scale (quality faint_red Gray) (sides 1 1) ≡ gray_8 1 1 (1 ∷ []) }
{}

/// Whitens 128 and more, of 16 bits 32,768 and more, and makes 8 bits of either. Pure red is gray 76, pure green 150.
pub fn bitonal_is_white_from_the_middle_on()
    ensures ramp { quality ramp Bitonal ≡ gray_8 4 4 (0 ∷ 0 ∷ 0 ∷ 0 ∷ 0 ∷ 0 ∷ 0 ∷ 0 ∷ 0 ∷ 0 ∷ 0 ∷ 0 ∷ 0 ∷ 255 ∷ 255 ∷ 255 ∷ []) }
    ensures eight { quality (gray_8 2 1 (127 ∷ 128 ∷ [])) Bitonal ≡ gray_8 2 1 (0 ∷ 255 ∷ []) }
    ensures sixteen { quality (gray_16 2 1 (32767 ∷ 32768 ∷ [])) Bitonal ≡ gray_8 2 1 (0 ∷ 255 ∷ []) }
    ensures colors { quality (rgb_8 2 1 (255 ∷ 0 ∷ 0 ∷ 0 ∷ 255 ∷ 0 ∷ [])) Bitonal ≡ gray_8 2 1 (0 ∷ 255 ∷ []) }
{}
