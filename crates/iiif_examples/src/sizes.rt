//! Which rectangle a region is, which sides a size comes to, and what is written for both: the canonical form.
#![tactic(auto, unfolding(crate::proofs::Computing::requests))]

ghost use Rattle.std.specs.Prelude.{◌≡◌, false, true, codes, Ok, Err};
ghost use Rattle.iiif_pixel.specs.declared.geometry.Kind.TheVariants as kind;
ghost use Rattle.iiif_pixel.specs.declared.geometry.Quality.TheVariants.{Bitonal, Color, Default, Gray};
ghost use Rattle.iiif_request.specs.declared.request.Form.TheVariants.{Both, Height, Max, Percent, Width, Within};
ghost use Rattle.iiif_request.specs.declared.request.Refusal.TheVariants.{Empty, Larger, Limit, Upscale, Zero};
ghost use Rattle.iiif_request.specs.declared.request.Region.TheVariants.{Full, Percents, Pixels, Square};
ghost use Rattle.iiif_canonical.specs.Regions.{region_of};
ghost use Rattle.iiif_canonical.specs.Resolution.{resolved_of};
ghost use Rattle.iiif_canonical.specs.Sizes.{size_of};
ghost use Rattle.iiif_canonical.specs.Texts.{uri_of};
ghost use Rattle.iiif_examples.specs.Pictures.{at, by_quarters, sides};
ghost use Rattle.iiif_examples.specs.Requests.{canonical_words, decimal_of, larger, raised, request_of, upright, usual};

/// Clips at the right and the lower edge of 4 by 4. A corner outside, or no width, is empty.
pub fn regions_are_clipped()
    ensures all { region_of (Pixels 0 0 9 9) (sides 4 4) ≡ Ok (at 0 0 4 4) }
    ensures last { region_of (Pixels 3 3 5 5) (sides 4 4) ≡ Ok (at 3 3 1 1) }
    ensures outside { region_of (Pixels 4 0 1 1) (sides 4 4) ≡ Err Empty }
    ensures no_width { region_of (Pixels 1 1 0 2) (sides 4 4) ≡ Err Empty }
{}

/// Lies in the middle: with 3 columns beside it one place from the left, as 3 / 2 is rounded down.
pub fn square_lies_in_the_middle()
    ensures row { region_of Square (sides 4 1) ≡ Ok (at 1 0 1 1) }
    ensures column { region_of Square (sides 2 6) ≡ Ok (at 0 2 2 2) }
{}

/// Rounds a quarter and a half of 4 places to 1 and 2, and 0.05 hundredths of 1,000 places, a half of one, to 1.
pub fn percents_are_rounded()
    ensures quarter { region_of (Percents (decimal_of 25 0) (decimal_of 25 0) (decimal_of 500 1) (decimal_of 50 0)) (sides 4 4)
        ≡ Ok (at 1 1 2 2) }
    ensures half { region_of (Percents (decimal_of 5 2) (decimal_of 0 0) (decimal_of 100 0) (decimal_of 100 0)) (sides 1000 1)
        ≡ Ok (at 1 0 999 1) }
{}

/// Keeps the shape of 1,000 by 1: a width of 100 wants a height of 0.1, which is 0, and so does what fits 100 by 100. A half of the height,
/// 0.5, is 1.
pub fn confined_size_of_a_thin_image_is_zero()
    ensures width { size_of (record { up = false; form = Width 100 }) 1000 1 usual ≡ Err Zero }
    ensures within { size_of (record { up = false; form = Within 100 100 }) 1000 1 usual ≡ Err Zero }
    ensures percent { size_of (record { up = false; form = Percent (decimal_of 50 0) }) 1000 1 usual ≡ Ok (sides 500 1) }
{}

/// Takes 4,096 columns and refuses 4,097. The greatest size of 1,000,000 by 1 within 4,096 by 4,096 has a height of 0.004, which is 0.
pub fn sizes_stay_within_the_limits()
    ensures most { size_of (record { up = false; form = Both 4096 1 }) 1000000 1 usual ≡ Ok (sides 4096 1) }
    ensures above { size_of (record { up = false; form = Both 4097 1 }) 1000000 1 usual ≡ Err Limit }
    ensures max { size_of (record { up = false; form = Max }) 1000000 1 usual ≡ Err Zero }
    ensures fit { size_of (record { up = false; form = Max }) 8192 6144 usual ≡ Ok (sides 4096 3072) }
{}

/// Refuses 8 columns of 4, and 100.1 hundredths even though these are 4.004 columns, which is 4. With a `^` the latter is taken, and 8
/// columns are what this server doesn't do.
pub fn larger_sizes_need_the_caret()
    ensures wide { size_of (record { up = false; form = Width 8 }) 4 4 usual ≡ Err Larger }
    ensures percent { size_of (record { up = false; form = Percent (decimal_of 1001 1) }) 4 4 usual ≡ Err Larger }
    ensures raised_percent { size_of (record { up = true; form = Percent (decimal_of 1001 1) }) 4 4 usual ≡ Ok (sides 4 4) }
    ensures raised_wide { size_of (record { up = true; form = Width 8 }) 4 4 usual ≡ Err Upscale }
    ensures raised_max { size_of (record { up = true; form = Max }) 4 4 usual ≡ Err Upscale }
    ensures smaller { size_of (record { up = true; form = Within 2 9 }) 4 4 usual ≡ Ok (sides 2 2) }
{}

/// Grows up to the limits where a server scales up: 2 by 1 fits 8 by 8 as 8 by 4.
pub fn sizes_grow_up_to_the_limits()
    ensures max { size_of (record { up = true; form = Max }) 4 4 (larger 8) ≡ Ok (sides 8 8) }
    ensures within { size_of (record { up = true; form = Within 9 9 }) 2 1 (larger 8) ≡ Ok (sides 8 4) }
    ensures above { size_of (record { up = true; form = Width 5000 }) 4 4 (larger 4096) ≡ Err Limit }
    ensures without { size_of (record { up = false; form = Width 8 }) 4 4 (larger 4096) ≡ Err Larger }
{}

/// Takes 360 degrees for none, and gray of a gray image for its default.
pub fn requests_come_to_plain_values()
    ensures gray { resolved_of (request_of (Pixels 1 2 9 9) false (Width 1) true 360 Gray) (sides 4 4) kind.Gray usual
        ≡ Ok (record { rect = at 1 2 3 2; size = sides 1 1; turn = by_quarters true 0; quality = Default }) }
    ensures rgb { resolved_of (request_of (Pixels 1 2 9 9) false (Height 1) false 270 Gray) (sides 4 4) kind.Rgb usual
        ≡ Ok (record { rect = at 1 2 3 2; size = sides 2 1; turn = by_quarters false 3; quality = Gray }) }
{}

/// Writes `full` and `max` where they mean the same, else the clipped region and both sides.
pub fn canonical_form_is_written_after_clipping()
    ensures all { canonical_words (request_of (Pixels 0 0 9 9) false Max false 360 Color) (sides 4 4) kind.Gray usual
        ≡ Ok (codes "full/max/0/default.tif") }
    ensures clipped { canonical_words (upright (Pixels 3 3 5 5) Max) (sides 4 4) kind.Gray usual ≡ Ok (codes "3,3,1,1/max/0/default.tif") }
    ensures square { canonical_words (upright Square Max) (sides 4 1) kind.Gray usual ≡ Ok (codes "1,0,1,1/max/0/default.tif") }
    ensures width { canonical_words (upright Full (Width 2)) (sides 4 4) kind.Gray usual ≡ Ok (codes "full/2,2/0/default.tif") }
    ensures raised { canonical_words (raised Full (Within 2 9)) (sides 4 4) kind.Gray usual ≡ Ok (codes "full/2,2/0/default.tif") }
    ensures percent { canonical_words (upright Full (Percent (decimal_of 50 0))) (sides 1000 1) kind.Gray usual
        ≡ Ok (codes "full/500,1/0/default.tif") }
    ensures turned { canonical_words (request_of Full false Max true 180 Bitonal) (sides 4 4) kind.Rgb usual
        ≡ Ok (codes "full/max/!180/bitonal.tif") }
    ensures refused { canonical_words (upright Full (Width 100)) (sides 1000 1) kind.Gray usual ≡ Err Zero }
{}

/// Writes a `^`, escaped, where a side grows: `^max` where the size is that of `^max`, else both sides.
pub fn canonical_form_of_a_larger_size_has_the_caret()
    ensures sides { canonical_words (raised (Pixels 0 0 2 2) (Both 3 3)) (sides 4 4) kind.Gray (larger 4096)
        ≡ Ok (codes "0,0,2,2/%5E3,3/0/default.tif") }
    ensures max { canonical_words (raised Full (Width 8)) (sides 4 4) kind.Gray (larger 8) ≡ Ok (codes "full/%5Emax/0/default.tif") }
    ensures smaller { canonical_words (raised Full (Width 2)) (sides 4 4) kind.Gray (larger 8) ≡ Ok (codes "full/2,2/0/default.tif") }
{}

/// Escapes every byte of the identifier but letters, digits, `-`, `.`, `_` and `~`.
pub fn identifiers_are_escaped_in_links()
    ensures slash { uri_of (codes "http://localhost/iiif") (codes "a/b") (upright Full Max)
        ≡ codes "http://localhost/iiif/a%2Fb/full/max/0/default.tif" }
    ensures others { uri_of (codes "http://localhost") (codes "Z9-._~ %") (upright Full Max)
        ≡ codes "http://localhost/Z9-._~%20%25/full/max/0/default.tif" }
{}
