//! The images that requests have: region, then size, then rotation, then quality of a whole picture, or the first refusal.
#![tactic(auto, unfolding(crate::proofs::Computing::requests))]

ghost use Rattle.std.specs.Prelude.{◌≡◌, false, true, [], ◌∷◌, Ok, Err};
ghost use Rattle.iiif_pixel.specs.declared.geometry.Quality.TheVariants.{Bitonal, Color, Default, Gray};
ghost use Rattle.iiif_request.specs.declared.request.Form.TheVariants.{Both, Max, Percent, Width, Within};
ghost use Rattle.iiif_request.specs.declared.request.Refusal.TheVariants.{Empty, Larger, Limit, Upscale, Zero};
ghost use Rattle.iiif_request.specs.declared.request.Region.TheVariants.{Full, Percents, Pixels, Square};
ghost use Rattle.iiif_canonical.specs.Images.{image};
ghost use Rattle.iiif_examples.specs.Pictures.{deep_edge, faint_red, gray_16, gray_8, half_ramp, ramp, speck, white_row};
ghost use Rattle.iiif_examples.specs.Requests.{decimal_of, larger, raised, request_of, upright, usual};

/// Averages the whole picture, and cuts parts out of it: `square` of a row of four is its second place.
pub fn image_is_scaled_from_its_region()
    ensures width { image ramp (upright Full (Width 2)) usual ≡ Ok half_ramp }
    ensures both { image ramp (upright Full (Both 3 3)) usual ≡ Ok (gray_8 3 3 (13 ∷ 25 ∷ 38 ∷ 63 ∷ 75 ∷ 88 ∷ 113 ∷ 125 ∷ 138 ∷ [])) }
    ensures last { image ramp (upright (Pixels 3 3 5 5) Max) usual ≡ Ok (gray_8 1 1 (150 ∷ [])) }
    ensures square { image speck (upright Square Max) usual ≡ Ok (gray_8 1 1 (1 ∷ [])) }
    ensures percents { image ramp (upright (Percents (decimal_of 25 0) (decimal_of 25 0) (decimal_of 50 0) (decimal_of 50 0)) Max) usual
        ≡ Ok (gray_8 2 2 (50 ∷ 60 ∷ 90 ∷ 100 ∷ [])) }
    ensures rounded { image speck (upright Full (Both 1 1)) usual ≡ Ok (gray_8 1 1 (0 ∷ [])) }
{}

/// Turns the scaled picture, 25 45 / 105 125. 360 degrees leave a picture as it is.
pub fn image_is_turned_after_it_is_scaled()
    ensures quarter { image ramp (request_of Full false (Width 2) false 90 Default) usual ≡ Ok (gray_8 2 2 (105 ∷ 25 ∷ 125 ∷ 45 ∷ [])) }
    ensures mirrored { image ramp (request_of Full false (Width 2) true 90 Default) usual ≡ Ok (gray_8 2 2 (125 ∷ 45 ∷ 105 ∷ 25 ∷ [])) }
    ensures half { image ramp (request_of Full false (Width 2) true 180 Default) usual ≡ Ok (gray_8 2 2 (105 ∷ 125 ∷ 25 ∷ 45 ∷ [])) }
    ensures whole { image ramp (request_of (Pixels 0 0 9 9) false Max false 360 Color) usual ≡ Ok ramp }
{}

/// Makes gray, and black and white, of the averages: of red 1 gray is 0.299, which is 0; of 0 and 65,535 the average is 32,768, which is
/// white, and of 0 and 65,534 it is 32,767, which is black.
pub fn quality_comes_last()
    ensures gray { image faint_red (request_of Full false (Both 1 1) false 0 Gray) usual ≡ Ok (gray_8 1 1 (0 ∷ [])) }
    ensures white { image deep_edge (request_of Full false (Both 1 1) false 0 Bitonal) usual ≡ Ok (gray_8 1 1 (255 ∷ [])) }
    ensures black { image (gray_16 2 1 (0 ∷ 65534 ∷ [])) (request_of Full false (Both 1 1) false 0 Bitonal) usual
        ≡ Ok (gray_8 1 1 (0 ∷ [])) }
    ensures all_white { image white_row (request_of Full false Max false 0 Bitonal) usual ≡ Ok white_row }
{}

/// Refuses what is empty, then what is too large.
pub fn first_refusal_takes_the_place_of_the_image()
    ensures outside { image ramp (upright (Pixels 4 0 1 1) (Width 8)) usual ≡ Err Empty }
    ensures no_width { image ramp (upright (Pixels 1 1 0 2) Max) usual ≡ Err Empty }
    ensures larger { image ramp (upright Full (Width 8)) usual ≡ Err Larger }
    ensures raised { image ramp (raised Full (Width 8)) usual ≡ Err Upscale }
    ensures zero { image speck (upright Full (Width 1)) usual ≡ Err Zero }
{}

/// Averages where a side grows, on a server that scales up: 0 10 / 40 50 to 3 by 3. `^2,` of 4 columns is the half again.
pub fn image_may_be_larger_where_the_server_scales_up()
    ensures grown { image ramp (raised (Pixels 0 0 2 2) (Both 3 3)) (larger 4096)
        ≡ Ok (gray_8 3 3 (0 ∷ 5 ∷ 10 ∷ 20 ∷ 25 ∷ 30 ∷ 40 ∷ 45 ∷ 50 ∷ [])) }
    ensures rounded { image speck (raised (Pixels 0 0 2 1) (Both 3 1)) (larger 4096) ≡ Ok (gray_8 3 1 (0 ∷ 1 ∷ 1 ∷ [])) }
    ensures smaller { image ramp (raised Full (Width 2)) (larger 4096) ≡ Ok half_ramp }
    ensures above { image ramp (raised Full (Width 5000)) (larger 4096) ≡ Err Limit }
{}
