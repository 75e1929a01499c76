//! How keys and values are spelled, what they mean, and which parts a block has. Every key is of the image `a`, which is the ramp.
#![tactic(auto, unfolding(crate::proofs::Computing::keys))]

ghost use Rattle.std.specs.Prelude.{◌≡◌, ◌++◌, None, Some, [], ◌∷◌, take};
ghost use Rattle.iiif_keys.specs.Blocks.{TileFitsIn};
ghost use Rattle.iiif_keys.specs.Bytes.{sum_key_bytes, sum_val_bytes, tile_key_bytes, tile_val_bytes};
ghost use Rattle.iiif_keys.specs.Meaning.{sum_derived, sum_meaning, sums_below, tile_below, tile_meaning};
ghost use Rattle.iiif_keys.specs.Reading.{tile_key_refusal, tile_val_refusal};
ghost use Rattle.iiif_keys.specs.declared.fault.KeyFault.TheVariants.{Field, Long, Short};
ghost use Rattle.iiif_examples.specs.Files.{with_byte};
ghost use Rattle.iiif_examples.specs.Keys.{block, half_block, shows_ramp, sum_val, tile, tile_bytes};
ghost use Rattle.iiif_examples.specs.Pictures.{at, deep_edge, gray_8, sides};

/// Writes the name behind its length, 1, and each number in four bytes, but a level in one.
pub fn keys_are_spelled_high_byte_first()
    ensures tile { tile_key_bytes (tile 2 0 0) ≡ 0 ∷ 1 ∷ 97 ∷ 0 ∷ 0 ∷ 0 ∷ 2 ∷ 0 ∷ 0 ∷ 0 ∷ 0 ∷ 0 ∷ 0 ∷ 0 ∷ 0 ∷ [] }
    ensures sum { sum_key_bytes (block (at 1 2 3 260) (sides 2 2) 1 0 4)
        ≡ 0 ∷ 1 ∷ 97 ∷ 0 ∷ 0 ∷ 0 ∷ 2 ∷ 0 ∷ 0 ∷ 0 ∷ 1 ∷ 0 ∷ 0 ∷ 0 ∷ 2 ∷ 0 ∷ 0 ∷ 0 ∷ 3 ∷ 0 ∷ 0 ∷ 1 ∷ 4
        ∷ 0 ∷ 0 ∷ 0 ∷ 2 ∷ 0 ∷ 0 ∷ 0 ∷ 2 ∷ 1 ∷ 0 ∷ 0
        ∷ 0 ∷ 0 ∷ 0 ∷ 0 ∷ 0 ∷ 4 ∷ [] }
{}

/// Writes both sides, the channels and the samples: of 16 bits 16 is added to the channels, and a sample takes two bytes. A sum takes
/// eight: 400 is 1 * 256 + 144.
pub fn values_are_spelled_high_byte_first()
    ensures tile { tile_val_bytes (record { raster = gray_8 2 1 (7 ∷ 8 ∷ []) }) ≡ 0 ∷ 0 ∷ 0 ∷ 2 ∷ 0 ∷ 0 ∷ 0 ∷ 1 ∷ 1 ∷ 7 ∷ 8 ∷ [] }
    ensures deep { tile_val_bytes (record { raster = deep_edge }) ≡ 0 ∷ 0 ∷ 0 ∷ 2 ∷ 0 ∷ 0 ∷ 0 ∷ 1 ∷ 17 ∷ 0 ∷ 0 ∷ 255 ∷ 255 ∷ [] }
    ensures sums { sum_val_bytes (sum_val (at 0 0 1 1) (400 ∷ []))
        ≡ 0 ∷ 0 ∷ 0 ∷ 0 ∷ 0 ∷ 0 ∷ 0 ∷ 0 ∷ 0 ∷ 0 ∷ 0 ∷ 1 ∷ 0 ∷ 0 ∷ 0 ∷ 1 ∷ 1 ∷ 0 ∷ 0 ∷ 0 ∷ 0 ∷ 0 ∷ 0 ∷ 1 ∷ 144 ∷ [] }
{}

/// Lacks a byte; has one more; and has an edge of 0, of 1,026 or no name.
pub fn other_bytes_are_no_keys()
    ensures whole { tile_key_refusal tile_bytes ≡ None }
    ensures cut { tile_key_refusal (take 14 tile_bytes) ≡ Some Short }
    ensures longer { tile_key_refusal (tile_bytes ++ 0 ∷ []) ≡ Some Long }
    ensures no_edge { tile_key_refusal (with_byte 6 0 tile_bytes) ≡ Some Field }
    ensures long_edge { tile_key_refusal (with_byte 5 4 tile_bytes) ≡ Some Field }
    ensures no_name { tile_key_refusal (0 ∷ 0 ∷ 0 ∷ 0 ∷ 0 ∷ 2 ∷ 0 ∷ 0 ∷ 0 ∷ 0 ∷ 0 ∷ 0 ∷ 0 ∷ 0 ∷ []) ≡ Some Field }
{}

/// Lacks a byte; and has two channels, which is told at once.
pub fn other_bytes_are_no_values()
    ensures whole { tile_val_refusal (0 ∷ 0 ∷ 0 ∷ 2 ∷ 0 ∷ 0 ∷ 0 ∷ 1 ∷ 1 ∷ 7 ∷ 8 ∷ []) ≡ None }
    ensures cut { tile_val_refusal (0 ∷ 0 ∷ 0 ∷ 2 ∷ 0 ∷ 0 ∷ 0 ∷ 1 ∷ 1 ∷ 7 ∷ []) ≡ Some Short }
    ensures two { tile_val_refusal (0 ∷ 0 ∷ 0 ∷ 2 ∷ 0 ∷ 0 ∷ 0 ∷ 1 ∷ 2 ∷ []) ≡ Some Field }
    ensures deep { tile_val_refusal (0 ∷ 0 ∷ 0 ∷ 2 ∷ 0 ∷ 0 ∷ 0 ∷ 1 ∷ 17 ∷ 0 ∷ 0 ∷ 255 ∷ []) ≡ Some Short }
{}

/// Cuts the first four places, and of a tile of edge 3 that reaches past both edges the last place.
pub fn tile_is_a_part_of_the_picture()
    ensures first { tile_meaning shows_ramp (tile 2 0 0) ≡ record { raster = gray_8 2 2 (0 ∷ 10 ∷ 40 ∷ 50 ∷ []) } }
    ensures last { tile_meaning shows_ramp (tile 3 1 1) ≡ record { raster = gray_8 1 1 (150 ∷ []) } }
{}

/// Has a place of the image where it begins inside: at column 2, and not at column 4.
pub fn tile_fits_where_it_begins_inside()
    ensures inside { TileFitsIn (sides 4 4) 1 (tile 2 1 1) }
    ensures outside { ¬ (TileFitsIn (sides 4 4) 1 (tile 2 2 0)) }
{}

/// Weighs each place by 2 * 2 where 4 columns and rows come to 2: 4 * (0 + 10 + 40 + 50) = 400. A block of level 1 has all: 16 times the
/// averages.
pub fn block_has_the_sums_of_its_part()
    ensures first { sum_meaning shows_ramp (half_block 0 0 0) ≡ sum_val (at 0 0 1 1) (400 ∷ []) }
    ensures last { sum_meaning shows_ramp (half_block 0 1 1) ≡ sum_val (at 1 1 1 1) (2000 ∷ []) }
    ensures all { sum_meaning shows_ramp (half_block 1 0 0) ≡ sum_val (at 0 0 2 2) (400 ∷ 720 ∷ 1680 ∷ 2000 ∷ []) }
{}

/// Reaches into a second result column and row where 4 come to 3: there column 1 weighs 2, and rows 0 and 1 weigh 3 and 1, so that the sum
/// is 2 * (3 * 10 + 50) = 160. The next block has the other part, 2 * (3 * 20 + 60) = 240.
pub fn blocks_share_result_places()
    ensures left { sum_meaning shows_ramp (block (at 0 0 4 4) (sides 3 3) 0 0 0) ≡ sum_val (at 0 0 2 2) (200 ∷ 160 ∷ 340 ∷ 200 ∷ []) }
    ensures right { sum_meaning shows_ramp (block (at 0 0 4 4) (sides 3 3) 0 1 0) ≡ sum_val (at 1 0 2 2) (240 ∷ 600 ∷ 240 ∷ 540 ∷ []) }
{}

/// Is made of four blocks of the level below, of those that have a place of its rectangle; and at level 0 of its tile.
pub fn block_is_made_of_its_quarters()
    ensures four { sums_below (half_block 1 0 0) ≡ half_block 0 0 0 ∷ half_block 0 1 0 ∷ half_block 0 0 1 ∷ half_block 0 1 1 ∷ [] }
    ensures two { sums_below (block (at 0 1 2 3) (sides 1 1) 1 0 0)
        ≡ block (at 0 1 2 3) (sides 1 1) 0 0 0 ∷ block (at 0 1 2 3) (sides 1 1) 0 0 1 ∷ [] }
    ensures tile { tile_below (half_block 0 1 0) ≡ tile 2 1 0 }
    ensures added { sum_derived shows_ramp (half_block 1 0 0) ≡ sum_val (at 0 0 2 2) (400 ∷ 720 ∷ 1680 ∷ 2000 ∷ []) }
{}
