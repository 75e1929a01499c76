//! Which files are refused, and what the others show. The file of the ramp is `gray_sample`, 138 bytes with low bytes first: its samples
//! at 8, its directory at 24, and in that nine entries from 26 on, 12 bytes each, whose values stand in their last four bytes.
#![tactic(auto, unfolding(crate::proofs::Computing::files))]

ghost use Rattle.std.specs.Prelude.{◌≡◌, None, Some, ◌++◌, [], ◌∷◌, drop, length, take};
ghost use Rattle.iiif_pixel.specs.Operations.{bitonal};
ghost use Rattle.iiif_pixel.specs.Scaling.{scale};
ghost use Rattle.iiif_tiff.specs.Tiff.{BadField, Missing, NotTiff, Shows, TooLarge, Truncated, Unsupported, gray_sample, refusal_of};
ghost use Rattle.iiif_tiff_write.specs.File.{file};
ghost use Rattle.iiif_tiff_write.specs.declared.kind.OutKind.TheVariants.{Bitonal, Gray, Gray16, Rgb};
ghost use Rattle.iiif_examples.specs.Files.{tiled_ramp, with_byte, written_ramp};
ghost use Rattle.iiif_examples.specs.Pictures.{deep_edge, faint_red, ramp, sides, white_row};

/// Begins with neither of the two marks in full.
pub fn other_files_are_no_tiff()
    ensures short { refusal_of (take 7 gray_sample) ≡ Some NotTiff }
    ensures mixed { refusal_of (with_byte 0 77 (with_byte 1 77 gray_sample)) ≡ Some NotTiff }
{}

/// Lacks the directory from 24 on; lacks the last byte of its ninth entry, which ends at 26 + 9 * 12 = 134; and lacks what follows, which
/// nobody reads.
pub fn cut_files_are_truncated()
    ensures before { refusal_of (take 23 gray_sample) ≡ Some Truncated }
    ensures inside { refusal_of (take 133 gray_sample) ≡ Some Truncated }
    ensures behind { refusal_of (take 134 gray_sample) ≡ None }
{}

/// Says that the directory stands at 4,294,967,295, and that it has 65,535 entries.
pub fn directory_has_to_lie_in_the_file()
    ensures offset { refusal_of (with_byte 4 255 (with_byte 5 255 (with_byte 6 255 (with_byte 7 255 gray_sample)))) ≡ Some Truncated }
    ensures entries { refusal_of (with_byte 24 255 (with_byte 25 255 gray_sample)) ≡ Some Truncated }
{}

/// Moves the strip of 16 bytes: from 122 on it ends with the file, from 123 on past it. With 1,073,741,824 offsets in place of one, these
/// end past it.
pub fn strip_has_to_lie_in_the_file()
    ensures last { refusal_of (with_byte 94 122 gray_sample) ≡ None }
    ensures past { refusal_of (with_byte 94 123 gray_sample) ≡ Some Truncated }
    ensures far { refusal_of (with_byte 94 255 (with_byte 95 255 (with_byte 96 255 (with_byte 97 255 gray_sample)))) ≡ Some Truncated }
    ensures many { refusal_of (with_byte 90 0 (with_byte 93 64 gray_sample)) ≡ Some Truncated }
{}

/// Counts 15 bytes where 16 are needed; and 17, with one byte more before the directory, which is then at 25.
pub fn byte_count_may_be_above_the_need()
    ensures below { refusal_of (with_byte 130 15 gray_sample) ≡ Some (BadField 279) }
    ensures above { refusal_of (with_byte 4 25 (take 24 gray_sample ++ 0 ∷ drop 24 (with_byte 130 17 gray_sample))) ≡ None }
{}

/// Has no rows a strip; has two, so that one offset is too few; has a width of type ASCII, of 0, and of 1,000,001, which is 15 * 65,536 +
/// 66 * 256 + 65 as a LONG; and has two values for the bits of one sample.
pub fn values_have_to_be_legal()
    ensures no_rows { refusal_of (with_byte 118 0 gray_sample) ≡ Some (BadField 278) }
    ensures few_strips { refusal_of (with_byte 118 2 gray_sample) ≡ Some (BadField 273) }
    ensures ascii { refusal_of (with_byte 28 2 gray_sample) ≡ Some (BadField 256) }
    ensures no_width { refusal_of (with_byte 34 0 gray_sample) ≡ Some (BadField 256) }
    ensures wide { refusal_of (with_byte 28 4 (with_byte 34 65 (with_byte 35 66 (with_byte 36 15 gray_sample)))) ≡ Some TooLarge }
    ensures many_bits { refusal_of (with_byte 54 2 gray_sample) ≡ Some (BadField 258) }
{}

/// Writes tag 263 in place of 262.
pub fn photometric_has_no_default()
    ensures { refusal_of (with_byte 74 7 gray_sample) ≡ Some (Missing 262) }
{}

/// Has Compression 5; has a palette, PhotometricInterpretation 3; Orientation 4 and one more sample a place, by other tags in place of 278;
/// and the planes of red, green and blue one after another, PlanarConfiguration 2.
pub fn compressed_palette_and_planar_files_are_unsupported()
    ensures compressed { refusal_of (with_byte 70 5 gray_sample) ≡ Some (Unsupported 259) }
    ensures palette { refusal_of (with_byte 82 3 gray_sample) ≡ Some (Unsupported 262) }
    ensures turned { refusal_of (with_byte 110 18 gray_sample) ≡ Some (Unsupported 274) }
    ensures extra { refusal_of (with_byte 110 82 gray_sample) ≡ Some (Unsupported 338) }
    ensures planar { refusal_of (with_byte 82 2 (with_byte 106 3 (with_byte 110 28 (with_byte 118 2 gray_sample))))
        ≡ Some (Unsupported 284) }
{}

/// Says 16 bits, so that the strip needs 32 bytes and has 16.
pub fn sixteen_bits_need_two_bytes_a_sample()
    ensures { refusal_of (with_byte 58 16 gray_sample) ≡ Some (BadField 279) }
{}

/// Shows the ramp: from one strip at 8 with low bytes first, and from four tiles of 3 by 3 with high bytes first, of which three reach past
/// the edges and are padded.
pub fn samples_stand_where_the_file_says()
    ensures strip { Shows gray_sample ramp }
    ensures tiles { Shows tiled_ramp ramp }
{}

/// Writes 174 bytes and the 16 samples.
pub fn written_file_has_these_bytes()
    ensures { file ramp Gray ≡ written_ramp }
{}

/// Writes three bytes a place behind 180, and two a sample of 16 bits, the low one first: 65,535 is 255 255, and 32,768 is 0 128.
pub fn samples_are_written_behind_the_directory()
    ensures rgb { drop 180 (file faint_red Rgb) ≡ 2 ∷ 0 ∷ 0 ∷ 0 ∷ 0 ∷ 0 ∷ [] }
    ensures rgb_length { length (file faint_red Rgb) ≡ 186 }
    ensures deep { drop 174 (file deep_edge Gray16) ≡ 0 ∷ 0 ∷ 255 ∷ 255 ∷ [] }
    ensures deep_length { length (file deep_edge Gray16) ≡ 178 }
    ensures averaged { drop 174 (file (scale deep_edge (sides 1 1)) Gray16) ≡ 0 ∷ 128 ∷ [] }
{}

/// Pads each row of bits to whole bytes: nine white places are 11111111 1, the last row of the ramp is 0111, which is 112 as a byte, and
/// one white place is 1.
pub fn bits_fill_whole_bytes()
    ensures nine { drop 174 (file white_row Bitonal) ≡ 255 ∷ 128 ∷ [] }
    ensures nine_length { length (file white_row Bitonal) ≡ 176 }
    ensures rows { drop 174 (file (bitonal ramp) Bitonal) ≡ 0 ∷ 0 ∷ 0 ∷ 112 ∷ [] }
    ensures one { drop 174 (file (bitonal (scale deep_edge (sides 1 1))) Bitonal) ≡ 128 ∷ [] }
{}
