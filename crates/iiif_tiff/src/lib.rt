//! TIFF 6.0 as definitions: the fields of a file, the picture that it shows, and the files that are refused.
//!
//! The definitions stand in `specs/Tiff`; the contracts of the reader and of the writer cite them. The functions here compute
//! nothing: the contract of each is a law of the definitions.
#![tactic(auto)]

ghost use Rattle.std.specs.Prelude.{◌≡◌, ◌≤◌, ℕ, List, All, None};
ghost use Rattle.iiif_tiff.specs.Tiff.{refusal_of, AcceptedIsReadable, ShowsInverted, ShowsOnePicture, SampleIsShown};

pub mod tag;

/// Limit of the columns, and of the rows, of an image that is read.
pub const MAX_SIDE: u32 = 1_000_000;

/// Limit of the pixels of an image that is read.
pub const MAX_AREA: u64 = 1 << 32;

/// States that a file which no check refuses shows exactly one picture.
pub fn shows_one_picture()
    ensures { (bytes : List ℕ) → All (λ b. b ≤ 255) bytes → refusal_of bytes ≡ None → ShowsOnePicture bytes }
{}

/// States that a file which no check refuses has sides of 1 to 1,000,000, and at most 2^32 pixels.
pub fn accepted_is_readable()
    ensures { AcceptedIsReadable }
{}

/// States that WhiteIsZero counts each sample down from white.
pub fn white_is_zero_inverts()
    ensures { ShowsInverted }
{}

/// States that four files show the samples that a person read in them.
pub fn samples_are_shown()
    ensures { SampleIsShown }
{}
