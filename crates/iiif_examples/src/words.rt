//! Resources that targets ask for, and requests that words spell.
#![tactic(auto, unfolding(crate::proofs::Computing::words))]

ghost use Rattle.std.specs.Prelude.{◌≡◌, false, true, codes, Ok, Err};
ghost use Rattle.iiif_pixel.specs.declared.geometry.Quality.TheVariants.{Color, Default, Gray};
ghost use Rattle.iiif_request.specs.Spells.{Says};
ghost use Rattle.iiif_request.specs.Targets.{AsksFor, Resource, base, image, information};
ghost use Rattle.iiif_request.specs.declared.request.Form.TheVariants.{Max, Width, Within};
ghost use Rattle.iiif_request.specs.declared.request.Refusal.TheVariants as refusal;
ghost use Rattle.iiif_request.specs.declared.request.Region.TheVariants.{Full, Percents, Pixels};
ghost use Rattle.iiif_examples.specs.Requests.{decimal_of, request_of, upright, words};

/// Cuts a path behind its prefix into one segment, two or five, and decodes each: `%2F` is no slash between segments. What stands behind a
/// `?` isn't read.
pub fn targets_ask_for_resources()
    ensures base { AsksFor (codes "/iiif") (codes "/iiif/a") (base (codes "a")) }
    ensures information { AsksFor (codes "/iiif") (codes "/iiif/a/info.json?full/max") (information (codes "a")) }
    ensures image { AsksFor (codes "/iiif") (codes "/iiif/a%2Fb/full/%5E2,/0/default.tif")
        (image (codes "a/b") (words (codes "full") (codes "^2,") (codes "0") (codes "default") (codes "tif"))) }
    ensures empty_format { AsksFor (codes "") (codes "/a/full/max/0/default")
        (image (codes "a") (words (codes "full") (codes "max") (codes "0") (codes "default") (codes ""))) }
{}

/// Has another prefix, an empty identifier, three segments, one hexadecimal digit behind a `%`, or a byte that is no UTF-8.
pub fn other_targets_ask_for_nothing()
    ensures prefix { (r : Resource) → ¬ (AsksFor (codes "/iiif") (codes "/image/a") r) }
    ensures empty { (r : Resource) → ¬ (AsksFor (codes "/iiif") (codes "/iiif//full/max/0/default.tif") r) }
    ensures three { (r : Resource) → ¬ (AsksFor (codes "/iiif") (codes "/iiif/a/full/max") r) }
    ensures escape { (r : Resource) → ¬ (AsksFor (codes "/iiif") (codes "/iiif/a%2/full/max/0/default.tif") r) }
    ensures byte { (r : Resource) → ¬ (AsksFor (codes "/iiif") (codes "/iiif/%FF") r) }
{}

/// Reads numbers with leading zeros and decimals: `50.0` is 500 with one digit behind the point. `^!2,9` may enlarge, and fits 2 by 9.
pub fn words_spell_requests()
    ensures plain { Says (words (codes "full") (codes "max") (codes "0") (codes "default") (codes "tif")) (Ok (upright Full Max)) }
    ensures pixels { Says (words (codes "0,00,9,09") (codes "2,") (codes "90") (codes "color") (codes "tif"))
        (Ok (request_of (Pixels 0 0 9 9) false (Width 2) false 90 Color)) }
    ensures percents { Says (words (codes "pct:25,0.5,50.0,7") (codes "^!2,9") (codes "!270") (codes "gray") (codes "tif"))
        (Ok (
        request_of (Percents (decimal_of 25 0) (decimal_of 5 1) (decimal_of 500 1) (decimal_of 7 0)) true (Within 2 9) true 270 Gray)) }
{}

/// Names the first word that spells nothing: three numbers are no region, nor is one of ten digits; `full` is no size; 45 and 361 degrees
/// are no quarters.
pub fn first_wrong_word_is_refused()
    ensures region { Says (words (codes "bad") (codes "bad") (codes "0") (codes "default") (codes "tif")) (Err refusal.Region) }
    ensures three { Says (words (codes "1,2,3") (codes "max") (codes "0") (codes "default") (codes "tif")) (Err refusal.Region) }
    ensures ten { Says (words (codes "0,0,1,1234567890") (codes "max") (codes "0") (codes "default") (codes "tif")) (Err refusal.Region) }
    ensures size { Says (words (codes "full") (codes "full") (codes "0") (codes "default") (codes "tif")) (Err refusal.Size) }
    ensures rotation { Says (words (codes "full") (codes "max") (codes "45") (codes "best") (codes "tif")) (Err refusal.Rotation) }
    ensures turn { Says (words (codes "full") (codes "max") (codes "361") (codes "default") (codes "tif")) (Err refusal.Rotation) }
    ensures quality { Says (words (codes "full") (codes "max") (codes "0.0") (codes "best") (codes "jpg")) (Err refusal.Quality) }
    ensures format { Says (words (codes "full") (codes "max") (codes "360") (codes "default") (codes "jpg")) (Err refusal.Format) }
{}
