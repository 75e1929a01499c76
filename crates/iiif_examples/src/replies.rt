//! Replies of a server to whole targets. Its one image is named `a`: the file of the ramp, 4 by 4.
#![tactic(auto, unfolding(crate::proofs::Computing::replies))]

ghost use Rattle.std.specs.Prelude.{◌≡◌, ◌++◌, codes, drop, false, None, Some, [], ◌∷◌};
ghost use Rattle.iiif_request.specs.declared.request.Refusal.TheVariants.{Empty, Identifier, Path, Quality};
ghost use Rattle.iiif_tile_group.specs.Collection.{refusal_of_name};
ghost use Rattle.iiif_tile_group.specs.declared.catalogue.AddFault.TheVariants.{Name, Twice};
ghost use Rattle.iiif_answers.specs.Answers.{described, given, redirect, refused};
ghost use Rattle.iiif_answers.specs.Responses.{response_of, written};
ghost use Rattle.iiif_answers.specs.Sent.{text_of};
ghost use Rattle.iiif_answers.specs.declared.part.Part.TheVariants.{Body, Head};
ghost use Rattle.iiif_examples.specs.Pictures.{sides};
ghost use Rattle.iiif_examples.specs.Replies.{IsReplied, half_turned, ramp_item};
ghost use Rattle.iiif_examples.specs.Settings.{base, serving};

/// Reads the file, averages 2 by 2 places to 25 45 / 105 125, and turns these to 105 25 / 125 45. The canonical form is `full/2,2/90`.
pub fn target_has_its_image()
    ensures { IsReplied (codes "/iiif/a/full/2,/90/default.tif") (given half_turned) }
{}

/// Sends that image as a file of 174 + 4 bytes, with a link to its canonical form.
pub fn image_is_sent_with_its_canonical_link()
    ensures head { text_of (written (Head false) (response_of (serving base 2 4096) (given half_turned)))
        ≡ codes "HTTP/1.1 200 OK\r\nContent-Type: image/tiff\r\nAccess-Control-Allow-Origin: *\r\n"
        ++ codes "Link: <http://localhost/iiif/a/full/2,2/90/default.tif>;rel=\"canonical\"\r\nContent-Length: 178\r\n\r\n" }
    ensures samples { drop 174 (text_of (written Body (response_of (serving base 2 4096) (given half_turned)))) ≡ 105 ∷ 25 ∷ 125 ∷ 45 ∷ [] }
{}

/// Sends the client of a base URI on, and describes an image by its sides.
pub fn base_uri_and_information_have_replies()
    ensures base { IsReplied (codes "/iiif/a") (redirect ramp_item) }
    ensures information { IsReplied (codes "/iiif/a/info.json") (described ramp_item (sides 4 4)) }
{}

/// Refuses a broken escape; then a name that no image has, whatever stands behind it; then a word, `best`, before `jpg`; then column 4 of
/// 4.
pub fn first_check_that_fails_is_replied()
    ensures path { IsReplied (codes "/iiif/a%2/full/max/0/default.tif") (refused Path) }
    ensures name { IsReplied (codes "/iiif/zz/bad/max/0/default.tif") (refused Identifier) }
    ensures word { IsReplied (codes "/iiif/a/full/max/0/best.jpg") (refused Quality) }
    ensures region { IsReplied (codes "/iiif/a/4,0,1,1/max/0/default.tif") (refused Empty) }
{}

/// Refuses an empty name, and one that an image has.
pub fn names_of_images_are_checked()
    ensures empty { refusal_of_name (ramp_item ∷ []) (codes "") ≡ Some Name }
    ensures twice { refusal_of_name (ramp_item ∷ []) (codes "a") ≡ Some Twice }
    ensures other { refusal_of_name (ramp_item ∷ []) (codes "b") ≡ None }
{}
