//! The texts that are sent, byte for byte, and the settings of a server. A line of a head ends in CR LF, that of a refusal's body in LF.
#![tactic(auto, unfolding(crate::proofs::Computing::answers))]

ghost use Rattle.std.specs.Prelude.{◌≡◌, ◌++◌, codes, false, true, length, None, Some, [], ◌∷◌};
ghost use Rattle.iiif_tiff_write.specs.declared.kind.OutKind.TheVariants.{Gray};
ghost use Rattle.iiif_request.specs.declared.request.Form.TheVariants.{Max};
ghost use Rattle.iiif_request.specs.declared.request.Refusal.TheVariants.{Head as BadHead, Method, Upscale};
ghost use Rattle.iiif_request.specs.declared.request.Region.TheVariants.{Full};
ghost use Rattle.iiif_info.specs.Information.{scale_factors};
ghost use Rattle.iiif_answers.specs.BaseUrl.{is_base_url, path_of};
ghost use Rattle.iiif_answers.specs.Calls.{is_answered, part_of};
ghost use Rattle.iiif_answers.specs.Responses.{image_response, redirect_response, refusal_response, source_fault, want_of_memory, written};
ghost use Rattle.iiif_answers.specs.Sent.{text_of};
ghost use Rattle.iiif_answers.specs.Settings.{refusal_of};
ghost use Rattle.iiif_answers.specs.declared.config.ConfigFault.TheVariants.{Base, Edge};
ghost use Rattle.iiif_answers.specs.declared.part.Part.TheVariants.{Body, Head, Whole};
ghost use Rattle.iiif_examples.specs.Files.{written_ramp};
ghost use Rattle.iiif_examples.specs.Pictures.{ramp};
ghost use Rattle.iiif_examples.specs.Requests.{upright};
ghost use Rattle.iiif_examples.specs.Settings.{base, serving};

/// Sends the client of `/iiif/a` to its information.
pub fn base_uri_is_redirected()
    ensures { text_of (written (Whole false) (redirect_response base (codes "a")))
        ≡ codes "HTTP/1.1 303 See Other\r\nAccess-Control-Allow-Origin: *\r\nLocation: http://localhost/iiif/a/info.json\r\n"
        ++ codes "Content-Length: 0\r\n\r\n" }
{}

/// Names the methods that are answered where another was asked for. The body is a line of ten bytes.
pub fn other_methods_are_refused()
    ensures post { is_answered (codes "POST") ≡ false }
    ensures get { is_answered (codes "GET") ≡ true }
    ensures text { text_of (written (Whole false) (refusal_response Method))
        ≡ codes "HTTP/1.1 405 Method Not Allowed\r\nContent-Type: text/plain\r\nAccess-Control-Allow-Origin: *\r\nAllow: GET, HEAD\r\n"
        ++ codes "Content-Length: 10\r\n\r\nQ2 method\n" }
{}

/// Tells the length of the image, 190 bytes, and sends none of them.
pub fn head_alone_tells_the_length_of_the_image()
    ensures part { part_of (codes "HEAD") false ≡ Head false }
    ensures text { text_of (written (Head false) (image_response base (codes "a") (upright Full Max) ramp Gray))
        ≡ codes "HTTP/1.1 200 OK\r\nContent-Type: image/tiff\r\nAccess-Control-Allow-Origin: *\r\n"
        ++ codes "Link: <http://localhost/iiif/a/full/max/0/default.tif>;rel=\"canonical\"\r\nContent-Length: 190\r\n\r\n" }
    ensures body { text_of (written Body (image_response base (codes "a") (upright Full Max) ramp Gray)) ≡ written_ramp }
{}

/// Says that the connection closes, as behind a bad head; and answers 501 where a larger image was asked for.
pub fn refusals_are_lines()
    ensures head { text_of (written (Whole true) (refusal_response BadHead))
        ≡ codes "HTTP/1.1 400 Bad Request\r\nContent-Type: text/plain\r\nAccess-Control-Allow-Origin: *\r\nContent-Length: 8\r\n"
        ++ codes "Connection: close\r\n\r\nQ1 head\n" }
    ensures upscale { text_of (written (Whole false) (refusal_response Upscale))
        ≡ codes "HTTP/1.1 501 Not Implemented\r\nContent-Type: text/plain\r\nAccess-Control-Allow-Origin: *\r\nContent-Length: 12\r\n\r\n"
        ++ codes "Q13 upscale\n" }
    ensures source { text_of (written Body source_fault) ≡ codes "L1 source\n" }
    ensures memory { text_of (written (Whole false) want_of_memory)
        ≡ codes "HTTP/1.1 500 Internal Server Error\r\nContent-Type: text/plain\r\nAccess-Control-Allow-Origin: *\r\n"
        ++ codes "Content-Length: 10\r\n\r\nL2 memory\n" }
{}

/// Doubles until a tile of 256 covers 1,000 places: 512 doesn't, 1,024 does. Two of 2 cover 4, and one of 256 covers 256.
pub fn scale_factors_end_where_one_tile_covers_the_image()
    ensures thousand { scale_factors 256 1000 ≡ 1 ∷ 2 ∷ 4 ∷ [] }
    ensures four { scale_factors 2 4 ≡ 1 ∷ 2 ∷ [] }
    ensures one { scale_factors 256 256 ≡ 1 ∷ [] }
{}

/// Refuses tiles of 5 where results have at most 4 columns, and a base without a host or with a slash at its end. The path of a base is the
/// prefix of its targets.
pub fn settings_are_checked()
    ensures taken { refusal_of (serving base 4 4) ≡ None }
    ensures edge { refusal_of (serving base 5 4) ≡ Some Edge }
    ensures slash { refusal_of (serving (codes "http://localhost/iiif/") 4 4) ≡ Some Base }
    ensures host { is_base_url (codes "http:///iiif") ≡ false }
    ensures port { is_base_url (codes "https://example.org:65536") ≡ false }
    ensures path { path_of (codes "https://example.org:8443/a/iiif") ≡ codes "/a/iiif" }
    ensures no_path { path_of (codes "http://localhost") ≡ [] }
{}
