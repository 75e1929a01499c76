//! Parsing: the five words of an image request become a `Request` or the first refusal.

ghost use Rattle.std.specs.Prelude.{◌≡◌, IfOk};
ghost use Rattle.iiif_request.specs.Code.{quality_of, request_of};
ghost use Rattle.iiif_request.specs.Requests.{HasShortDecimals, HasSmallNumbers};
ghost use Rattle.iiif_request.specs.Spells.{Says};
ghost use Rattle.iiif_request.specs.Words.{texts};

use crate::region::parse_region;
use crate::rotation::parse_rotation;
use crate::size::parse_size;
use crate::{Refusal, Request, Words};
use iiif_pixel::Quality;

/// Parses a quality (IIIF Image API 3.0, section 4.4); `None` where the text spells none.
fn parse_quality(text: &str) -> Option<Quality>
    ensures { result ≡ quality_of text.now }
{
    match text {
        "color" => Some(Quality::Color),
        "gray" => Some(Quality::Gray),
        "bitonal" => Some(Quality::Bitonal),
        "default" => Some(Quality::Default),
        _ => None,
    }
}

/// Parses one word after the other.
fn parse_words(words: &Words) -> Result<Request, Refusal>
    ensures { result ≡ request_of (texts words.now) }
{
    let region = parse_region(words.region.as_str()).ok_or(Refusal::Region)?;
    let size = parse_size(words.size.as_str()).ok_or(Refusal::Size)?;
    let rotation = parse_rotation(words.rotation.as_str()).ok_or(Refusal::Rotation)?;
    let quality = parse_quality(words.quality.as_str()).ok_or(Refusal::Quality)?;
    if words.format.as_str() != "tif" {
        return Err(Refusal::Format);
    }
    Ok(Request {
        region,
        size,
        rotation,
        quality,
    })
}

/// Parses the five decoded words of an image request (IIIF Image API 3.0, sections 4.1 to 4.5). It takes no memory.
///
/// # Errors
///
/// The first of `Region`, `Size`, `Rotation`, `Quality` and `Format` whose word spells nothing of its kind.
pub fn parse(words: &Words) -> Result<Request, Refusal>
    ensures says { Says (texts words.now) result }
    ensures short { IfOk result HasShortDecimals }
    ensures small { IfOk result HasSmallNumbers }
{
    parse_words(words)
}
