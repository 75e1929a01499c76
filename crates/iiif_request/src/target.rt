//! Request targets: split into segments and percent-decoded (RFC 3986, sections 2.1, 3.3 and 3.4; IIIF Image API 3.0,
//! sections 2, 3 and 9).

ghost use Rattle.std.specs.Prelude.{◌≡◌, ◌==◌, ◌∷◌, [], IfOk, MatchOption, option_map, position, string_bytes};
ghost use Rattle.std.specs.List.{before_first, after_first, slice_split};
ghost use Rattle.iiif_request.specs.Code.{begins_with_digits, has_whole_escapes, text_of, identifier_of, words_of, path_of, behind};
ghost use Rattle.iiif_request.specs.Code.{asked_by, asked_of, Gives, IsCounted};
ghost use Rattle.iiif_request.specs.Targets.{AsksFor, HasCountOfResource, Resource, resource_of};
ghost use Rattle.iiif_request.specs.Words.{texts};

use iiif_fault::Numbered;
use percent_encoding::{DecodeError, percent_decode};
use std::alloc::Global;
use thiserror::Error;

/// Words of an image request, percent-decoded (IIIF Image API 3.0, section 2.1).
#[derive(Debug, Drop, PartialEq, Eq)]
pub struct Words {
    pub region: String,
    pub size: String,
    pub rotation: String,
    pub quality: String,
    pub format: String,
}

/// Resource that a target asks for, with the image's decoded identifier (IIIF Image API 3.0, section 2).
#[derive(Debug, Drop, PartialEq, Eq)]
pub enum Target {
    /// The image's base URI, `{identifier}`.
    Base(String),
    /// The image's information, `{identifier}/info.json`.
    Info(String),
    /// An image, `{identifier}/{region}/{size}/{rotation}/{quality}.{format}`.
    Image(String, Words),
}

/// Fault of `split`, by number: 1 `Path`, 2 `NoMemory`.
#[derive(Clone, Copy, Debug, PartialEq, Eq, Error)]
pub enum SplitFault {
    /// The path doesn't begin with the prefix, has another count of segments than a resource, a segment has a broken escape or
    /// isn't UTF-8, or the identifier is empty.
    #[error("the path names nothing")]
    Path,
    /// Memory for a decoded text ran out.
    #[error("out of memory")]
    NoMemory,
}

impl Numbered for SplitFault {
    ghost use Rattle.iiif_request.specs.Refusals.{fault_number};

    ghost number_of = { fault_number };

    fn number(&self) -> u8 {
        match self {
            SplitFault::Path => 1,
            SplitFault::NoMemory => 2,
        }
    }
}

/// Returns whether two hexadecimal digits come first.
fn begins_with_digits(part: &[u8]) -> bool
    ensures { result ≡ begins_with_digits part.now }
{
    part.len() >= 2 && part[0].is_ascii_hexdigit() && part[1].is_ascii_hexdigit()
}

/// Returns whether two hexadecimal digits follow each `%`.
fn has_whole_escapes(raw: &[u8]) -> bool
    ensures { result ≡ has_whole_escapes raw.now }
{
    raw.split(|b| *b == b'%').skip(1).all(begins_with_digits)
}

/// Percent-decodes a segment.
fn decode_segment(alloc: Global, raw: &[u8]) -> Result<String, SplitFault>
    ensures { Gives string_bytes result (text_of raw.now) }
{
    if !has_whole_escapes(raw) {
        return Err(SplitFault::Path);
    }
    let text = match percent_decode(raw).decode_utf8(alloc) {
        Ok(text) => text,
        Err(DecodeError::Utf8(_)) => return Err(SplitFault::Path),
        Err(DecodeError::OutOfMemory) => return Err(SplitFault::NoMemory),
    };
    let Ok(text) = text.into_owned(alloc) else {
        return Err(SplitFault::NoMemory);
    };
    Ok(text)
}

/// Percent-decodes an identifier, and refuses an empty one.
fn decode_identifier(alloc: Global, raw: &[u8]) -> Result<String, SplitFault>
    ensures { Gives string_bytes result (identifier_of (text_of raw.now)) }
{
    let id = decode_segment(alloc, raw)?;
    if id.is_empty() {
        return Err(SplitFault::Path);
    }
    Ok(id)
}

/// Splits the last segment at its first dot: the quality and the format, which is empty without a dot.
fn split_at_dot(last: &str) -> (&str, &str)
    ensures before { result.0.now ≡ before_first (λ b. b == 46) last.now }
    ensures behind { result.1.now ≡ after_first (λ b. b == 46) last.now }
{
    match last.split_once('.') {
        Some((before, behind)) => (before, behind),
        None => (last, ""),
    }
}

/// Percent-decodes four segments as the five words of an image.
fn decode_words(
    alloc: Global,
    region: &[u8],
    size: &[u8],
    rotation: &[u8],
    last: &[u8],
) -> Result<Words, SplitFault>
    ensures { Gives texts result
        (words_of (text_of region.now) (text_of size.now) (text_of rotation.now) (text_of last.now)) }
{
    let region = decode_segment(alloc, region)?;
    let size = decode_segment(alloc, size)?;
    let rotation = decode_segment(alloc, rotation)?;
    let last = decode_segment(alloc, last)?;
    let (quality, format) = split_at_dot(last.as_str());
    let Ok(quality) = String::from_str(alloc, quality) else {
        return Err(SplitFault::NoMemory);
    };
    let Ok(format) = String::from_str(alloc, format) else {
        return Err(SplitFault::NoMemory);
    };
    Ok(Words {
        region,
        size,
        rotation,
        quality,
        format,
    })
}

/// Decodes one segment: a base URI.
fn decode_base(alloc: Global, id: &[u8]) -> Result<Target, SplitFault>
    ensures { Gives resource_of result (asked_by (id.now ∷ [])) }
{
    Ok(Target::Base(decode_identifier(alloc, id)?))
}

/// Decodes two segments: an image's information.
fn decode_information(alloc: Global, id: &[u8], name: &[u8]) -> Result<Target, SplitFault>
    ensures { Gives resource_of result (asked_by (id.now ∷ name.now ∷ [])) }
{
    let id = decode_identifier(alloc, id)?;
    if decode_segment(alloc, name)?.as_str() != "info.json" {
        return Err(SplitFault::Path);
    }
    Ok(Target::Info(id))
}

/// Decodes five segments: an image.
fn decode_image(
    alloc: Global,
    id: &[u8],
    region: &[u8],
    size: &[u8],
    rotation: &[u8],
    last: &[u8],
) -> Result<Target, SplitFault>
    ensures { Gives resource_of result
        (asked_by (id.now ∷ region.now ∷ size.now ∷ rotation.now ∷ last.now ∷ [])) }
{
    let id = decode_identifier(alloc, id)?;
    let words = decode_words(alloc, region, size, rotation, last)?;
    Ok(Target::Image(id, words))
}

/// Finds the first such byte.
fn find_byte(text: &[u8], byte: u8) -> Option<usize>
    ensures { result ≡ position (λ b. b == byte) text.now }
{
    text.iter().position(|b| *b == byte)
}

/// Splits a path at its first slash.
fn split_at_slash(path: &[u8]) -> Option<(&[u8], &[u8])>
    ensures { MatchOption result
        (slice_split (λ b. b == 47) path.now ≡ path.now ∷ [])
        (λ p. slice_split (λ b. b == 47) path.now ≡ p.0.now ∷ slice_split (λ b. b == 47) p.1.now) }
{
    match find_byte(path, b'/') {
        Some(end) => Some((&path[..end], path.split_at(end + 1).1)),
        None => None,
    }
}

/// Splits a path at its slashes, and decodes its segments where there are one, two or five.
fn split_path(alloc: Global, path: &[u8]) -> Result<Target, SplitFault>
    ensures gives { Gives resource_of result (asked_by (slice_split (λ b. b == 47) path.now)) }
    ensures counted { result ≡ Err SplitFault.NoMemory → IsCounted (slice_split (λ b. b == 47) path.now) }
{
    let Some((id, rest)) = split_at_slash(path) else {
        return decode_base(alloc, path);
    };
    let Some((region, rest)) = split_at_slash(rest) else {
        return decode_information(alloc, id, rest);
    };
    let Some((size, rest)) = split_at_slash(rest) else {
        return Err(SplitFault::Path);
    };
    let Some((rotation, last)) = split_at_slash(rest) else {
        return Err(SplitFault::Path);
    };
    match split_at_slash(last) {
        Some(_) => Err(SplitFault::Path),
        None => decode_image(alloc, id, region, size, rotation, last),
    }
}

/// Strips a target's query: all from the first question mark on.
fn strip_query(target: &[u8]) -> &[u8]
    ensures { result.now ≡ path_of target.now }
{
    match find_byte(target, b'?') {
        Some(end) => &target[..end],
        None => target,
    }
}

/// Strips a front; `None` where the text begins with something else.
fn strip_front<'t>(front: &[u8], text: &'t [u8]) -> Option<&'t [u8]>
    ensures { option_map (λ s. s.now) result ≡ behind front.now text.now }
{
    text.strip_prefix(front)
}

/// Strips a target's query, prefix and slash, and splits the rest.
fn split_target(alloc: Global, prefix: &[u8], target: &[u8]) -> Result<Target, SplitFault>
    ensures gives { Gives resource_of result (asked_of prefix.now target.now) }
    ensures counted { result ≡ Err SplitFault.NoMemory → HasCountOfResource prefix.now target.now }
{
    let Some(rooted) = strip_front(prefix, strip_query(target)) else {
        return Err(SplitFault::Path);
    };
    let Some(path) = strip_front(b"/", rooted) else {
        return Err(SplitFault::Path);
    };
    split_path(alloc, path)
}

/// Splits a request target: cuts the path behind the prefix and a slash at its slashes, and percent-decodes each segment. It
/// leaves a query unread. The text is case-sensitive, and the prefix may be empty.
///
/// # Errors
///
/// `Path` where the target asks for nothing; `NoMemory` where memory for a text runs out. Segments are counted before any is
/// decoded, so a target of another count takes no memory.
pub fn split(alloc: Global, prefix: &[u8], target: &[u8]) -> Result<Target, SplitFault>
    ensures target { IfOk result (λ t. AsksFor prefix.now target.now (resource_of t)) }
    ensures path { result ≡ Err SplitFault.Path
        → ¬ ((r : Resource) × AsksFor prefix.now target.now r) }
    ensures memory { result ≡ Err SplitFault.NoMemory → HasCountOfResource prefix.now target.now }
{
    split_target(alloc, prefix, target)
}
