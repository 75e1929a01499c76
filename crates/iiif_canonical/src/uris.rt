//! URIs of images and of requests: IIIF Image API 3.0, sections 2, 2.1 and 9.
ghost use Rattle.std.specs.Prelude.{◌≡◌, ◌≢◌, [], ◌++◌, IfOk, OnOk, OnErr, string_bytes};
ghost use Rattle.iiif_request.specs.Requests.{HasShortDecimals};
ghost use Rattle.iiif_canonical.specs.Escapes.{escaped};
ghost use Rattle.iiif_canonical.specs.Texts.{image_uri_of, uri_of, CanBeSpelled, LeadsTo};

use crate::texts::text;
use iiif_pixel::NoMemory;
use iiif_request::Request;
use percent_encoding::{AsciiSet, NON_ALPHANUMERIC, ascii_set, percent_encode};
use std::alloc::Global;

/// ASCII bytes that are escaped in an identifier: all but the unreserved ones (RFC 3986, section 2.3).
pub const RESERVED: AsciiSet = ascii_set!(
    NON_ALPHANUMERIC
        .remove(b'-')
        .remove(b'.')
        .remove(b'_')
        .remove(b'~')
);

/// Appends an identifier, percent-encoded (RFC 3986, sections 2.1 and 2.3).
///
/// # Errors
///
/// `NoMemory` where the text could not grow; it is then as it was.
pub fn push_escaped(out: &mut String, id: &str) -> Result<(), NoMemory>
    ensures ok { OnOk result (string_bytes out.new ≡ string_bytes out.old ++ escaped id.now) }
    ensures err { OnErr result (string_bytes out.new ≡ string_bytes out.old) }
{
    percent_encode(id.as_bytes(), RESERVED).append_to(out)
}

/// Formats the URI of an image, with no `/` at its end: the server's base, and the identifier percent-encoded.
///
/// # Errors
///
/// `NoMemory` where memory for the text runs out.
#[tactic(auto, unfolding(crate::specs::Texts::image_uri_of))]
pub fn image_uri(alloc: Global, base: &str, id: &str) -> Result<String, NoMemory>
    ensures { IfOk result (λ s. string_bytes s ≡ image_uri_of base.now id.now) }
{
    let mut uri = String::new(alloc);
    uri.push_str(base)?;
    uri.push_str("/")?;
    push_escaped(&mut uri, id)?;
    Ok(uri)
}

/// Formats the URI of a request for an image. Of a request in canonical form it is the canonical URI (IIIF Image API 3.0,
/// section 4.7).
///
/// # Errors
///
/// `NoMemory` where memory for the text runs out.
#[tactic(auto, unfolding(crate::specs::Texts::uri_of))]
pub fn uri(alloc: Global, base: &str, id: &str, request: &Request) -> Result<String, NoMemory>
    requires { HasShortDecimals request.now }
    ensures value { IfOk result (λ s. string_bytes s ≡ uri_of base.now id.now request.now) }
    ensures leads { CanBeSpelled request.now → id.now ≢ []
        → IfOk result (λ s. LeadsTo base.now id.now request.now (string_bytes s)) }
{
    let mut uri = image_uri(alloc, base, id)?;
    uri.push_str("/")?;
    uri.push_str(text(alloc, request)?.as_str())?;
    Ok(uri)
}
