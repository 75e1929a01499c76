//! Sizes: parses the second word of a request (IIIF Image API 3.0, section 4.2).

ghost use Rattle.std.specs.Prelude.{◌≡◌};
ghost use Rattle.iiif_request.specs.Code.{two_of, whole_of, cut_of, sides_of, bounds_of, pair_of, form_of, size_of};
ghost use Rattle.iiif_request.specs.declared.request.Form.TheVariants as form;

use crate::numerals::{parse_decimal, parse_whole};
use crate::region::split_at_comma;
use crate::{Form, Size};

/// Parses `w,h`, by its parts before and behind the comma.
fn parse_both(w: &[u8], h: &[u8]) -> Option<Form>
    ensures { result ≡ two_of form.Both (whole_of w.now) (whole_of h.now) }
{
    Some(Form::Both(parse_whole(w)?, parse_whole(h)?))
}

/// Parses `!w,h`, by its parts behind the `!` and behind the comma.
fn parse_within(w: &[u8], h: &[u8]) -> Option<Form>
    ensures { result ≡ two_of form.Within (whole_of w.now) (whole_of h.now) }
{
    Some(Form::Within(parse_whole(w)?, parse_whole(h)?))
}

/// Parses `w,`, `,h` or `w,h`, by its parts before and behind the comma.
fn parse_sides(w: &[u8], h: &[u8]) -> Option<Form>
    ensures { result ≡ sides_of w.now h.now }
{
    if h == b"".as_slice() {
        return Some(Form::Width(parse_whole(w)?));
    }
    if w == b"".as_slice() {
        return Some(Form::Height(parse_whole(h)?));
    }
    parse_both(w, h)
}

/// Parses a size in pixels by its parts before and behind the comma, the first perhaps with a `!` in front.
fn parse_bounds(w: &str, h: &str) -> Option<Form>
    ensures { result ≡ bounds_of w.now h.now }
{
    match w.strip_prefix("!") {
        Some(w) => parse_within(w.as_bytes(), h.as_bytes()),
        None => parse_sides(w.as_bytes(), h.as_bytes()),
    }
}

/// Parses a size in pixels: the forms with a comma.
fn parse_pair(text: &str) -> Option<Form>
    ensures { result ≡ pair_of (cut_of 44 text.now) }
{
    let (w, h) = split_at_comma(text)?;
    parse_bounds(w, h)
}

/// Parses a size without the `^` in front.
#[tactic(auto, unfolding(crate::specs::Code::form_of))]
fn parse_form(text: &str) -> Option<Form>
    ensures { result ≡ form_of text.now }
{
    if text == "max" {
        return Some(Form::Max);
    }
    if let Some(percent) = text.strip_prefix("pct:") {
        return Some(Form::Percent(parse_decimal(percent)?));
    }
    parse_pair(text)
}

/// Parses a size; `None` where the text spells none.
#[tactic(auto, unfolding(crate::specs::Code::size_of))]
pub(crate) fn parse_size(text: &str) -> Option<Size>
    ensures { result ≡ size_of text.now }
{
    match text.strip_prefix("^") {
        Some(rest) => Some(Size {
            up: true,
            form: parse_form(rest)?,
        }),
        None => Some(Size {
            up: false,
            form: parse_form(text)?,
        }),
    }
}
