//! Regions: parses the first word of a request (IIIF Image API 3.0, section 4.1).

ghost use Rattle.std.specs.Prelude.{◌≡◌, option_map};
ghost use Rattle.iiif_request.specs.Code.{cut_of, parts_of, pixels_of, percents_of, region_of, Parts};

use crate::Region;
use crate::numerals::{parse_decimal, parse_whole};

/// Splits a text at its first comma.
#[tactic(auto, unfolding(crate::specs::Code::cut_of))]
pub(crate) fn split_at_comma(text: &str) -> Option<(&str, &str)>
    ensures { option_map (λ p. (p.0.now, p.1.now)) result ≡ cut_of 44 text.now }
{
    text.split_once(',')
}

/// Splits a text at its first three commas, in four.
#[tactic(auto, unfolding(crate::specs::Code::parts_of))]
fn split_in_four(text: &str) -> Option<(&str, &str, &str, &str)>
    ensures { option_map (λ p. record {
      first = p.0.now;
      second = p.1.now;
      third = p.2.now;
      fourth = p.3.now;
    }) result
        ≡ parts_of text.now }
{
    let (first, rest) = split_at_comma(text)?;
    let (second, rest) = split_at_comma(rest)?;
    let (third, fourth) = split_at_comma(rest)?;
    Some((first, second, third, fourth))
}

/// Parses four whole numbers with commas between.
fn parse_pixels(text: &str) -> Option<Region>
    ensures { result ≡ pixels_of (parts_of text.now) }
{
    let (x, y, w, h) = split_in_four(text)?;
    let x = parse_whole(x.as_bytes())?;
    let y = parse_whole(y.as_bytes())?;
    let w = parse_whole(w.as_bytes())?;
    let h = parse_whole(h.as_bytes())?;
    Some(Region::Pixels(x, y, w, h))
}

/// Parses four decimals with commas between.
fn parse_percents(text: &str) -> Option<Region>
    ensures { result ≡ percents_of (parts_of text.now) }
{
    let (x, y, w, h) = split_in_four(text)?;
    let x = parse_decimal(x)?;
    let y = parse_decimal(y)?;
    let w = parse_decimal(w)?;
    let h = parse_decimal(h)?;
    Some(Region::Percents(x, y, w, h))
}

/// Parses a region; `None` where the text spells none.
#[tactic(auto, unfolding(crate::specs::Code::region_of))]
pub(crate) fn parse_region(text: &str) -> Option<Region>
    ensures { result ≡ region_of text.now }
{
    if text == "full" {
        return Some(Region::Full);
    }
    if text == "square" {
        return Some(Region::Square);
    }
    match text.strip_prefix("pct:") {
        Some(rest) => parse_percents(rest),
        None => parse_pixels(text),
    }
}
