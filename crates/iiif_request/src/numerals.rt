//! Numbers in decimal digits: whole numbers and decimals (IIIF Image API 3.0, sections 4.1 to 4.3).

ghost use Rattle.std.specs.Prelude.{◌≡◌, ◌<◌, ◌≤◌, ◌^◌, IfSome, option_map};
ghost use Rattle.std.specs.Str.Parse.{AllDigits, digits_value_after};
ghost use Rattle.iiif_request.specs.Numerals.{is_numeral, numeral_of};
ghost use Rattle.iiif_request.specs.Code.{whole_of, pointed_of, decimal_of, cut_of};

use crate::Decimal;

/// Returns whether a text is one to `most` ASCII digits.
#[tactic(auto, unfolding(crate::specs::Numerals::is_numeral))]
pub fn is_numeral(text: &[u8], most: usize) -> bool
    ensures { result ≡ is_numeral most text.now }
{
    0 < text.len() && text.len() <= most && text.iter().all(|b| b.is_ascii_digit())
}

/// Reads digits behind those of `start`, and returns the number of all of them.
fn read_on(start: u64, digits: &[u8]) -> u64
    requires digits { AllDigits 10 digits.now }
    requires fits { digits_value_after 10 start digits.now < 2 ^ 64 }
    ensures { result ≡ digits_value_after 10 start digits.now }
{
    let mut value = start;
    for digit in digits {
        value = value * 10 + u64::from(*digit - b'0');
    }
    value
}

/// Parses a text of one to `most` digits; `None` where it is anything else.
pub fn numeral(text: &[u8], most: usize) -> Option<u64>
    requires { most ≤ 19 }
    ensures { result ≡ numeral_of most text.now }
{
    if !is_numeral(text, most) {
        return None;
    }
    Some(read_on(0, text))
}

/// Parses a whole number of one to nine digits.
pub(crate) fn parse_whole(text: &[u8]) -> Option<u32>
    ensures { result ≡ whole_of text.now }
{
    let value = numeral(text, 9)?;
    Some(value as u32)
}

/// Parses a number by its digits before and behind the point.
fn parse_pointed(whole: &[u8], places: &[u8]) -> Option<Decimal>
    ensures value { result ≡ pointed_of whole.now places.now }
    ensures few { IfSome result (λ d. d.places ≤ 10) }
{
    if !is_numeral(whole, 9) || !is_numeral(places, 10) {
        return None;
    }
    Some(Decimal {
        digits: read_on(read_on(0, whole), places),
        places: places.len() as u8,
    })
}

/// Splits a text at its first point.
#[tactic(auto, unfolding(crate::specs::Code::cut_of))]
fn split_at_point(text: &str) -> Option<(&str, &str)>
    ensures { option_map (λ p. (p.0.now, p.1.now)) result ≡ cut_of 46 text.now }
{
    text.split_once('.')
}

/// Parses a decimal: a whole number, or one with a point and one to ten digits behind it.
#[tactic(auto, unfolding(crate::specs::Code::decimal_of))]
pub(crate) fn parse_decimal(text: &str) -> Option<Decimal>
    ensures value { result ≡ decimal_of text.now }
    ensures few { IfSome result (λ d. d.places ≤ 10) }
{
    match split_at_point(text) {
        Some((whole, places)) => parse_pointed(whole.as_bytes(), places.as_bytes()),
        None => {
            let digits = u64::from(parse_whole(text.as_bytes())?);
            Some(Decimal { digits, places: 0 })
        }
    }
}
