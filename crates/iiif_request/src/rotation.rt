//! Rotations by quarter turns alone: parses the third word of a request (IIIF Image API 3.0, section 4.3).

ghost use Rattle.std.specs.Prelude.{◌≡◌, ◌≤◌};
ghost use Rattle.iiif_request.specs.Code.{is_quarters, decimal_of, turned_of, rotation_of};

use crate::numerals::parse_decimal;
use crate::{Decimal, Rotation};

/// Returns whether a decimal is 0, 90, 180, 270 or 360.
#[tactic(auto, unfolding(crate::specs::Code::is_quarters))]
fn is_quarters(d: Decimal) -> bool
    requires { d.places ≤ 10 }
    ensures { result ≡ is_quarters d }
{
    let unit = 10u64.pow(u32::from(d.places));
    d.digits == 0
        || d.digits == 90 * unit
        || d.digits == 180 * unit
        || d.digits == 270 * unit
        || d.digits == 360 * unit
}

/// Parses the degrees of a rotation, without the `!` in front.
fn parse_degrees(mirror: bool, text: &str) -> Option<Rotation>
    ensures { result ≡ turned_of mirror (decimal_of text.now) }
{
    let degrees = parse_decimal(text)?;
    if !is_quarters(degrees) {
        return None;
    }
    Some(Rotation { mirror, degrees })
}

/// Parses a rotation; `None` where the text spells none by quarter turns.
#[tactic(auto, unfolding(crate::specs::Code::rotation_of))]
pub(crate) fn parse_rotation(text: &str) -> Option<Rotation>
    ensures { result ≡ rotation_of text.now }
{
    match text.strip_prefix("!") {
        Some(rest) => parse_degrees(true, rest),
        None => parse_degrees(false, text),
    }
}
