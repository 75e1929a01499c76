//! Methods of calls.

ghost use Rattle.std.specs.Prelude.{◌≡◌};
ghost use Rattle.iiif_http_front.specs.Methods.{method_text};
ghost use Rattle.iiif_answers.specs.Calls.{is_answered, is_head, part_of};

use crate::part::Part;
use iiif_http_front::{Call, Method};

/// Returns whether a call asks for a head alone.
fn is_head(call: &Call) -> bool
    ensures { result ≡ is_head (method_text call.now.method) }
{
    match call.method {
        Method::Head => true,
        Method::Get => false,
        Method::Other(_) => false,
    }
}

/// Returns whether the server implements a call's method.
pub fn is_answered(call: &Call) -> bool
    ensures { result ≡ is_answered (method_text call.now.method) }
{
    match call.method {
        Method::Get => true,
        Method::Head => true,
        Method::Other(_) => false,
    }
}

/// Returns the part of the answer that a call is sent.
pub fn part_of(call: &Call) -> Part
    ensures { result ≡ part_of (method_text call.now.method) call.now.close }
{
    if is_head(call) {
        Part::Head { closes: call.close }
    } else {
        Part::Whole { closes: call.close }
    }
}
