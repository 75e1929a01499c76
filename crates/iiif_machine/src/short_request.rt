//! Requests that can be computed with.

ghost use Rattle.std.specs.Prelude.{◌≡◌, false, IsTrue, MatchOption};
ghost use Rattle.iiif_request.specs.Requests.{IsShort, IsShortRegion, IsShortForm, HasShortDecimals};

use iiif_request::{Decimal, Form, Region, Request};
use std::marker::Model;

/// Whether at most ten digits stand behind the point.
fn is_short(decimal: Decimal) -> bool
    ensures yes { IsTrue result → IsShort decimal }
    ensures no { result ≡ false → ¬ IsShort decimal }
{
    decimal.places <= 10
}

fn is_short_region(region: Region) -> bool
    ensures yes { IsTrue result → IsShortRegion region }
    ensures no { result ≡ false → ¬ IsShortRegion region }
{
    match region {
        Region::Percents(x, y, w, h) => is_short(x) && is_short(y) && is_short(w) && is_short(h),
        Region::Full | Region::Square | Region::Pixels(_, _, _, _) => true,
    }
}

fn is_short_form(form: Form) -> bool
    ensures yes { IsTrue result → IsShortForm form }
    ensures no { result ≡ false → ¬ IsShortForm form }
{
    match form {
        Form::Percent(percents) => is_short(percents),
        Form::Max | Form::Width(_) | Form::Height(_) | Form::Both(_, _) | Form::Within(_, _) =>
            true,
    }
}

/// A request of whose decimals each has at most ten digits behind its point, as each has that is read from text. A clause sees the
/// request.
#[derive(Drop)]
pub struct ShortRequest {
    request: Request,
}

impl Model for ShortRequest {
    ghost use Rattle.iiif_request.specs.Requests.{HasShortDecimals};
    ghost use Rattle.iiif_request.specs.declared.request.Request.{Request};

    ghost Value = { Request };

    ghost view = { λ short. short.request };

    ghost invariant = { λ short. HasShortDecimals short.request };
}

impl ShortRequest {
    /// The request, where its decimals are short.
    pub fn new(request: Request) -> Option<ShortRequest>
        ensures { MatchOption result (¬ HasShortDecimals request) (λ short. short ≡ request) }
    {
        if is_short_region(request.region)
            && is_short_form(request.size.form)
            && is_short(request.rotation.degrees)
        {
            return Some(ShortRequest { request });
        }
        None
    }

    /// The request.
    pub fn request(&self) -> &Request
        ensures request { result.now ≡ self.now }
        ensures short { HasShortDecimals result.now }
    {
        &self.request
    }
}
