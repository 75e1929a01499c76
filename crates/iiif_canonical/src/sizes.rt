//! Sizes, resolved: IIIF Image API 3.0, section 4.2.
ghost use Rattle.std.specs.Prelude.{◌≡◌, ◌<◌, ◌≤◌, false, IfOk};
ghost use Rattle.iiif_request.specs.Requests.{IsShortForm};
ghost use Rattle.iiif_canonical.specs.Sizes.{fit, largest, asked_of, is_above_hundred, checked, size_of};

use crate::regions::{compute_percent, round};
use crate::resolved::Limits;
use iiif_pixel::Dim;
use iiif_request::{Form, Refusal, Size};

/// Fits a region a by b into p by q: the largest size of its shape within them.
#[tactic(auto, unfolding(crate::specs::Sizes::fit))]
fn fit(a: u32, b: u32, p: u32, q: u32) -> (u128, u128)
    requires width { 0 < a }
    requires height { 0 < b }
    ensures { result ≡ fit a b p q }
{
    let (a, b, p, q) = (u128::from(a), u128::from(b), u128::from(p), u128::from(q));
    if p * b <= q * a {
        (p, round(b * p, a))
    } else {
        (round(a * q, b), q)
    }
}

/// Fits a region a by b into the limits: its own sides where they are within them.
#[tactic(auto, unfolding(crate::specs::Sizes::largest))]
fn fit_limits(a: u32, b: u32, limits: &Limits) -> (u128, u128)
    requires width { 0 < a }
    requires height { 0 < b }
    ensures { result ≡ largest a b limits.now }
{
    if a <= limits.max_w && b <= limits.max_h {
        (u128::from(a), u128::from(b))
    } else {
        fit(a, b, limits.max_w, limits.max_h)
    }
}

/// Computes the sides that a size asks for, of a region a by b, not checked yet.
#[tactic(auto, unfolding(crate::specs::Sizes::asked_of))]
pub(crate) fn compute_sides(size: Size, a: u32, b: u32, limits: &Limits) -> (u128, u128)
    requires width { 0 < a }
    requires height { 0 < b }
    requires short { IsShortForm size.form }
    ensures { result ≡ asked_of size.up size.form a b limits.now }
{
    match size.form {
        Form::Max => {
            if size.up {
                fit(a, b, limits.max_w, limits.max_h)
            } else {
                fit_limits(a, b, limits)
            }
        }
        Form::Width(w) => {
            let w = u128::from(w);
            (w, round(u128::from(b) * w, u128::from(a)))
        }
        Form::Height(h) => {
            let h = u128::from(h);
            (round(u128::from(a) * h, u128::from(b)), h)
        }
        Form::Percent(n) => (compute_percent(a, n), compute_percent(b, n)),
        Form::Both(w, h) => (u128::from(w), u128::from(h)),
        Form::Within(w, h) => {
            let (p, q) = (w.min(limits.max_w), h.min(limits.max_h));
            if size.up {
                fit(a, b, p, q)
            } else {
                fit(a, b, p.min(a), q.min(b))
            }
        }
    }
}

/// Returns whether a size asks for more than a hundred percent.
fn is_above_hundred(form: Form) -> bool
    requires { IsShortForm form }
    ensures { result ≡ is_above_hundred form }
{
    match form {
        Form::Percent(n) => n.digits > 100 * 10u64.pow(u32::from(n.places)),
        _ => false,
    }
}

/// Checks sides against zero, the region a by b and the limits, in this order.
#[tactic(auto, unfolding(crate::specs::Sizes::checked))]
fn check(
    up: bool,
    above: bool,
    a: u32,
    b: u32,
    limits: &Limits,
    sides: (u128, u128),
) -> Result<Dim, Refusal>
    ensures value { result ≡ checked up above a b limits.now sides }
    ensures not_zero { IfOk result (λ s. (1 ≤ s.w) × (1 ≤ s.h)) }
    ensures not_larger { IfOk result (λ s. limits.now.upscale ≡ false → (s.w ≤ a) × (s.h ≤ b)) }
    ensures within_limits { IfOk result (λ s. (s.w ≤ limits.now.max_w) × (s.h ≤ limits.now.max_h)) }
{
    let (c, d) = sides;
    let larger = c > u128::from(a) || d > u128::from(b);
    if c == 0 || d == 0 {
        Err(Refusal::Zero)
    } else if !up && (larger || above) {
        Err(Refusal::Larger)
    } else if up && !limits.upscale && larger {
        Err(Refusal::Upscale)
    } else if c > u128::from(limits.max_w) || d > u128::from(limits.max_h) {
        Err(Refusal::Limit)
    } else {
        Ok(Dim {
            w: c as u32,
            h: d as u32,
        })
    }
}

/// Resolves a size for a region a by b: the sides of the result, or the first of `Zero`, `Larger`, `Upscale` and `Limit`.
#[tactic(auto, unfolding(crate::specs::Sizes::size_of))]
pub(crate) fn resolve_size(size: Size, a: u32, b: u32, limits: &Limits) -> Result<Dim, Refusal>
    requires width { 0 < a }
    requires height { 0 < b }
    requires short { IsShortForm size.form }
    ensures value { result ≡ size_of size a b limits.now }
    ensures not_zero { IfOk result (λ s. (1 ≤ s.w) × (1 ≤ s.h)) }
    ensures not_larger { IfOk result (λ s. limits.now.upscale ≡ false → (s.w ≤ a) × (s.h ≤ b)) }
    ensures within_limits { IfOk result (λ s. (s.w ≤ limits.now.max_w) × (s.h ≤ limits.now.max_h)) }
{
    check(
        size.up,
        is_above_hundred(size.form),
        a,
        b,
        limits,
        compute_sides(size, a, b, limits),
    )
}
