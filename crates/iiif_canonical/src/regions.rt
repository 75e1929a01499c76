//! Regions, resolved: IIIF Image API 3.0, section 4.1.
ghost use Rattle.std.specs.Prelude.{◌≡◌, ◌<◌, ◌≤◌, ◌^◌, IfOk};
ghost use Rattle.iiif_pixel.specs.Geometry.{LiesIn};
ghost use Rattle.iiif_request.specs.Requests.{IsShort, IsShortRegion};
ghost use Rattle.iiif_canonical.specs.Rounding.{round, percent_of};
ghost use Rattle.iiif_canonical.specs.Regions.{clipped, region_of};

use iiif_pixel::{Dim, Rect};
use iiif_request::{Decimal, Refusal, Region};

/// Rounds p / q to the nearest whole number, a half up.
#[tactic(auto, unfolding(crate::specs::Rounding::round))]
pub(crate) fn round(p: u128, q: u128) -> u128
    requires divisor { 0 < q }
    requires fits { (p < 2 ^ 100) × (q < 2 ^ 100) }
    ensures { result ≡ round p q }
{
    (2 * p + q) / (2 * q)
}

/// Computes n percent of a side, rounded.
#[tactic(auto, using(crate::proofs::Powers::ten_some))]
pub(crate) fn compute_percent(side: u32, n: Decimal) -> u128
    requires { IsShort n }
    ensures { result ≡ percent_of side n }
{
    round(
        u128::from(side) * u128::from(n.digits),
        100 * 10u128.pow(u32::from(n.places)),
    )
}

/// Clips a rectangle to the image; `Empty` where nothing of it is inside.
#[tactic(auto, unfolding(crate::specs::Regions::clipped))]
fn clip(dim: Dim, x: u128, y: u128, w: u128, h: u128) -> Result<Rect, Refusal>
    ensures value { result ≡ clipped dim x y w h }
    ensures inside { IfOk result (λ r. LiesIn r dim) }
    ensures not_empty { IfOk result (λ r. (1 ≤ r.w) × (1 ≤ r.h)) }
{
    if x >= u128::from(dim.w) || y >= u128::from(dim.h) || w == 0 || h == 0 {
        return Err(Refusal::Empty);
    }
    Ok(Rect {
        x: x as u32,
        y: y as u32,
        w: w.min(u128::from(dim.w) - x) as u32,
        h: h.min(u128::from(dim.h) - y) as u32,
    })
}

/// Resolves a region for an image with these sides: the rectangle that is inside, or `Empty`.
#[tactic(auto, unfolding(crate::specs::Regions::region_of))]
pub(crate) fn resolve_region(region: Region, dim: Dim) -> Result<Rect, Refusal>
    requires { IsShortRegion region }
    ensures value { result ≡ region_of region dim }
    ensures inside { IfOk result (λ r. LiesIn r dim) }
    ensures not_empty { IfOk result (λ r. (1 ≤ r.w) × (1 ≤ r.h)) }
{
    match region {
        Region::Full => clip(dim, 0, 0, u128::from(dim.w), u128::from(dim.h)),
        Region::Square => {
            let side = dim.w.min(dim.h);
            let (x, y) = ((dim.w - side) / 2, (dim.h - side) / 2);
            let side = u128::from(side);
            clip(dim, u128::from(x), u128::from(y), side, side)
        }
        Region::Pixels(x, y, w, h) => clip(
            dim,
            u128::from(x),
            u128::from(y),
            u128::from(w),
            u128::from(h),
        ),
        Region::Percents(x, y, w, h) => clip(
            dim,
            compute_percent(dim.w, x),
            compute_percent(dim.h, y),
            compute_percent(dim.w, w),
            compute_percent(dim.h, h),
        ),
    }
}
