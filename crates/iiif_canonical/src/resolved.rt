//! Resolution of a request for an image: IIIF Image API 3.0, sections 4.1 to 4.4.
ghost use Rattle.std.specs.Prelude.{◌≡◌, ◌<◌, IfOk};
ghost use Rattle.iiif_request.specs.Requests.{IsShort, HasShortDecimals};
ghost use Rattle.iiif_canonical.specs.Resolution.{quarters_of, plain_quality, resolved_of, IsResolved};
ghost use Rattle.iiif_canonical.specs.Images.{HasImageOf};

use crate::regions::resolve_region;
use crate::sizes::resolve_size;
use iiif_pixel::{Dim, Kind, Quality, Rect, Turn};
use iiif_request::{Decimal, Refusal, Request};

/// Limits of a result: its greatest sides, in pixels, and whether a size with `^` may be above its region's.
#[derive(Clone, Copy, Debug, PartialEq, Eq)]
pub struct Limits {
    pub max_w: u32,
    pub max_h: u32,
    pub upscale: bool,
}

/// Request resolved for an image: the rectangle that is cut out, the size it is scaled to, and the turn and quality that follow.
/// Degrees are quarter turns from 0 to 3, and a quality that changes nothing is `Default`.
#[derive(Clone, Copy, Debug, PartialEq, Eq)]
pub struct Resolved {
    pub rect: Rect,
    pub size: Dim,
    pub turn: Turn,
    pub quality: Quality,
}

/// Converts degrees to quarter turns, modulo 4.
#[tactic(auto, using(crate::proofs::Powers::ten_some), unfolding(crate::specs::Resolution::quarters_of))]
fn count_quarters(degrees: Decimal) -> u8
    requires { IsShort degrees }
    ensures value { result ≡ quarters_of degrees }
    ensures few { result < 4 }
{
    (degrees.digits / (90 * 10u64.pow(u32::from(degrees.places))) % 4) as u8
}

/// Replaces a quality that changes nothing by `Default`.
fn simplify_quality(kind: Kind, quality: Quality) -> Quality
    ensures value { result ≡ plain_quality kind quality }
    ensures plain { plain_quality kind result ≡ result }
{
    match (kind, quality) {
        (_, Quality::Default | Quality::Color) | (Kind::Gray, Quality::Gray) => Quality::Default,
        (_, other) => other,
    }
}

/// Resolves a request for an image with these sides and of this kind: clips the region, then computes the size. Decimals are
/// exact fractions, rounded once; no number wraps, whatever the sides, the limits and the digits. It takes no memory.
///
/// # Errors
///
/// The first of `Empty`, `Zero`, `Larger`, `Upscale` and `Limit` that applies; `Upscale` only where the limits don't allow it.
#[tactic(auto, unfolding(crate::specs::Resolution::resolved_of))]
pub fn resolve(
    request: &Request,
    dim: Dim,
    kind: Kind,
    limits: &Limits,
) -> Result<Resolved, Refusal>
    requires { HasShortDecimals request.now }
    ensures value { result ≡ resolved_of request.now dim kind limits.now }
    ensures resolved { IfOk result (IsResolved dim kind limits.now) }
    ensures same_image { HasImageOf request.now dim kind limits.now result }
{
    let rect = resolve_region(request.region, dim)?;
    let size = resolve_size(request.size, rect.w, rect.h, limits)?;
    Ok(Resolved {
        rect,
        size,
        turn: Turn {
            mirror: request.rotation.mirror,
            quarters: count_quarters(request.rotation.degrees),
        },
        quality: simplify_quality(kind, request.quality),
    })
}
