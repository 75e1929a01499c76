//! The canonical form of a request: IIIF Image API 3.0, section 4.7.
ghost use Rattle.std.specs.Prelude.{◌≡◌, ◌<◌, Ok};
ghost use Rattle.iiif_request.specs.Requests.{HasShortDecimals};
ghost use Rattle.iiif_canonical.specs.Canonical.{canonical_region, canonical_size, canonical_of, canonical, HasShortSides};
ghost use Rattle.iiif_canonical.specs.Resolution.{resolved_of, IsResolved};
ghost use Rattle.iiif_canonical.specs.Images.{HasImageOf};
ghost use Rattle.iiif_canonical.specs.Texts.{CanBeSpelled};

use crate::resolved::{Limits, Resolved};
use crate::sizes::compute_sides;
use iiif_pixel::{Dim, Kind, Rect};
use iiif_request::{Decimal, Form, Region, Request, Rotation, Size};

/// Writes a rectangle as a region: `full` where it is the whole image.
#[tactic(auto, unfolding(crate::specs::Canonical::canonical_region))]
fn write_region(rect: Rect, dim: Dim) -> Region
    ensures { result ≡ canonical_region rect dim }
{
    if rect.x == 0 && rect.y == 0 && rect.w == dim.w && rect.h == dim.h {
        Region::Full
    } else {
        Region::Pixels(rect.x, rect.y, rect.w, rect.h)
    }
}

/// Writes a size for a region a by b: with `^` where a side is above the region's, and `max` where that gives it.
#[tactic(auto, unfolding(crate::specs::Canonical::canonical_size))]
fn write_size(size: Dim, a: u32, b: u32, limits: &Limits) -> Size
    requires width { 0 < a }
    requires height { 0 < b }
    ensures { result ≡ canonical_size size a b limits.now }
{
    let up = size.w > a || size.h > b;
    let max = Size {
        up,
        form: Form::Max,
    };
    let (w, h) = compute_sides(max, a, b, limits);
    let form = if u128::from(size.w) == w && u128::from(size.h) == h {
        Form::Max
    } else {
        Form::Both(size.w, size.h)
    };
    Size { up, form }
}

/// Writes the canonical form of each request that resolves to these values: the clipped region, the size of the result with `^`
/// where a side is above the region's, the rotation below 360, and the quality where it changes something. It takes no memory.
#[tactic(auto, unfolding(crate::specs::Canonical::canonical_of))]
pub fn canonical(resolved: &Resolved, dim: Dim, kind: Kind, limits: &Limits) -> Request
    requires { IsResolved dim kind limits.now resolved.now }
    ensures value { result ≡ canonical_of resolved.now dim limits.now }
    ensures form { (q : Request) → resolved_of q dim kind limits.now ≡ Ok resolved.now
        → canonical q dim kind limits.now ≡ Ok result }
    ensures resolves { resolved_of result dim kind limits.now ≡ Ok resolved.now }
    ensures fixed { canonical result dim kind limits.now ≡ Ok result }
    ensures same_image { HasImageOf result dim kind limits.now (Ok resolved.now) }
    ensures short { HasShortDecimals result }
    ensures spelled { HasShortSides dim limits.now → CanBeSpelled result }
{
    Request {
        region: write_region(resolved.rect, dim),
        size: write_size(resolved.size, resolved.rect.w, resolved.rect.h, limits),
        rotation: Rotation {
            mirror: resolved.turn.mirror,
            degrees: Decimal {
                digits: 90 * u64::from(resolved.turn.quarters),
                places: 0,
            },
        },
        quality: resolved.quality,
    }
}
