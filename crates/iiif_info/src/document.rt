//! The information document, member by member.

ghost use Rattle.std.specs.Prelude.{◌≡◌, ◌<◌, IfOk, codes, string_bytes, max};
ghost use Rattle.serde_json.specs.Data.{string, member, no_members};
ghost use Rattle.serde_json.specs.View.{view, members_view};
ghost use Rattle.iiif_info.specs.Information.{features, information, info_text, strings, integer};

use crate::values::{strings, tiles};
use iiif_canonical::{Limits, image_uri};
use iiif_pixel::{Dim, NoMemory};
use serde_json::{Map, Value, put};
use std::alloc::Global;

/// Features beyond level 0 (IIIF Image API 3.0, section 5.7). The last one stands only where a size with `^` may be above its
/// region's.
const FEATURES: [&str; 14] = [
    "baseUriRedirect",
    "canonicalLinkHeader",
    "cors",
    "mirroring",
    "regionByPct",
    "regionByPx",
    "regionSquare",
    "rotationBy90s",
    "sizeByConfinedWh",
    "sizeByH",
    "sizeByPct",
    "sizeByW",
    "sizeByWh",
    "sizeUpscaling",
];

/// Makes the list of the features that a server with these limits has.
fn features(alloc: Global, limits: &Limits) -> Result<Value, NoMemory>
    ensures { IfOk result (λ value. view value ≡ strings (features limits.now)) }
{
    if limits.upscale {
        strings(alloc, &FEATURES)
    } else {
        strings(alloc, &FEATURES[..13])
    }
}

/// Makes the members from `maxWidth` on. They are put from last to first, so that none is moved.
fn last_members(
    alloc: Global,
    dim: Dim,
    limits: &Limits,
    preferred: Value,
    tiles: Value,
) -> Result<Map<String, Value>, NoMemory>
    ensures { IfOk result (λ map. members_view map.entries ≡
        member (codes "maxWidth") (integer limits.now.max_w) (
        member (codes "preferredFormats") (view preferred) (
        member (codes "profile") (string (codes "level0")) (
        member (codes "protocol") (string (codes "http://iiif.io/api/image")) (
        member (codes "tiles") (view tiles) (
        member (codes "type") (string (codes "ImageService3")) (
        member (codes "width") (integer dim.w) no_members))))))) }
{
    let mut map = Map::new(alloc);
    put(&mut map, alloc, "width", Value::from(dim.w))?;
    let service = Value::try_from_str(alloc, "ImageService3")?;
    put(&mut map, alloc, "type", service)?;
    put(&mut map, alloc, "tiles", tiles)?;
    let protocol = Value::try_from_str(alloc, "http://iiif.io/api/image")?;
    put(&mut map, alloc, "protocol", protocol)?;
    let profile = Value::try_from_str(alloc, "level0")?;
    put(&mut map, alloc, "profile", profile)?;
    put(&mut map, alloc, "preferredFormats", preferred)?;
    put(&mut map, alloc, "maxWidth", Value::from(limits.max_w))?;
    Ok(map)
}

/// Makes the information as a JSON value.
#[tactic(auto, unfolding(crate::specs::Information::information))]
fn information(
    alloc: Global,
    id: &str,
    dim: Dim,
    limits: &Limits,
    edge: u32,
) -> Result<Value, NoMemory>
    requires { 0 < edge }
    ensures { IfOk result (λ value. view value ≡ information id.now dim limits.now edge) }
{
    let preferred = strings(alloc, &["tif"])?;
    let tiles = tiles(alloc, edge, dim.w.max(dim.h))?;
    let mut map = last_members(alloc, dim, limits, preferred, tiles)?;
    put(&mut map, alloc, "maxHeight", Value::from(limits.max_h))?;
    put(&mut map, alloc, "id", Value::try_from_str(alloc, id)?)?;
    put(&mut map, alloc, "height", Value::from(dim.h))?;
    let qualities = strings(alloc, &["bitonal", "color", "gray"])?;
    put(&mut map, alloc, "extraQualities", qualities)?;
    put(&mut map, alloc, "extraFormats", strings(alloc, &["tif"])?)?;
    put(&mut map, alloc, "extraFeatures", features(alloc, limits)?)?;
    let context = Value::try_from_str(alloc, "http://iiif.io/api/image/3/context.json")?;
    put(&mut map, alloc, "@context", context)?;
    Ok(Value::Object(map))
}

/// Writes the information about an image: compact JSON, its keys in the order of their bytes. `base` is the server's URL without
/// a `/` at its end, `id` the image's name before it is escaped, `dim` the image's size in pixels, `limits` the greatest size of
/// a result, and `edge` the side of a tile.
pub fn info(
    alloc: Global,
    base: &str,
    id: &str,
    dim: Dim,
    limits: &Limits,
    edge: u32,
) -> Result<String, NoMemory>
    requires { 0 < edge }
    ensures { IfOk result (λ text. string_bytes text ≡ info_text base.now id.now dim limits.now edge) }
{
    let uri = image_uri(alloc, base, id)?;
    information(alloc, &uri, dim, limits, edge)?.to_string(alloc)
}
