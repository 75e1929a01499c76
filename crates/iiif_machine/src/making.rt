//! Values and images, made of whole pictures.

ghost use Rattle.std.specs.Prelude.{◌≡◌, ◌<◌, ◌≤◌, IfOk, Some};
ghost use Rattle.iiif_pixel.specs.Geometry.{sides_of, LiesIn};
ghost use Rattle.iiif_pixel.specs.Picture.{dim_of};
ghost use Rattle.iiif_pixel.specs.Operations.{crop};
ghost use Rattle.iiif_pixel.specs.Scaling.{scale, whole_of};
ghost use Rattle.iiif_area.specs.Grid.{sums_of};
ghost use Rattle.iiif_area.specs.Places.{IsScalable};
ghost use Rattle.iiif_canonical.specs.Images.{resolved_image};
ghost use Rattle.iiif_keys.specs.Blocks.{part_in, tile_of, SumFitsIn, TileFitsIn};
ghost use Rattle.iiif_keys.specs.Names.{IsSource};

use iiif_area::Sums;
use iiif_canonical::Resolved;
use iiif_keys::{SumKey, SumVal, TileKey, TileVal};
use iiif_pixel::laws::{bands_follow, whole_stays_whole};
use iiif_pixel::{Dim, NoMemory, Raster, Rect};
use std::alloc::Global;

/// A tile of a picture. The only error is lack of memory.
pub fn tile(picture: &Raster, key: &TileKey) -> Result<TileVal, NoMemory>
    requires { TileFitsIn (dim_of picture.now) picture.now.channels key.now }
    ensures { IfOk result (λ v. v ≡ record { raster = crop picture.now (tile_of (dim_of picture.now) key.now) }) }
{
    let rect = key.rect_in(picture.dim());
    Ok(TileVal {
        raster: picture.crop(rect)?,
    })
}

/// The sums of a block of a picture. The only error is lack of memory.
pub fn sums(alloc: Global, picture: &Raster, key: &SumKey) -> Result<SumVal, NoMemory>
    requires fits { SumFitsIn (dim_of picture.now) picture.now.channels key.now }
    requires source { IsSource picture.now }
    ensures { IfOk result (λ v. v ≡ record {
      sums =
          sums_of (crop picture.now key.now.rect) key.now.size (part_in (dim_of picture.now) key.now);
    }) }
{
    let block = key.block_in(picture.dim());
    let tile = picture.crop(block)?;
    Ok(SumVal {
        sums: Sums::of_tile(alloc, &tile, block, key.rect, key.size)?,
    })
}

/// A rectangle from the upper left corner on.
fn whole_rect(dim: Dim) -> Rect
    ensures { result ≡ whole_of dim }
{
    Rect {
        x: 0,
        y: 0,
        w: dim.w,
        h: dim.h,
    }
}

/// A region scaled to other sides, its sums taken as those of one tile.
fn scaled(alloc: Global, region: &Raster, size: Dim) -> Result<Raster, NoMemory>
    requires limits { IsScalable (dim_of region.now) size }
    ensures { IfOk result (λ r. r ≡ scale region.now size) }
{
    let sides = region.dim();
    // Laws of pictures and of bands.
    region.is_whole();
    bands_follow();
    whole_stays_whole();
    let sums = Sums::of_tile(alloc, region, whole_rect(sides), whole_rect(sides), size)?;
    let scaled = sums.finish(sides, whole_rect(size), region.depth())?;
    Ok(scaled)
}

/// The image that a request comes to: the rectangle of the picture, scaled, turned, in its quality. The only error is lack of memory.
pub fn image(alloc: Global, picture: &Raster, resolved: &Resolved) -> Result<Raster, NoMemory>
    requires inside { LiesIn resolved.now.rect (dim_of picture.now) }
    requires sizes { IsScalable (sides_of resolved.now.rect) resolved.now.size }
    requires quarters { resolved.now.turn.quarters < 4 }
    ensures { IfOk result (λ r. r ≡ resolved_image picture.now resolved.now) }
{
    let region = picture.crop(resolved.rect)?;
    let scaled = scaled(alloc, &region, resolved.size)?;
    let turned = scaled.turn(resolved.turn)?;
    let image = turned.quality(resolved.quality)?;
    Ok(image)
}
