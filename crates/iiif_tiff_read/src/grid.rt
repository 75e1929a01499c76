//! The grid of pieces that an image is cut into, its strips or tiles.

ghost use Rattle.std.specs.Prelude.{◌≡◌, true, false, ◌+◌, ◌*◌, ◌^◌, ◌<◌, ◌≤◌, ◌-◌, min, ℕ, IfOk, IfErr, if◌then◌else◌};
ghost use Rattle.std.specs.Int.{div_ceil};
ghost use Rattle.iiif_pixel.specs.Geometry.{channels_of};
ghost use Rattle.iiif_tiff.specs.Tiff as tiff;
ghost use Rattle.iiif_tiff.specs.Tiff.{IsReadable};
ghost use Rattle.iiif_tiff_read.specs.Code.{HasSides, IsGrid, IsNotMemory, TellsWhere};

use crate::fault::OpenFault;
use crate::fields::Fields;
use crate::format::Format;
use iiif_pixel::Dim;
use iiif_source::Source;
use iiif_tiff::tag;

/// The most pieces of an image.
const MAX_PIECES: u64 = 1 << 20;

/// Grid of an image: whether its pieces are tiles or strips, how many pixels a piece is wide and high, how many pieces stand beside one
/// another, and how many there are.
#[derive(Clone, Copy)]
pub struct Grid {
    pub tiled: bool,
    pub width: u32,
    pub height: u32,
    pub across: u32,
    pub count: u32,
}

impl Grid {
    /// Counts the bytes of a row of a piece.
    pub fn row_bytes(&self, format: Format) -> u64
        requires { (self.now.width ≤ 2 ^ 20) × (format.bits ≤ 16) }
        ensures bytes { result ≡ div_ceil (self.now.width * channels_of format.kind * format.bits) 8 }
        ensures bound { result ≤ 2 ^ 23 }
    {
        (self.width as u64 * format.kind.channels() as u64 * format.bits as u64).div_ceil(8)
    }

    /// Counts the bytes of piece i: an edge tile is padded, and the last strip may be shorter.
    pub fn piece_bytes(&self, dim: Dim, row_bytes: u64, i: u32) -> u64
        requires { row_bytes ≤ 2 ^ 23 }
        ensures bytes { result ≡ (if self.now.tiled then self.now.height else min self.now.height (dim.h - i * self.now.height)) *
            row_bytes }
        ensures bound { result ≤ 2 ^ 55 }
    {
        let height = self.height as u64;
        let rows = if self.tiled {
            height
        } else {
            height.min((dim.h as u64).saturating_sub(i as u64 * height))
        };
        rows * row_bytes
    }
}

impl<'a, R, S: Source<R>> Fields<'a, R, S> {
    /// Reads the grid of an image in tiles.
    #[tactic(auto, unfolding(iiif_tiff::specs::Tiff::tile_grid))]
    fn tiles(&self, dim: Dim) -> Result<Grid, OpenFault>
        requires { IsReadable dim }
        ensures grid { TellsWhere S.bytes S.gave self.now (λ file. HasSides file dim × (tiff.is_tiled file ≡ true)) tiff.tile_grid
            IsGrid result }
        ensures bounds { IfOk result (λ g. (0 < g.width) × (g.width ≤ 2 ^ 20) × (0 < g.height) × (g.height ≤ 2 ^ 20) × (g.count ≤ 2 ^ 20)) }
        ensures shape { IfOk result (λ g. (g.across ≡ div_ceil dim.w g.width) × (g.count ≡ g.across * div_ceil dim.h g.height) ×
            (g.tiled ≡ false → g.width ≡ dim.w)) }
        ensures memory { IfErr result IsNotMemory }
    {
        let width = self.tile_side(tag::TILE_WIDTH)?;
        let height = self.tile_side(tag::TILE_LENGTH)?;
        let across = dim.w.div_ceil(width);
        let count = across as u64 * dim.h.div_ceil(height) as u64;
        if count > MAX_PIECES {
            return Err(OpenFault::TooLarge);
        }
        Ok(Grid {
            tiled: true,
            width,
            height,
            across,
            count: count as u32,
        })
    }

    /// Reads the grid of an image in strips, each as wide as the image.
    #[tactic(auto, unfolding(iiif_tiff::specs::Tiff::strip_grid), using(iiif_tiff::proofs::Numbers::one_piece))]
    fn strips(&self, dim: Dim) -> Result<Grid, OpenFault>
        requires { IsReadable dim }
        ensures grid { TellsWhere S.bytes S.gave self.now (λ file. HasSides file dim × (tiff.is_tiled file ≡ false)) tiff.strip_grid
            IsGrid result }
        ensures bounds { IfOk result (λ g. (0 < g.width) × (g.width ≤ 2 ^ 20) × (0 < g.height) × (g.count ≤ 2 ^ 20)) }
        ensures shape { IfOk result (λ g. (g.across ≡ div_ceil dim.w g.width) × (g.count ≡ g.across * div_ceil dim.h g.height) ×
            (g.tiled ≡ false → g.width ≡ dim.w)) }
        ensures memory { IfErr result IsNotMemory }
    {
        let height = self.optional(tag::ROWS_PER_STRIP, u32::MAX)?;
        if height == 0 {
            return Err(OpenFault::BadField(tag::ROWS_PER_STRIP));
        }
        Ok(Grid {
            tiled: false,
            width: dim.w,
            height,
            across: 1,
            count: dim.h.div_ceil(height),
        })
    }

    /// Reads the grid of the image.
    #[tactic(auto, unfolding(iiif_tiff::specs::Tiff::grid))]
    pub fn grid(&self, dim: Dim) -> Result<Grid, OpenFault>
        requires { IsReadable dim }
        ensures grid { TellsWhere S.bytes S.gave self.now (λ file. HasSides file dim) tiff.grid
            IsGrid result }
        ensures bounds { IfOk result (λ g. (0 < g.width) × (g.width ≤ 2 ^ 20) × (0 < g.height) × (g.count ≤ 2 ^ 20)) }
        ensures shape { IfOk result (λ g. (g.across ≡ div_ceil dim.w g.width) × (g.count ≡ g.across * div_ceil dim.h g.height) ×
            (g.tiled ≡ false → g.width ≡ dim.w)) }
        ensures memory { IfErr result IsNotMemory }
    {
        if self.has(tag::TILE_WIDTH) {
            self.tiles(dim)
        } else {
            self.strips(dim)
        }
    }
}
