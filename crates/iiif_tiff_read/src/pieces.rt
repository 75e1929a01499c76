//! Offsets of the pieces of an image, its strips or tiles.

ghost use Rattle.std.specs.Prelude.{◌≡◌, ◌+◌, ◌*◌, ◌^◌, ◌≤◌, ℕ, length, map, IfOk, IfErr, OnOk, if◌then◌else◌};
ghost use Rattle.std.specs.List.{range_with_len};
ghost use Rattle.iiif_tiff.specs.Tiff.{StripOffsets, StripByteCounts, TileOffsets, TileByteCounts, piece};
ghost use Rattle.iiif_tiff.specs.Tiff.{first, pieces_fit};
ghost use Rattle.iiif_tiff.specs.Tiff as tiff;
ghost use Rattle.iiif_tiff_read.specs.Code.{AreListed, IsKnown, IsNotMemory, IsPiece, TellsWhere};
ghost use Rattle.iiif_tiff_read.specs.Layouts.{FitsIn};
ghost use Rattle.iiif_tiff_read.specs.Code.{scheme_of};
ghost use Rattle.iiif_tiff_read.specs.Faults.{Answers};

use crate::fault::OpenFault;
use crate::fields::Fields;
use crate::format::Format;
use crate::grid::Grid;
use iiif_pixel::Dim;
use iiif_source::Source;
use iiif_tiff::tag;
use std::alloc::Global;

/// Tags of the fields that list the offsets and the byte counts of pieces.
#[derive(Clone, Copy)]
struct Tags {
    offsets: u16,
    counts: u16,
}

impl Tags {
    /// Returns the tags of tiles or of strips.
    fn new(tiled: bool) -> Tags
        ensures offsets { result.offsets ≡ (if tiled then TileOffsets else StripOffsets) }
        ensures counts { result.counts ≡ (if tiled then TileByteCounts else StripByteCounts) }
    {
        if tiled {
            Tags {
                offsets: tag::TILE_OFFSETS,
                counts: tag::TILE_BYTE_COUNTS,
            }
        } else {
            Tags {
                offsets: tag::STRIP_OFFSETS,
                counts: tag::STRIP_BYTE_COUNTS,
            }
        }
    }
}

/// Piece as the file lists it: its offset, its byte count, and the bytes that its samples need.
#[derive(Clone, Copy)]
struct Piece {
    offset: u32,
    count: u32,
    needed: u64,
}

impl<'a, R, S: Source<R>> Fields<'a, R, S> {
    /// Refuses a piece whose byte count is too small, or that reaches past the end.
    #[tactic(auto, unfolding(iiif_tiff::specs::Tiff::piece))]
    fn check_piece(&self, counts_tag: u16, piece: Piece) -> Result<(), OpenFault>
        requires { piece.needed ≤ 2 ^ 55 }
        ensures in_file { OnOk result (piece.offset + piece.needed ≤ length (S.bytes self.now.source.now)) }
        ensures check { (i : ℕ) → Answers (IsPiece (S.bytes self.now.source.now) counts_tag piece i) (S.gave self.now.source.now)
            (tiff.piece (S.bytes self.now.source.now) i) (λ _. Unit {0}) result }
        ensures memory { IfErr result IsNotMemory }
    {
        if (piece.count as u64) < piece.needed {
            return Err(OpenFault::BadField(counts_tag));
        }
        if self.source_len() < piece.offset as u64 + piece.needed {
            return Err(OpenFault::Truncated);
        }
        Ok(())
    }

    /// Checks all pieces, and refuses the first that is at fault.
    fn check_pieces(
        &self,
        dim: Dim,
        format: Format,
        grid: &Grid,
        offsets: &[u32],
        counts: &[u32],
    ) -> Result<(), OpenFault>
        requires bounds { (grid.now.width ≤ 2 ^ 20) × (format.bits ≤ 16) }
        requires lengths { (length offsets.now ≡ grid.now.count) × (length counts.now ≡ grid.now.count) }
        ensures in_file { OnOk result (FitsIn (scheme_of dim format grid.now offsets.now) (length (S.bytes self.now.source.now))) }
        ensures checks { Answers (AreListed (S.bytes self.now.source.now) dim format grid.now offsets.now counts.now)
            (S.gave self.now.source.now) (first (map (piece (S.bytes self.now.source.now)) (range_with_len 0 grid.now.count)))
            (λ _. Unit {0}) result }
        ensures memory { IfErr result IsNotMemory }
    {
        let tags = Tags::new(grid.tiled);
        let row_bytes = grid.row_bytes(format);
        for i in 0..grid.count {
            let piece = Piece {
                offset: offsets[i as usize],
                count: counts[i as usize],
                needed: grid.piece_bytes(dim, row_bytes, i),
            };
            self.check_piece(tags.counts, piece)?;
        }
        Ok(())
    }

    /// Reads the offsets of the pieces, and checks each piece.
    #[tactic(auto, unfolding(iiif_tiff::specs::Tiff::pieces_fit))]
    pub fn pieces(
        &self,
        alloc: Global,
        dim: Dim,
        format: Format,
        grid: &Grid,
    ) -> Result<Vec<u32>, OpenFault>
        requires { (grid.now.width ≤ 2 ^ 20) × (format.bits ≤ 16) }
        ensures length { IfOk result (λ v. length v.items ≡ grid.now.count) }
        ensures in_file { IfOk result (λ v. FitsIn (scheme_of dim format grid.now v.items) (length (S.bytes self.now.source.now))) }
        ensures pieces { TellsWhere S.bytes S.gave self.now (λ file. S.keeps self.now.source.now × IsKnown file dim format grid.now)
            pieces_fit
            (λ file v. v.items ≡ (tiff.scheme file).offsets) result }
    {
        let tags = Tags::new(grid.tiled);
        let offsets = self.list(alloc, tags.offsets, grid.count)?;
        let counts = self.list(alloc, tags.counts, grid.count)?;
        self.check_pieces(dim, format, grid, &offsets, &counts)?;
        Ok(offsets)
    }
}
