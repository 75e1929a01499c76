//! Reads rectangles of samples from strips and tiles.

ghost use Rattle.std.specs.Prelude.{◌≡◌, ◌+◌, ◌*◌, ◌%◌, ◌^◌, ◌<◌, ◌≤◌, ℕ, length, IfOk, IfErr, OnOk};
ghost use Rattle.iiif_pixel.specs.Geometry.{channels_of, top_of, LiesIn};
ghost use Rattle.iiif_pixel.specs.Depths.{depth_of, values_of};
ghost use Rattle.iiif_tiff.specs.Tiff.{row_bytes, white_of};
ghost use Rattle.iiif_tiff_read.specs.Layouts.{FitsIn, dim_of};
ghost use Rattle.iiif_tiff_read.specs.Code.{IsSound, scheme_of, units, row_place, AreEven, IsPart, HoldsPart, KeepsOthers};
ghost use Rattle.iiif_tiff_read.specs.Code.{HoldsStored, HoldsShown};
ghost use Rattle.iiif_tiff_read.specs.Faults.{IsLoadFault};

use crate::fault::LoadFault;
use crate::format::Format;
use crate::grid::Grid;
use crate::part::{Cut, Part};
use crate::rows::{Rows, Window, read_window};
use crate::samples::{pairs_to_samples, to_samples};
use iiif_pixel::{Dim, Rect, Samples};
use iiif_source::Source;
use std::alloc::Global;

/// Image as it stands in its file: its sides, the format of its samples, its grid of pieces, and the offset of each piece. It is sound:
/// sides and pieces are within their limits, and each piece has its offset.
#[derive(Drop)]
pub struct Image {
    pub dim: Dim,
    pub format: Format,
    pub grid: Grid,
    pub offsets: Vec<u32>,
    pub ghost sound: { IsSound (units (scheme_of dim format grid offsets.items)) },
}

impl Image {
    ghost use Rattle.iiif_tiff_read.specs.Images.{image_scheme, image_units};

    /// Counts the bytes of a row of a piece.
    fn row_bytes(&self) -> u64
        ensures bytes { result ≡ row_bytes (image_units self.now) }
        ensures bound { result ≤ 2 ^ 23 }
    {
        self.grid.row_bytes(self.format)
    }

    /// Returns the offset in the file at which the row of a pixel begins in its piece.
    fn row_place(&self, x: u32, y: u32) -> u64
        requires inside { (x < self.now.dim.w) × (y < self.now.dim.h) }
        ensures place { result ≡ row_place (image_units self.now) x y }
        ensures small { result ≤ 2 ^ 60 }
    {
        let above = (y / self.grid.height) as usize * self.grid.across as usize;
        let offsets = self.offsets.as_slice();
        let offset = offsets[above + (x / self.grid.width) as usize];
        offset as u64 + (y % self.grid.height) as u64 * self.row_bytes()
    }

    /// Counts the rows of its piece from row y of the image on.
    fn left_of_piece(&self, y: u32) -> u32
        ensures some { 0 < result }
        ensures left { y % self.now.grid.height + result ≡ self.now.grid.height }
    {
        self.grid.height - y % self.grid.height
    }

    /// Counts the rows from a pixel on, `most` at most, that stand one after another in the file: the rest of its piece, and the pieces
    /// below while each begins where the one above it ends.
    fn even_rows(&self, x: u32, y: u32, most: u32) -> u32
        requires inside { (x < self.now.dim.w) × (y + most ≤ self.now.dim.h) }
        requires some { 0 < most }
        ensures some { 0 < result }
        ensures most { result ≤ most }
        ensures even { AreEven (image_units self.now) x y result }
    {
        let first = self.row_place(x, y);
        let stride = self.row_bytes();
        let mut rows = self.left_of_piece(y).min(most);
        while rows < most && self.row_place(x, y + rows) == first + rows as u64 * stride {
            rows += self.grid.height.min(most - rows);
        }
        rows
    }

    /// Counts the rows of a rectangle from row `top` on that stand one after another in the file, in each of its columns. A rectangle
    /// with columns of several pieces takes its rows piece by piece.
    fn band_rows(&self, rect: Rect, top: u32) -> u32
        requires inside { LiesIn rect (dim_of (image_scheme self.now)) }
        requires some { top < rect.h }
        ensures some { 0 < result }
        ensures most { top + result ≤ rect.h }
        ensures even { (x : ℕ) → x < rect.w → AreEven (image_units self.now) (rect.x + x) (rect.y + top) result }
    {
        let y = rect.y + top;
        let most = rect.h - top;
        if rect.w > 0 && rect.x % self.grid.width + rect.w <= self.grid.width {
            self.even_rows(rect.x, y, most)
        } else {
            self.left_of_piece(y).min(most)
        }
    }

    /// Reads the stored samples of a part into those of its rectangle, by one call of the source.
    fn read_part<R, S: Source<R>>(
        &self,
        rt: &R,
        alloc: Global,
        source: &S,
        cut: Cut,
        samples: &mut [u8],
    ) -> Result<(), LoadFault>
        requires in_file { FitsIn (image_units self.now) (length (S.bytes source.now)) }
        requires part { IsPart (image_units self.now) cut.rect cut.part }
        requires length { length samples.old ≡ cut.rect.w * cut.rect.h * (image_units self.now).channels }
        ensures held { OnOk result (S.keeps source.now →
            HoldsPart (S.bytes source.now) (image_units self.now) cut.rect cut.part samples.new) }
        ensures rest { OnOk result (KeepsOthers (image_units self.now) cut.rect cut.part samples.old samples.new) }
        ensures fault { IfErr result (IsLoadFault (S.gave source.now)) }
    {
        let units = self.format.units();
        let x = cut.rect.x + cut.part.left;
        let rows = Rows {
            bits: self.format.unit_bits(),
            at: self.row_place(x, cut.rect.y + cut.part.top),
            stride: self.row_bytes(),
            first: (x % self.grid.width) as usize * units,
        };
        let window = Window {
            width: cut.rect.w as usize * units,
            left: cut.part.left as usize * units,
            top: cut.part.top,
            columns: cut.part.columns as usize * units,
            rows: cut.part.rows,
        };
        read_window(rt, alloc, source, rows, window, samples)
    }

    /// Reads the stored samples of a rectangle, part by part.
    fn fill<R, S: Source<R>>(
        &self,
        rt: &R,
        alloc: Global,
        source: &S,
        rect: Rect,
        samples: &mut [u8],
    ) -> Result<(), LoadFault>
        requires in_file { FitsIn (image_units self.now) (length (S.bytes source.now)) }
        requires inside { LiesIn rect (dim_of (image_scheme self.now)) }
        requires length { length samples.old ≡ rect.w * rect.h * (image_units self.now).channels }
        ensures stored { OnOk result (S.keeps source.now → HoldsStored (S.bytes source.now) (image_units self.now) rect samples.new) }
        ensures fault { IfErr result (IsLoadFault (S.gave source.now)) }
    {
        let mut top = 0;
        while top < rect.h {
            let rows = self.band_rows(rect, top);
            let mut left = 0;
            while left < rect.w {
                let columns = (self.grid.width - (rect.x + left) % self.grid.width).min(
                    rect.w - left,
                );
                let part = Part {
                    left,
                    top,
                    columns,
                    rows,
                };
                self.read_part(rt, alloc, source, Cut { rect, part }, samples)?;
                left += columns;
            }
            top += rows;
        }
        Ok(())
    }

    /// Reads the stored samples of a rectangle into a new vector.
    fn read_stored<R, S: Source<R>>(
        &self,
        rt: &R,
        alloc: Global,
        source: &S,
        rect: Rect,
    ) -> Result<Vec<u8>, LoadFault>
        requires in_file { FitsIn (image_units self.now) (length (S.bytes source.now)) }
        requires inside { LiesIn rect (dim_of (image_scheme self.now)) }
        ensures length { IfOk result (λ v. length v.items ≡ rect.w * rect.h * (image_units self.now).channels) }
        ensures stored { IfOk result (λ v. S.keeps source.now → HoldsStored (S.bytes source.now) (image_units self.now) rect v.items) }
        ensures fault { IfErr result (IsLoadFault (S.gave source.now)) }
    {
        let count = rect.w as usize * rect.h as usize * self.format.units();
        let mut stored = vec![in alloc; 0u8; count]?;
        self.fill(rt, alloc, source, rect, &mut stored)?;
        Ok(stored)
    }

    /// Reads the samples of a rectangle, row by row.
    pub fn read_samples<R, S: Source<R>>(
        &self,
        rt: &R,
        alloc: Global,
        source: &S,
        rect: Rect,
    ) -> Result<Samples, LoadFault>
        requires in_file { FitsIn (image_units self.now) (length (S.bytes source.now)) }
        requires inside { LiesIn rect (dim_of (image_scheme self.now)) }
        ensures length { IfOk result (λ v. length (values_of v) ≡ rect.w * rect.h * channels_of self.now.format.kind) }
        ensures depth { IfOk result (λ v. top_of (depth_of v) ≡ white_of self.now.format.bits) }
        ensures shown { IfOk result (λ v. S.keeps source.now → HoldsShown (S.bytes source.now) (image_scheme self.now) rect (values_of v)) }
        ensures fault { IfErr result (IsLoadFault (S.gave source.now)) }
    {
        let Format {
            bits,
            order,
            white_is_zero,
            ..
        } = self.format;
        let stored = self.read_stored(rt, alloc, source, rect)?;
        if bits == 16 {
            let samples = pairs_to_samples(alloc, order, white_is_zero, &stored)?;
            Ok(Samples::Sixteen(samples))
        } else {
            Ok(Samples::Eight(to_samples(white_is_zero, stored)))
        }
    }
}
