//! Parts of rectangles that one read fills.

use iiif_pixel::Rect;

/// Part of a rectangle whose columns lie in one piece, and whose rows stand one after another in the file: its corner in the
/// rectangle, and its columns and rows.
#[derive(Clone, Copy)]
pub struct Part {
    pub left: u32,
    pub top: u32,
    pub columns: u32,
    pub rows: u32,
}

/// Part with its rectangle.
#[derive(Clone, Copy)]
pub struct Cut {
    pub rect: Rect,
    pub part: Part,
}
