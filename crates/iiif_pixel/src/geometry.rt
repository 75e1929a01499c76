//! Image geometry and formats: dimensions, rectangles, kinds, depths, turns and qualities.
//!
//! A *place* is a pixel: a column `x` from the left and a row `y` from the top, both counted from 0.

ghost use Rattle.std.specs.Prelude.{◌≡◌, ℕ, ◌<◌, ◌+◌, ◌*◌, ◌^◌, ◌≤◌, ◌↔◌, IsTrue, SomeIff};
ghost use Rattle.iiif_pixel.specs.Geometry.{LiesIn, HasPlace, sides_of};
ghost use Rattle.iiif_pixel.specs.TurnPlaces.{mirrored_column, turned_dim, turned_place, MovesTo, TurnsInto};

/// Width and height of a picture, in places (pixels).
#[derive(Clone, Copy, Debug, PartialEq, Eq)]
pub struct Dim {
    pub w: u32,
    pub h: u32,
}

/// A rectangle of places: its upper left corner and its sides (IIIF Image API 3.0, 4.1 Region).
#[derive(Clone, Copy, Debug, PartialEq, Eq)]
pub struct Rect {
    pub x: u32,
    pub y: u32,
    pub w: u32,
    pub h: u32,
}

/// Channels of a picture: one gray sample a place, or red, green and blue (TIFF 6.0, sections 4 and 6).
#[derive(Clone, Copy, Debug, PartialEq, Eq)]
pub enum Kind {
    Gray,
    Rgb,
}

/// Bits per sample (TIFF 6.0, section 8, BitsPerSample). Black is 0, white the greatest number of that many bits.
#[derive(Clone, Copy, Debug, PartialEq, Eq)]
pub enum Depth {
    Eight,
    Sixteen,
}

/// A rotation request: first mirror on the vertical axis if `mirror`, then rotate clockwise by 0 to 3 quarters (IIIF Image API 3.0,
/// 4.3 Rotation).
#[derive(Clone, Copy, Debug, PartialEq, Eq)]
pub struct Turn {
    pub mirror: bool,
    pub quarters: u8,
}

/// Qualities of the API (IIIF Image API 3.0, 4.4 Quality): the picture's own, in colour (a gray picture stays gray), gray, and black
/// and white.
#[derive(Clone, Copy, Debug, PartialEq, Eq)]
pub enum Quality {
    Default,
    Color,
    Gray,
    Bitonal,
}

impl Kind {
    ghost use Rattle.iiif_pixel.specs.Geometry.{channels_of};

    /// Returns the number of samples of a place.
    pub fn channels(self) -> usize
        ensures { result ≡ channels_of self }
    {
        match self {
            Kind::Gray => 1,
            Kind::Rgb => 3,
        }
    }

    /// Counts the samples of a picture of these sides. `None` if they are more than there are addresses.
    pub fn count(self, dim: Dim) -> Option<usize>
        ensures { SomeIff result (dim.w * dim.h * channels_of self < 2 ^ 64) (dim.w * dim.h * channels_of self) }
    {
        let places = dim.w as usize * dim.h as usize;
        places.checked_mul(self.channels())
    }
}

impl Depth {
    ghost use Rattle.iiif_pixel.specs.Geometry.{top_of, bytes_of};

    /// Returns the greatest sample, white: the most that [`Raster::set`](crate::Raster::set) may write.
    pub fn top(self) -> u16
        ensures { result ≡ top_of self }
    {
        match self {
            Depth::Eight => 255,
            Depth::Sixteen => 65_535,
        }
    }

    /// Returns the bytes that a sample takes.
    pub fn bytes(self) -> usize
        ensures { result ≡ bytes_of self }
    {
        match self {
            Depth::Eight => 1,
            Depth::Sixteen => 2,
        }
    }
}

impl Dim {
    ghost use Rattle.iiif_pixel.specs.Operations.{turned_width, turned_height};

    /// Returns the sides after a turn: an odd number of quarters swaps them.
    pub fn turned(self, by: Turn) -> Dim
        ensures width { result.w ≡ turned_width by.quarters self.w self.h }
        ensures height { result.h ≡ turned_height by.quarters self.w self.h }
    {
        if by.quarters % 2 == 0 {
            self
        } else {
            Dim {
                w: self.h,
                h: self.w,
            }
        }
    }
}

impl Rect {
    /// Returns the sides.
    pub fn dim(self) -> Dim
        ensures { result ≡ sides_of self }
    {
        Dim {
            w: self.w,
            h: self.h,
        }
    }

    /// Returns whether the rectangle lies inside a picture of these sides.
    pub fn lies_in(self, dim: Dim) -> bool
        ensures { IsTrue result ↔ LiesIn self dim }
    {
        let (x, y) = (u64::from(self.x), u64::from(self.y));
        x + u64::from(self.w) <= u64::from(dim.w) && y + u64::from(self.h) <= u64::from(dim.h)
    }
}

/// Returns column `x` of `w`, counted from the right if the picture is mirrored.
fn mirrored_column(mirror: bool, w: u32, x: u32) -> u32
    requires { x < w }
    ensures value { result ≡ mirrored_column mirror w x }
    ensures within { result < w }
{
    if mirror { w - 1 - x } else { x }
}

/// Maps a place of a picture to its place in the turned picture: the result is a column and a row.
pub fn turn_place(by: Turn, dim: Dim, x: u32, y: u32) -> (u32, u32)
    requires quarters { by.quarters < 4 }
    requires column { x < dim.w }
    requires row { y < dim.h }
    ensures place { result ≡ turned_place by dim x y }
    ensures moves { MovesTo by dim x y result.0 result.1 }
{
    let u = mirrored_column(by.mirror, dim.w, x);
    match by.quarters {
        0 => (u, y),
        1 => (dim.h - 1 - y, u),
        2 => (dim.w - 1 - u, dim.h - 1 - y),
        _ => (y, dim.w - 1 - u),
    }
}

/// Maps a rectangle of the turned picture back to the picture: the result holds the places that the turn moves into `rect`. So a band of
/// the turned picture is made of that part of the picture alone.
///
/// `moves` ties [`turn_place`]'s definition to the turn of pictures: the sample of each place stands, after the turn, where
/// `turned_place` says.
pub fn unturn_rect(by: Turn, dim: Dim, rect: Rect) -> Rect
    requires quarters { by.quarters < 4 }
    requires inside { LiesIn rect (turned_dim by dim) }
    ensures inside { LiesIn result dim }
    ensures same_places { (x y : ℕ) → x < dim.w → y < dim.h →
        HasPlace result x y ↔ HasPlace rect (turned_place by dim x y).0 (turned_place by dim x y).1 }
    ensures same_part { TurnsInto by dim result rect }
    ensures moves { (x y : ℕ) → x < dim.w → y < dim.h →
        MovesTo by dim x y (turned_place by dim x y).0 (turned_place by dim x y).1 }
{
    let (x, y, w, h) = match by.quarters {
        0 => (rect.x, rect.y, rect.w, rect.h),
        1 => (rect.y, dim.h - rect.x - rect.w, rect.h, rect.w),
        2 => (
            dim.w - rect.x - rect.w,
            dim.h - rect.y - rect.h,
            rect.w,
            rect.h,
        ),
        _ => (dim.w - rect.y - rect.h, rect.x, rect.h, rect.w),
    };
    Rect {
        x: if by.mirror { dim.w - x - w } else { x },
        y,
        w,
        h,
    }
}
