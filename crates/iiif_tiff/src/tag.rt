//! Tags of the fields that are read or written (TIFF 6.0, sections 8, 15, 18 and 19).

/// Section 8, ImageWidth: the columns of the image.
pub const IMAGE_WIDTH: u16 = 256;

/// Section 8, ImageLength: the rows of the image.
pub const IMAGE_LENGTH: u16 = 257;

/// Section 8, BitsPerSample: the bits of a sample, channel by channel.
pub const BITS_PER_SAMPLE: u16 = 258;

/// Section 8, Compression: 1 is no compression.
pub const COMPRESSION: u16 = 259;

/// Section 8, PhotometricInterpretation: 0 is WhiteIsZero, 1 BlackIsZero, 2 RGB.
pub const PHOTOMETRIC_INTERPRETATION: u16 = 262;

/// Section 8, FillOrder: 1 is the high bit of a byte first.
pub const FILL_ORDER: u16 = 266;

/// Section 8, StripOffsets: the offset of each strip.
pub const STRIP_OFFSETS: u16 = 273;

/// Section 8, Orientation: 1 is the first row at the top and the first column at the left.
pub const ORIENTATION: u16 = 274;

/// Section 8, SamplesPerPixel: the channels of a pixel.
pub const SAMPLES_PER_PIXEL: u16 = 277;

/// Section 8, RowsPerStrip: the rows of a strip.
pub const ROWS_PER_STRIP: u16 = 278;

/// Section 8, StripByteCounts: the bytes of each strip.
pub const STRIP_BYTE_COUNTS: u16 = 279;

/// Section 8, XResolution: the columns in a unit of length.
pub const X_RESOLUTION: u16 = 282;

/// Section 8, YResolution: the rows in a unit of length.
pub const Y_RESOLUTION: u16 = 283;

/// Section 8, PlanarConfiguration: 1 is chunky: the samples of a pixel side by side.
pub const PLANAR_CONFIGURATION: u16 = 284;

/// Section 8, ResolutionUnit: the unit of length of the resolution.
pub const RESOLUTION_UNIT: u16 = 296;

/// Section 15, TileWidth: the columns of a tile.
pub const TILE_WIDTH: u16 = 322;

/// Section 15, TileLength: the rows of a tile.
pub const TILE_LENGTH: u16 = 323;

/// Section 15, TileOffsets: the offset of each tile.
pub const TILE_OFFSETS: u16 = 324;

/// Section 15, TileByteCounts: the bytes of each tile.
pub const TILE_BYTE_COUNTS: u16 = 325;

/// Section 18, ExtraSamples: the meaning of further channels.
pub const EXTRA_SAMPLES: u16 = 338;

/// Section 19, SampleFormat: 1 is unsigned integers.
pub const SAMPLE_FORMAT: u16 = 339;
