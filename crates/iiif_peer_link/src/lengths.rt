//! How long a reply is, by the key that is asked.

ghost use Rattle.std.specs.Prelude.{◌≡◌, ◌+◌, ◌*◌};
ghost use Rattle.iiif_pixel.specs.Geometry.{bytes_of, channels_of};
ghost use Rattle.iiif_keys.specs.Blocks.{places_in, sum_val_len, tile_of, SumFitsIn, TileFitsIn};
ghost use Rattle.iiif_keys.specs.Bytes.{sum_val_bytes, tile_val_bytes, IsSumVal, IsTileVal};
ghost use Rattle.iiif_keys.specs.Meaning.{SumHasShape, TileHasShape};
ghost use Rattle.iiif_keys.specs.declared.values.SumVal.{SumVal};
ghost use Rattle.iiif_keys.specs.declared.values.TileVal.{TileVal};
ghost use Rattle.iiif_peer_link.specs.Lengths.{around, tile_val_len, HasRoom};

use iiif_keys::{Shape, SumKey, TileKey};

/// How many bytes of a reply are none of its value, at most: the magic, the length of a key and the longest key, the status, the length of
/// the value, and the digest.
const AROUND: u64 = 4 + 4 + 4_096 + 1 + 4 + 32;

/// How many bytes a reply for the key has at most, where its value is of the key's shape.
pub fn tile_reply_len(key: &TileKey, shape: &Shape) -> u64
    requires { TileFitsIn shape.now.dim (channels_of shape.now.kind) key.now }
    ensures value { result ≡ around + tile_val_len (tile_of shape.now.dim key.now) (channels_of shape.now.kind) (bytes_of shape.now.depth) }
    ensures room { (v : TileVal) → TileHasShape shape.now key.now v → IsTileVal v → HasRoom result (tile_val_bytes v) }
{
    let rect = key.rect_in(shape.dim);
    let places = u64::from(rect.w) * u64::from(rect.h);
    let samples = places * shape.kind.channels() as u64;
    AROUND + 9 + samples * shape.depth.bytes() as u64
}

/// How many bytes a reply for the key has at most, where its value is of the key's shape.
pub fn sum_reply_len(key: &SumKey, shape: &Shape) -> u64
    requires { SumFitsIn shape.now.dim (channels_of shape.now.kind) key.now }
    ensures value { result ≡ around + sum_val_len (places_in shape.now.dim key.now) (channels_of shape.now.kind) }
    ensures room { (v : SumVal) → SumHasShape shape.now key.now v → IsSumVal v → HasRoom result (sum_val_bytes v) }
{
    let rect = key.places_in(shape.dim);
    let places = u64::from(rect.w) * u64::from(rect.h);
    AROUND + 17 + 8 * (places * shape.kind.channels() as u64)
}
