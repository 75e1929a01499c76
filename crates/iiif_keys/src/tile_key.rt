//! `CacheKey` for the keys of tiles.

ghost use Rattle.std.specs.Prelude.{◌≡◌, ◌≤◌, ◌⊎◌, IfErr, IfOk, None, Some, length};
ghost use Rattle.iiif_keys.specs.Bytes.{tile_key_bytes, tile_val_bytes};
ghost use Rattle.iiif_keys.specs.Reading.{behind_name, name_at, tile_key_refusal, tile_key_with};

use crate::cache_key::CacheKey;
use crate::fault::KeyFault;
use crate::fields::{can_be_name, long_at, put_long, put_name, split_name};
use crate::keys::{Shape, TileKey};
use crate::name::Name;
use crate::places::is_edge;
use crate::tile_val_bytes;
use crate::values::TileVal;
use iiif_pixel::NoMemory;
use std::alloc::Global;

impl CacheKey for TileKey {
    ghost use Rattle.iiif_pixel.specs.Geometry.{channels_of};
    ghost use Rattle.iiif_keys.specs.KeyLaws.{tile_identical, tile_spelled};
    ghost use Rattle.iiif_keys.specs.Blocks.{TileFitsIn};
    ghost use Rattle.iiif_keys.specs.Bytes.{tile_key_bytes, tile_val_bytes, IsTileKey, IsTileVal};
    ghost use Rattle.iiif_keys.specs.Meaning.{tile_is_shaped, tile_meaning, tile_rank, TileHasShape};
    ghost use Rattle.iiif_keys.specs.Reading.{tile_key_refusal, tile_val_refusal};

    type Value = TileVal;

    ghost name_of = { λ k. k.name };

    ghost edge_of = { λ k. k.edge };

    ghost rank_of = { tile_rank };

    ghost fits_in = { λ s k. TileFitsIn s.dim (channels_of s.kind) k };

    ghost meaning = { tile_meaning };

    ghost derived = { tile_meaning };

    ghost has_shape = { TileHasShape };

    ghost is_shaped = { tile_is_shaped };

    ghost is_key = { IsTileKey };

    ghost key_bytes = { tile_key_bytes };

    ghost key_refusal = { tile_key_refusal };

    ghost is_value = { IsTileVal };

    ghost val_bytes = { tile_val_bytes };

    ghost val_refusal = { tile_val_refusal };

    fn name(&self) -> &Name {
        // The contract of this read says that it is a name.
        let _text = self.name.as_str();
        &self.name
    }

    fn rank(&self) -> u32 {
        0
    }

    fn fits(&self, edge: u32, shape: &Shape) -> bool {
        self.has_place(edge, shape)
    }

    fn shaped(&self, shape: &Shape, value: &TileVal) -> bool {
        self.is_shape_of(shape, value)
    }

    fn size(&self, value: &TileVal) -> u64 {
        len(self) + tile_val_bytes::len(value)
    }

    fn copy(&self) -> Result<TileKey, NoMemory> {
        Ok(TileKey {
            name: self.name.copy()?,
            edge: self.edge,
            tx: self.tx,
            ty: self.ty,
        })
    }

    fn bytes(&self, alloc: Global) -> Result<Vec<u8>, NoMemory> {
        let mut out = Vec::with_capacity(alloc, len(self) as usize)?;
        put_name(&mut out, &self.name)?;
        put_long(&mut out, self.edge)?;
        put_long(&mut out, self.tx)?;
        put_long(&mut out, self.ty)?;
        Ok(out)
    }

    fn from_bytes(alloc: Global, bytes: &[u8]) -> Result<TileKey, KeyFault> {
        decode(alloc, bytes)
    }

    fn value_bytes(alloc: Global, value: &TileVal) -> Result<Vec<u8>, NoMemory> {
        tile_val_bytes::encode(alloc, value)
    }

    fn value_from(alloc: Global, bytes: &[u8]) -> Result<TileVal, KeyFault> {
        tile_val_bytes::decode(alloc, bytes)
    }

    fn laws() {}

    ghost identical = { tile_identical };

    ghost spelled = { tile_spelled };
}

/// Returns how many bytes the key has.
fn len(key: &TileKey) -> u64
    ensures len { result ≡ length (tile_key_bytes key.now) }
    ensures within { result ≤ 1038 }
{
    key.name.as_str().len() as u64 + 14
}

/// Decodes a tile's key, or returns the first check that the bytes fail.
#[tactic(auto, unfolding(crate::specs::Reading::tile_key_with))]
fn decode(alloc: Global, bytes: &[u8]) -> Result<TileKey, KeyFault>
    ensures key { IfOk result (λ k. k ≡ tile_key_with (name_at bytes.now) (behind_name bytes.now)) }
    ensures accepted { IfOk result (λ k. tile_key_refusal bytes.now ≡ None) }
    ensures refused { IfErr result (λ f. (tile_key_refusal bytes.now ≡ Some f) ⊎
        ((tile_key_refusal bytes.now ≡ None) × (f ≡ KeyFault.NoMemory))) }
{
    let (name, rest) = split_name(bytes, 12)?;
    let edge = long_at(rest, 0);
    if !can_be_name(name) || !is_edge(edge) {
        return Err(KeyFault::Field);
    }
    match Name::from_bytes(alloc, name) {
        Ok(name) => Ok(TileKey {
            name,
            edge,
            tx: long_at(rest, 4),
            ty: long_at(rest, 8),
        }),
        Err(_) => Err(KeyFault::NoMemory),
    }
}
