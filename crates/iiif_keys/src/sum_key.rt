//! `CacheKey` for the keys of sums.

ghost use Rattle.std.specs.Prelude.{◌≡◌, ◌≤◌, ◌⊎◌, length, IfErr, IfOk, None, Some};
ghost use Rattle.iiif_keys.specs.Bytes.{sum_key_bytes, sum_val_bytes};
ghost use Rattle.iiif_keys.specs.Reading.{behind_name, is_sum_key, name_at, sum_key_refusal, sum_key_with};

use crate::cache_key::CacheKey;
use crate::fault::KeyFault;
use crate::fields::{
    are_sides, can_be_name, long_at, put_long, put_name, put_rect, rect_at, split_name,
};
use crate::keys::{Shape, SumKey};
use crate::name::Name;
use crate::places::{LEVEL_LIMIT, is_edge};
use crate::sum_val_bytes;
use crate::values::SumVal;
use iiif_pixel::{Dim, NoMemory};
use std::alloc::Global;

impl CacheKey for SumKey {
    ghost use Rattle.iiif_pixel.specs.Geometry.{channels_of};
    ghost use Rattle.iiif_keys.specs.KeyLaws.{sum_identical, sum_spelled};
    ghost use Rattle.iiif_keys.specs.Blocks.{SumFitsIn};
    ghost use Rattle.iiif_keys.specs.Bytes.{sum_key_bytes, sum_val_bytes, IsSumKey, IsSumVal};
    ghost use Rattle.iiif_keys.specs.Meaning.{sum_derived, sum_is_shaped, sum_meaning, sum_rank, SumHasShape};
    ghost use Rattle.iiif_keys.specs.Reading.{sum_key_refusal, sum_val_refusal};

    type Value = SumVal;

    ghost name_of = { λ k. k.name };

    ghost edge_of = { λ k. k.edge };

    ghost rank_of = { sum_rank };

    ghost fits_in = { λ s k. SumFitsIn s.dim (channels_of s.kind) k };

    ghost meaning = { sum_meaning };

    ghost derived = { sum_derived };

    ghost has_shape = { SumHasShape };

    ghost is_shaped = { sum_is_shaped };

    ghost is_key = { IsSumKey };

    ghost key_bytes = { sum_key_bytes };

    ghost key_refusal = { sum_key_refusal };

    ghost is_value = { IsSumVal };

    ghost val_bytes = { sum_val_bytes };

    ghost val_refusal = { sum_val_refusal };

    fn name(&self) -> &Name {
        // The contract of this read says that it is a name.
        let _text = self.name.as_str();
        &self.name
    }

    fn rank(&self) -> u32 {
        u32::from(self.level) + 1
    }

    fn fits(&self, edge: u32, shape: &Shape) -> bool {
        self.has_place(edge, shape)
    }

    fn shaped(&self, shape: &Shape, value: &SumVal) -> bool {
        self.is_shape_of(shape, value)
    }

    fn size(&self, value: &SumVal) -> u64 {
        len(self) + sum_val_bytes::len(value)
    }

    fn copy(&self) -> Result<SumKey, NoMemory> {
        Ok(SumKey {
            name: self.name.copy()?,
            edge: self.edge,
            rect: self.rect,
            size: self.size,
            level: self.level,
            bx: self.bx,
            by: self.by,
        })
    }

    fn bytes(&self, alloc: Global) -> Result<Vec<u8>, NoMemory> {
        let mut out = Vec::with_capacity(alloc, len(self) as usize)?;
        put_name(&mut out, &self.name)?;
        put_long(&mut out, self.edge)?;
        put_rect(&mut out, self.rect)?;
        put_long(&mut out, self.size.w)?;
        put_long(&mut out, self.size.h)?;
        out.push(self.level)?;
        put_long(&mut out, self.bx)?;
        put_long(&mut out, self.by)?;
        Ok(out)
    }

    fn from_bytes(alloc: Global, bytes: &[u8]) -> Result<SumKey, KeyFault> {
        decode(alloc, bytes)
    }

    fn value_bytes(alloc: Global, value: &SumVal) -> Result<Vec<u8>, NoMemory> {
        sum_val_bytes::encode(alloc, value)
    }

    fn value_from(alloc: Global, bytes: &[u8]) -> Result<SumVal, KeyFault> {
        sum_val_bytes::decode(alloc, bytes)
    }

    fn laws() {}

    ghost identical = { sum_identical };

    ghost spelled = { sum_spelled };
}

/// Returns how many bytes the key has.
fn len(key: &SumKey) -> u64
    ensures len { result ≡ length (sum_key_bytes key.now) }
    ensures within { result ≤ 1063 }
{
    key.name.as_str().len() as u64 + 39
}

/// Makes a key of its name and of the fields behind it.
#[tactic(auto, unfolding(crate::specs::Reading::sum_key_with))]
fn with_fields(name: Name, rest: &[u8]) -> SumKey
    requires { length rest.now ≡ 37 }
    ensures { result ≡ sum_key_with name rest.now }
{
    SumKey {
        name,
        edge: long_at(rest, 0),
        rect: rect_at(rest, 4),
        size: Dim {
            w: long_at(rest, 20),
            h: long_at(rest, 24),
        },
        level: rest[28],
        bx: long_at(rest, 29),
        by: long_at(rest, 33),
    }
}

/// Returns whether the name and the fields behind it are in range.
#[tactic(auto, unfolding(crate::specs::Reading::sum_key_with))]
fn is_key(name: &[u8], rest: &[u8]) -> bool
    requires { length rest.now ≡ 37 }
    ensures { result ≡ is_sum_key (sum_key_with name.now rest.now) }
{
    let (edge, level) = (long_at(rest, 0), rest[28]);
    can_be_name(name)
        && is_edge(edge)
        && are_sides(long_at(rest, 12), long_at(rest, 16))
        && are_sides(long_at(rest, 20), long_at(rest, 24))
        && level <= LEVEL_LIMIT
}

/// Decodes a sum's key, or returns the first check that the bytes fail.
fn decode(alloc: Global, bytes: &[u8]) -> Result<SumKey, KeyFault>
    ensures key { IfOk result (λ k. k ≡ sum_key_with (name_at bytes.now) (behind_name bytes.now)) }
    ensures accepted { IfOk result (λ k. sum_key_refusal bytes.now ≡ None) }
    ensures refused { IfErr result (λ f. (sum_key_refusal bytes.now ≡ Some f) ⊎
        ((sum_key_refusal bytes.now ≡ None) × (f ≡ KeyFault.NoMemory))) }
{
    let (name, rest) = split_name(bytes, 37)?;
    if !is_key(name, rest) {
        return Err(KeyFault::Field);
    }
    match Name::from_bytes(alloc, name) {
        Ok(name) => Ok(with_fields(name, rest)),
        Err(_) => Err(KeyFault::NoMemory),
    }
}
