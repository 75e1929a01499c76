//! The keys of tiles and of sums, and their values, as one type each: equality, sizes, copies.

ghost use Rattle.std.specs.Prelude.{◌≡◌, ◌+◌, ◌^◌, ◌≤◌, ◌<◌, length, IfOk};
ghost use Rattle.iiif_pixel.specs.Geometry.{top_of};
ghost use Rattle.iiif_pixel.specs.Depths.{span_depth, span_values};
ghost use Rattle.iiif_keys.specs.Bytes.{samples_bytes, tile_key_bytes, sum_key_bytes, tile_val_bytes, sum_val_bytes};
ghost use Rattle.iiif_machine.specs.Keys.{entry_size, key_bytes, key_eq, name_of, value_bytes};

use iiif_area::Sums;
use iiif_keys::{CacheKey, Name, SumKey, SumVal, TileKey, TileVal};
use iiif_pixel::{NoMemory, Span};
use std::alloc::Global;

/// The key of a tile or of a sum.
#[derive(Drop)]
pub enum Key {
    Tile(TileKey),
    Sum(SumKey),
}

/// A tile or a sum.
#[derive(Drop)]
pub enum Value {
    Tile(TileVal),
    Sum(SumVal),
}

impl Key {
    /// An equal key. The only error is lack of memory.
    pub fn copy(&self) -> Result<Key, NoMemory>
        ensures { IfOk result (λ key. key ≡ self.now) }
    {
        match self {
            Key::Tile(key) => Ok(Key::Tile(key.copy()?)),
            Key::Sum(key) => Ok(Key::Sum(key.copy()?)),
        }
    }
}

/// Whether two keys are one.
#[tactic(auto, unfolding(crate::specs::Keys::key_eq))]
pub fn same(a: &Key, b: &Key) -> bool
    ensures { result ≡ key_eq a.now b.now }
{
    match (a, b) {
        (Key::Tile(a), Key::Tile(b)) => a == b,
        (Key::Sum(a), Key::Sum(b)) => a == b,
        _ => false,
    }
}

/// The name of the image.
#[tactic(auto, unfolding(crate::specs::Keys::name_of))]
pub fn name_of(key: &Key) -> &Name
    ensures { result.now ≡ name_of key.now }
{
    match key {
        Key::Tile(key) => &key.name,
        Key::Sum(key) => &key.name,
    }
}

/// The bytes by which a key is written. The only error is lack of memory.
#[tactic(auto, unfolding(crate::specs::Keys::key_bytes))]
pub(crate) fn bytes_of(alloc: Global, key: &Key) -> Result<Vec<u8>, NoMemory>
    ensures { IfOk result (λ v. v.items ≡ key_bytes key.now) }
{
    match key {
        Key::Tile(key) => key.bytes(alloc),
        Key::Sum(key) => key.bytes(alloc),
    }
}

/// How many bytes a key has.
#[tactic(auto, unfolding(crate::specs::Keys::key_bytes))]
fn key_len(key: &Key) -> u64
    ensures len { result ≡ length (key_bytes key.now) }
    ensures within { result ≤ 1063 }
{
    match key {
        Key::Tile(key) => tile_key_len(key),
        Key::Sum(key) => sum_key_len(key),
    }
}

fn tile_key_len(key: &TileKey) -> u64
    ensures len { result ≡ length (tile_key_bytes key.now) }
    ensures within { result ≤ 1063 }
{
    key.name.as_str().len() as u64 + 14
}

fn sum_key_len(key: &SumKey) -> u64
    ensures len { result ≡ length (sum_key_bytes key.now) }
    ensures within { result ≤ 1063 }
{
    key.name.as_str().len() as u64 + 39
}

/// How many bytes a value has.
#[tactic(auto, unfolding(crate::specs::Keys::value_bytes))]
fn value_len(value: &Value) -> u64
    ensures len { result ≡ length (value_bytes value.now) }
    ensures within { result < 2 ^ 63 + 17 }
{
    match value {
        Value::Tile(value) => tile_val_len(value),
        Value::Sum(value) => sum_val_len(value),
    }
}

fn tile_val_len(value: &TileVal) -> u64
    ensures len { result ≡ length (tile_val_bytes value.now) }
    ensures within { result < 2 ^ 63 + 17 }
{
    samples_len(value.raster.samples()) + 9
}

/// How many bytes samples take.
fn samples_len(samples: Span) -> u64
    ensures len { result ≡ length (samples_bytes (top_of (span_depth samples.entry)) (span_values samples.entry)) }
    ensures within { result < 2 ^ 63 }
{
    match samples {
        Span::Eight(samples) => samples.len() as u64,
        Span::Sixteen(samples) => 2 * samples.len() as u64,
    }
}

fn sum_val_len(value: &SumVal) -> u64
    ensures len { result ≡ length (sum_val_bytes value.now) }
    ensures within { result < 2 ^ 63 + 17 }
{
    8 * value.sums.sums().len() as u64 + 17
}

/// How many bytes a key and a value take together.
pub(crate) fn size(key: &Key, value: &Value) -> u64
    ensures { result ≡ entry_size key.now value.now }
{
    key_len(key) + value_len(value)
}

/// An equal value. The only error is lack of memory.
pub fn copy_value(alloc: Global, value: &Value) -> Result<Value, NoMemory>
    ensures { IfOk result (λ v. v ≡ value.now) }
{
    match value {
        Value::Tile(tile) => Ok(Value::Tile(TileVal {
            raster: tile.raster.copy()?,
        })),
        Value::Sum(sum) => Ok(Value::Sum(SumVal {
            sums: copied_sums(alloc, &sum.sums)?,
        })),
    }
}

fn copied_sums(alloc: Global, sums: &Sums) -> Result<Sums, NoMemory>
    ensures { IfOk result (λ s. s ≡ sums.now) }
{
    let list = sums.sums();
    let kind = sums.kind();
    let rect = sums.rect();
    let copy = Vec::from_slice(alloc, list)?;
    Ok(Sums::from_parts(rect, kind, copy))
}
