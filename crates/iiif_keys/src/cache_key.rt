//! Keys as caches, flights and peers take them.

ghost use Rattle.std.specs.Prelude.{◌≡◌, ◌↔◌, ◌+◌, ◌^◌, ◌<◌, ◌≤◌, ◌⊎◌, ℕ, true, Bool, List, length, Option, None, IfErr, IfOk, IsTrue};
ghost use Rattle.std.specs.Prelude.{MatchResult};
ghost use Rattle.iiif_keys.specs.Names.{named, Pictures, IsName, IsSource};
ghost use Rattle.iiif_keys.specs.Shapes.{HasPicture};
ghost use Rattle.iiif_keys.specs.Blocks.{NamesPart};
ghost use Rattle.iiif_keys.specs.declared.keys.Shape.{Shape};
ghost use Rattle.iiif_keys.specs.declared.fault.KeyFault.{KeyFault};

use crate::fault::KeyFault;
use crate::keys::Shape;
use crate::name::Name;
use iiif_pixel::NoMemory;
use std::alloc::Global;
use std::hash::Hash;

/// A key of a cache, which determines its value: the value is the key's meaning.
pub trait CacheKey: Drop + Eq + Hash {
    type Value: Drop;

    /// The name of the image.
    ghost name_of: { Self → List ℕ };

    /// The side of a tile.
    ghost edge_of: { Self → ℕ };

    /// The rank of the key. A load of a key waits only for keys of lower rank.
    ghost rank_of: { Self → ℕ };

    /// The key names a tile or a block of an image of this shape.
    ghost fits_in: { Shape → Self → Type 0 };

    /// The value of the key, where names have these pictures.
    ghost meaning: { Pictures → Self → Self.Value };

    /// The value that the meanings of the key's parts make.
    ghost derived: { Pictures → Self → Self.Value };

    /// A value has the pixels, the channels, and of a tile the depth, of the key's meaning in an image of this shape.
    ghost has_shape: { Shape → Self → Self.Value → Type 0 };

    /// `has_shape` as a test, for the picture of the key's name. A clause on a value that is kept can name it.
    ghost is_shaped: { Pictures → Self → Self.Value → Bool };

    /// The key can be decoded: its fields are in range.
    ghost is_key: { Self → Type 0 };

    /// The bytes of the key.
    ghost key_bytes: { Self → List ℕ };

    /// The first check that these bytes of a key fail.
    ghost key_refusal: { List ℕ → Option KeyFault };

    /// The value can be decoded: its fields are in range.
    ghost is_value: { Self.Value → Type 0 };

    /// The bytes of the value.
    ghost val_bytes: { Self.Value → List ℕ };

    /// The first check that these bytes of a value fail.
    ghost val_refusal: { List ℕ → Option KeyFault };

    /// Returns the name of the image.
    fn name(&self) -> &Name
        ensures value { result.now ≡ name_of self.now }
        ensures name { IsName (name_of self.now) };

    /// Returns the rank of the key: 0 for a tile; of a sum one more than of its parts.
    fn rank(&self) -> u32
        ensures { result ≡ rank_of self.now };

    /// Returns whether the key has this edge, and names a tile or a block of an image of this shape. It allocates nothing.
    fn fits(&self, edge: u32, shape: &Shape) -> bool
        ensures fits { IsTrue result ↔ ((edge_of self.now ≡ edge) × fits_in shape.now self.now) }
        // With the shape of the named picture: the key names a part of that picture.
        ensures named { (shows : Pictures) → HasPicture shows (name_of self.now) shape.now
            → IsTrue result ↔ NamesPart shows edge (name_of self.now) (edge_of self.now) (λ s. fits_in s self.now) };

    /// Returns whether a value has the pixels, the channels, and of a tile the depth, of the meaning of a key that fits. It allocates
    /// nothing.
    fn shaped(&self, shape: &Shape, value: &Self::Value) -> bool
        requires { fits_in shape.now self.now }
        ensures shape { IsTrue result ↔ has_shape shape.now self.now value.now }
        ensures value { IsTrue result → is_value value.now }
        // With the shape of the named picture: the test of the value.
        ensures named { (shows : Pictures) → HasPicture shows (name_of self.now) shape.now
            → IsTrue result ↔ IsTrue (is_shaped shows self.now value.now) };

    /// Returns how many bytes the key and a value take together. It allocates nothing.
    fn size(&self, value: &Self::Value) -> u64
        ensures { result ≡ length (key_bytes self.now) + length (val_bytes value.now) };

    /// Returns an equal key. The only error is lack of memory.
    fn copy(&self) -> Result<Self, NoMemory>
        ensures { IfOk result (λ k. k ≡ self.now) };

    /// Encodes the key. The only error is lack of memory.
    fn bytes(&self, alloc: Global) -> Result<Vec<u8>, NoMemory>
        ensures { IfOk result (λ v. v.items ≡ key_bytes self.now) };

    /// Decodes a key, or returns the first check that the bytes fail. It allocates for bytes that fail none.
    fn from_bytes(alloc: Global, bytes: &[u8]) -> Result<Self, KeyFault>
        ensures found { IfOk result (λ k. is_key k × (bytes.now ≡ key_bytes k)) }
        ensures only { (k : Self) → is_key k → bytes.now ≡ key_bytes k → MatchResult result (λ r. r ≡ k) (λ f. f ≡ KeyFault.NoMemory) }
        ensures refused { IfErr result (λ f. (key_refusal bytes.now ≡ Some f) ⊎
            ((key_refusal bytes.now ≡ None) × (f ≡ KeyFault.NoMemory))) };

    /// Encodes a value. The only error is lack of memory.
    fn value_bytes(alloc: Global, value: &Self::Value) -> Result<Vec<u8>, NoMemory>
        ensures { IfOk result (λ v. v.items ≡ val_bytes value.now) };

    /// Decodes a value, or returns the first check that the bytes fail. It allocates for bytes that fail none.
    fn value_from(alloc: Global, bytes: &[u8]) -> Result<Self::Value, KeyFault>
        ensures found { IfOk result (λ v. is_value v × (bytes.now ≡ val_bytes v)) }
        ensures only { (v : Self.Value) → is_value v → bytes.now ≡ val_bytes v →
            MatchResult result (λ r. r ≡ v) (λ f. f ≡ KeyFault.NoMemory) }
        ensures refused { IfErr result (λ f. (val_refusal bytes.now ≡ Some f) ⊎
            ((val_refusal bytes.now ≡ None) × (f ≡ KeyFault.NoMemory))) };

    /// States the laws of keys. It computes nothing.
    fn laws()
        // The meanings of its parts make the key's meaning.
        ensures derived { (shows : Pictures) (s : Shape) (k : Self) → HasPicture shows (name_of k) s → IsSource (named shows (name_of k))
            → fits_in s k → derived shows k ≡ meaning shows k }

        // A meaning has its key's shape, and can be decoded.
        ensures meant { (shows : Pictures) (s : Shape) (k : Self) → HasPicture shows (name_of k) s → IsSource (named shows (name_of k))
            → fits_in s k → has_shape s k (meaning shows k) × is_value (meaning shows k) }

        // The test of a value's shape.
        ensures shapes { (shows : Pictures) (s : Shape) (k : Self) (v : Self.Value) → HasPicture shows (name_of k) s
            → IsTrue (is_shaped shows k v) ↔ has_shape s k v }

        // A key that fits an image can be decoded, and it and the values of its shape are short enough to be sent.
        ensures keys { (s : Shape) (k : Self) → s.dim.w < 2 ^ 32 → s.dim.h < 2 ^ 32 → IsName (name_of k) → fits_in s k → is_key k }
        ensures key_len { (k : Self) → is_key k → length (key_bytes k) ≤ 4096 }
        ensures val_len { (s : Shape) (k : Self) (v : Self.Value) → fits_in s k → has_shape s k v → is_value v
            → length (val_bytes v) ≤ 2 ^ 26 };

    /// Keys that are equal by `==` are one key.
    ghost identical: { (a b : Self) → Self.eq a b ≡ true → a ≡ b };

    /// A key has at least one byte, so no entry is of size 0.
    ghost spelled: { (k : Self) → 0 < length (key_bytes k) };
}
