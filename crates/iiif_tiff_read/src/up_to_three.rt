//! Values of a field without memory.

ghost use Rattle.std.specs.Prelude.{◌≡◌, ◌≤◌, ◌*◌, [], ◌∷◌, length, map};
ghost use Rattle.std.specs.List.{range_with_len};
ghost use Rattle.iiif_tiff.specs.Tiff.{number, size, width_of};
ghost use Rattle.iiif_tiff_read.specs.Code.{endian, code};

use crate::byte_order::ByteOrder;
use crate::field_type::FieldType;
use std::marker::Model;

/// Values of a field that has one for each sample of a pixel: at most three, held without memory.
#[derive(Drop)]
pub struct UpToThree {
    values: [u32; 3],
    count: usize,
}

impl Model for UpToThree {
    ghost use Rattle.std.specs.Prelude.{ℕ, List, take, ◌≤◌};

    ghost Value = { List ℕ };

    ghost view = { λ f. take f.count f.values };

    ghost invariant = { λ f. f.count ≤ 3 };
}

impl UpToThree {
    /// Holds a single value.
    pub fn single(value: u32) -> UpToThree
        ensures { result ≡ value ∷ [] }
    {
        UpToThree {
            values: [value, 0, 0],
            count: 1,
        }
    }

    /// Returns the values.
    pub fn as_slice(&self) -> &[u32]
        ensures { result.now ≡ self.now }
    {
        &self.values[..self.count]
    }

    /// Decodes the first n numbers of a type, which stand one after another.
    pub fn decode(kind: FieldType, order: ByteOrder, bytes: &[u8], n: usize) -> UpToThree
        requires count { n ≤ 3 }
        requires bytes { n * size (code kind) ≤ length bytes.now }
        ensures { result ≡ map (λ i. number (endian order) (width_of (code kind)) bytes.now (i * size (code kind))) (range_with_len 0 n) }
    {
        let mut values = [0; 3];
        for i in 0..n {
            values[i] = kind.decode(order, &bytes[i * kind.size()..]);
        }
        UpToThree { values, count: n }
    }
}
