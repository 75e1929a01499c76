//! Field types.

ghost use Rattle.std.specs.Prelude.{◌≡◌, ◌≤◌, ◌*◌, length, map, IfOk, Some, None, option_map, if◌then◌else◌};
ghost use Rattle.std.specs.List.{range_with_len};
ghost use Rattle.iiif_tiff.specs.Tiff.{number, is_unsigned, size, width_of};
ghost use Rattle.iiif_tiff_read.specs.Code.{endian, code};

use crate::byte_order::ByteOrder;
use std::alloc::{AllocError, Global};

/// Field types of unsigned numbers (TIFF 6.0, section 2).
#[derive(Clone, Copy)]
pub enum FieldType {
    /// One byte.
    Byte,
    /// Two bytes.
    Short,
    /// Four bytes.
    Long,
}

impl FieldType {
    /// Looks up the type by its number in an entry. None for any other type of the standard.
    pub fn from_number(number: u16) -> Option<FieldType>
        ensures { option_map code result ≡ (if is_unsigned number then Some number else None) }
    {
        match number {
            1 => Some(FieldType::Byte),
            3 => Some(FieldType::Short),
            4 => Some(FieldType::Long),
            _ => None,
        }
    }

    /// Returns how many bytes a number of the type takes.
    pub fn size(self) -> usize
        ensures { result ≡ size (code self) }
    {
        match self {
            FieldType::Byte => 1,
            FieldType::Short => 2,
            FieldType::Long => 4,
        }
    }

    /// Decodes the number at the front of the bytes.
    pub fn decode(self, order: ByteOrder, bytes: &[u8]) -> u32
        requires { size (code self) ≤ length bytes.now }
        ensures { result ≡ number (endian order) (width_of (code self)) bytes.now 0 }
    {
        match self {
            FieldType::Byte => bytes[0] as u32,
            FieldType::Short => order.short([bytes[0], bytes[1]]) as u32,
            FieldType::Long => order.long([bytes[0], bytes[1], bytes[2], bytes[3]]),
        }
    }

    /// Decodes the first n numbers, which stand one after another.
    pub fn decode_all(
        self,
        alloc: Global,
        order: ByteOrder,
        bytes: &[u8],
        n: u32,
    ) -> Result<Vec<u32>, AllocError>
        requires { n * size (code self) ≤ length bytes.now }
        ensures numbers { IfOk result (λ v. v.items ≡ map
            (λ i. number (endian order) (width_of (code self)) bytes.now (i * size (code self))) (range_with_len 0 n)) }
        ensures length { IfOk result (λ v. length v.items ≡ n) }
    {
        let mut numbers = Vec::with_capacity(alloc, n as usize)?;
        for i in 0..n {
            numbers.push(self.decode(order, &bytes[i as usize * self.size()..]))?;
        }
        Ok(numbers)
    }
}
