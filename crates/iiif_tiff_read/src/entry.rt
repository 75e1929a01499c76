//! Entries of a directory.

ghost use Rattle.std.specs.Prelude.{◌≡◌, ◌+◌, ◌*◌, ◌≤◌, ℕ, List, length, map, find, ◌==◌, take, drop, IfOk};
ghost use Rattle.std.specs.Int.{w16, w32};
ghost use Rattle.std.specs.List.{range_with_len};
ghost use Rattle.iiif_tiff.specs.Tiff.{number};
ghost use Rattle.iiif_tiff.specs.Tiff as tiff;
ghost use Rattle.iiif_tiff_read.specs.Code.{endian, entry_views};

use crate::byte_order::ByteOrder;
use std::alloc::{AllocError, Global};

/// Entry of the directory (TIFF 6.0, section 2): the tag of a field, its type and the count of its values. The values stand in the
/// entry's last four bytes where they fit, else at the offset that stands there.
#[derive(Clone, Copy)]
pub struct FieldEntry {
    pub tag: u16,
    pub kind: u16,
    pub count: u32,
    pub inside: [u8; 4],
}

impl FieldEntry {
    /// Decodes the entry at the front of the bytes.
    fn decode(order: ByteOrder, bytes: &[u8]) -> FieldEntry
        requires { 12 ≤ length bytes.now }
        ensures tag { result.tag ≡ number (endian order) w16 bytes.now 0 }
        ensures kind { result.kind ≡ number (endian order) w16 bytes.now 2 }
        ensures count { result.count ≡ number (endian order) w32 bytes.now 4 }
        ensures inside { result.inside ≡ take 4 (drop 8 bytes.now) }
    {
        FieldEntry {
            tag: order.short([bytes[0], bytes[1]]),
            kind: order.short([bytes[2], bytes[3]]),
            count: order.long([bytes[4], bytes[5], bytes[6], bytes[7]]),
            inside: [bytes[8], bytes[9], bytes[10], bytes[11]],
        }
    }
}

/// Decodes entries that stand one after another.
pub fn decode_entries(
    alloc: Global,
    order: ByteOrder,
    bytes: &[u8],
    count: u16,
) -> Result<Vec<FieldEntry>, AllocError>
    requires { length bytes.now ≡ 12 * count }
    ensures { IfOk result (λ v. (file : List ℕ) (start : ℕ) → endian order ≡ tiff.order file →
        bytes.now ≡ take (12 * count) (drop start file)
        → entry_views v.items ≡ map (λ k. tiff.entry file (start + 12 * k)) (range_with_len 0 count)) }
{
    let mut entries = Vec::with_capacity(alloc, count as usize)?;
    for i in 0..count {
        entries.push(FieldEntry::decode(order, &bytes[12 * i as usize..]))?;
    }
    Ok(entries)
}

/// Finds the first entry with a tag.
pub fn first_with(entries: &[FieldEntry], tag: u16) -> Option<FieldEntry>
    ensures { result ≡ find (λ e. e.tag == tag) entries.now }
{
    entries.iter().copied().find(|entry| entry.tag == tag)
}
