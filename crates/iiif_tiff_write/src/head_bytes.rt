//! Heads, written field by field.

ghost use Rattle.std.specs.Prelude.{◌≡◌, ◌+◌, ◌≤◌, [], ◌++◌, length};
ghost use Rattle.std.specs.Int.{w16, w32, to_le_bytes};
ghost use Rattle.iiif_tiff_write.specs.File.{entry_bytes, long_field, short_field, shorts_field_at, rational_field_at, bits_per_sample};
ghost use Rattle.iiif_tiff_write.specs.File.{header, outside};

use crate::kind::OutKind;
use iiif_tiff::tag;
use std::marker::Model;

/// Types of fields (TIFF 6.0, section 2).
const SHORT: u16 = 3;

const LONG: u16 = 4;

const RATIONAL: u16 = 5;

/// A head: the bytes of a file in front of its strip.
#[derive(Drop)]
pub struct Head {
    bytes: [u8; 180],
    len: usize,
}

impl Model for Head {
    ghost use Rattle.std.specs.Prelude.{ℕ, List, take, ◌≤◌};

    ghost Value = { List ℕ };

    ghost view = { λ s. take s.len s.bytes };

    ghost invariant = { λ s. s.len ≤ 180 };
}

impl Head {
    /// Lends the bytes.
    pub fn as_slice(&self) -> &[u8]
        ensures { result.now ≡ self.now }
    {
        &self.bytes[..self.len]
    }

    /// Makes an empty head.
    pub(crate) fn new() -> Head
        ensures { result ≡ [] }
    {
        Head {
            bytes: [0; 180],
            len: 0,
        }
    }

    /// Appends bytes, which fit.
    fn put(&mut self, bytes: &[u8])
        requires { length self.old + length bytes.now ≤ 180 }
        ensures { self.new ≡ self.old ++ bytes.now }
    {
        let end = self.len + bytes.len();
        self.bytes[self.len..end].copy_from_slice(bytes);
        self.len = end;
    }

    /// Appends a number of 16 bits, low byte first.
    pub(crate) fn put_short(&mut self, value: u16)
        requires { length self.old + 2 ≤ 180 }
        ensures bytes { self.new ≡ self.old ++ to_le_bytes w16 value }
        ensures len { length self.new ≡ length self.old + 2 }
    {
        self.put(&value.to_le_bytes());
    }

    /// Appends a number of 32 bits, low byte first.
    pub(crate) fn put_long(&mut self, value: u32)
        requires { length self.old + 4 ≤ 180 }
        ensures bytes { self.new ≡ self.old ++ to_le_bytes w32 value }
        ensures len { length self.new ≡ length self.old + 4 }
    {
        self.put(&value.to_le_bytes());
    }

    /// Appends the header: the byte order, 42, the offset of the directory.
    pub(crate) fn put_header(&mut self)
        requires { length self.old + 8 ≤ 180 }
        ensures bytes { self.new ≡ self.old ++ header }
        ensures len { length self.new ≡ length self.old + 8 }
    {
        self.put(b"II");
        self.put_short(42);
        self.put_long(8);
    }

    /// Appends the first eight bytes of an entry: tag, type and count.
    fn put_entry(&mut self, tag: u16, kind: u16, count: u32)
        requires { length self.old + 8 ≤ 180 }
        ensures bytes { self.new ≡ self.old ++ (to_le_bytes w16 tag ++ to_le_bytes w16 kind ++ to_le_bytes w32 count) }
        ensures len { length self.new ≡ length self.old + 8 }
    {
        self.put_short(tag);
        self.put_short(kind);
        self.put_long(count);
    }

    /// Appends an entry of one SHORT, which fills the first two of its four bytes.
    pub(crate) fn put_short_field(&mut self, tag: u16, value: u16)
        requires { length self.old + 12 ≤ 180 }
        ensures bytes { self.new ≡ self.old ++ entry_bytes (short_field tag value) }
        ensures len { length self.new ≡ length self.old + 12 }
    {
        self.put_entry(tag, SHORT, 1);
        self.put_short(value);
        self.put_short(0);
    }

    /// Appends an entry of one LONG.
    pub(crate) fn put_long_field(&mut self, tag: u16, value: u32)
        requires { length self.old + 12 ≤ 180 }
        ensures bytes { self.new ≡ self.old ++ entry_bytes (long_field tag value) }
        ensures len { length self.new ≡ length self.old + 12 }
    {
        self.put_entry(tag, LONG, 1);
        self.put_long(value);
    }

    /// Appends an entry of several SHORTs, which stand at an offset.
    fn put_shorts_field_at(&mut self, tag: u16, count: u32, offset: u32)
        requires { length self.old + 12 ≤ 180 }
        ensures bytes { self.new ≡ self.old ++ entry_bytes (shorts_field_at tag count offset) }
        ensures len { length self.new ≡ length self.old + 12 }
    {
        self.put_entry(tag, SHORT, count);
        self.put_long(offset);
    }

    /// Appends an entry of one RATIONAL, which stands at an offset.
    pub(crate) fn put_rational_field_at(&mut self, tag: u16, offset: u32)
        requires { length self.old + 12 ≤ 180 }
        ensures bytes { self.new ≡ self.old ++ entry_bytes (rational_field_at tag offset) }
        ensures len { length self.new ≡ length self.old + 12 }
    {
        self.put_entry(tag, RATIONAL, 1);
        self.put_long(offset);
    }

    /// Appends the entry BitsPerSample: of one sample, or of each of three.
    pub(crate) fn put_bits_per_sample(&mut self, kind: OutKind)
        requires { length self.old + 12 ≤ 180 }
        ensures bytes { self.new ≡ self.old ++ entry_bytes (bits_per_sample kind) }
        ensures len { length self.new ≡ length self.old + 12 }
    {
        match kind {
            OutKind::Gray => self.put_short_field(tag::BITS_PER_SAMPLE, 8),
            OutKind::Gray16 => self.put_short_field(tag::BITS_PER_SAMPLE, 16),
            OutKind::Rgb | OutKind::Rgb16 => self.put_shorts_field_at(tag::BITS_PER_SAMPLE, 3, 174),
            OutKind::Bitonal => self.put_short_field(tag::BITS_PER_SAMPLE, 1),
        }
    }

    /// Appends the values outside of the directory: two resolutions 1/1, and the bits of red, green and blue.
    pub(crate) fn put_outside(&mut self, kind: OutKind)
        requires { length self.old + 22 ≤ 180 }
        ensures { self.new ≡ self.old ++ outside kind }
    {
        self.put_long(1);
        self.put_long(1);
        self.put_long(1);
        self.put_long(1);
        match kind {
            OutKind::Gray | OutKind::Bitonal | OutKind::Gray16 => {}
            OutKind::Rgb => {
                self.put_short(8);
                self.put_short(8);
                self.put_short(8);
            }
            OutKind::Rgb16 => {
                self.put_short(16);
                self.put_short(16);
                self.put_short(16);
            }
        }
    }
}
