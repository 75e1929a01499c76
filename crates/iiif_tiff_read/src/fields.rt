//! The fields of a file.

ghost use Rattle.std.specs.Prelude.{◌≡◌, ◌≤◌, length, option_map, IsTrue, IfOk, IfErr, nat_le, is_some};
ghost use Rattle.iiif_tiff.specs.Tiff.{entry_of, one, needed, optional, value_or, entry_fits, value, values, values_or, one_or, only};
ghost use Rattle.iiif_tiff.specs.Tiff.{opening};
ghost use Rattle.iiif_tiff_read.specs.Code.{entry_view, first_values, AreTrue, Reads, Tells, TellsWhere, IsMemoryAfter, IsNotMemory};
ghost use Rattle.iiif_tiff_read.specs.Faults.{Answers};

use crate::byte_order::ByteOrder;
use crate::directory::{read_bytes_at, read_directory, read_header};
use crate::entry::{FieldEntry, first_with};
use crate::fault::OpenFault;
use crate::field_type::FieldType;
use crate::up_to_three::UpToThree;
use iiif_source::Source;
use std::alloc::Global;

/// Fields of a file: its source, its byte order and the entries of its first directory.
#[derive(Drop)]
pub struct Fields<'a, R, S> {
    rt: &'a R,
    source: &'a S,
    order: ByteOrder,
    entries: Vec<FieldEntry>,
}

impl<'a, R, S: Source<R>> Fields<'a, R, S> {
    /// Reads the header and the directory.
    #[tactic(auto, unfolding(iiif_tiff::specs::Tiff::opening))]
    pub fn read(rt: &'a R, alloc: Global, source: &'a S) -> Result<Fields<'a, R, S>, OpenFault>
        ensures source { IfOk result (λ f. f.source.now ≡ source.now) }
        ensures reads { Answers (S.keeps source.now) (S.gave source.now) (opening (S.bytes source.now))
            (λ f. Reads (S.bytes source.now) f.order f.entries.items) result }
        ensures memory { IfErr result (IsMemoryAfter (S.keeps source.now) (opening (S.bytes source.now))) }
    {
        let header = read_header(rt, source)?;
        let entries = read_directory(rt, alloc, source, header)?;
        Ok(Fields {
            rt,
            source,
            order: header.order,
            entries,
        })
    }

    /// Returns how many bytes the file has.
    pub fn source_len(&self) -> u64
        ensures { result ≡ length (S.bytes self.now.source.now) }
    {
        self.source.len()
    }

    /// Returns the byte order.
    pub fn order(&self) -> ByteOrder
        ensures { result ≡ self.now.order }
    {
        self.order
    }

    /// Finds the first entry with a tag.
    fn find(&self, tag: u16) -> Option<FieldEntry>
        ensures { AreTrue S.bytes self.now → option_map entry_view result ≡ entry_of (S.bytes self.now.source.now) tag }
    {
        first_with(&self.entries, tag)
    }

    /// Decodes the value of an entry that has one.
    #[tactic(auto, unfolding(iiif_tiff::specs::Tiff::entry_fits, iiif_tiff::specs::Tiff::value))]
    fn single_value(&self, tag: u16, entry: FieldEntry) -> Result<u32, OpenFault>
        ensures answer { Tells S.bytes S.gave self.now (λ file. entry_fits file tag (one entry.count) (entry_view entry))
            (λ file v. v ≡ value file (entry_view entry) 0) result }
        ensures memory { IfErr result IsNotMemory }
    {
        match FieldType::from_number(entry.kind) {
            Some(kind) if entry.count == 1 => Ok(kind.decode(self.order, &entry.inside)),
            _ => Err(OpenFault::BadField(tag)),
        }
    }

    /// Decodes the value of a required field.
    #[tactic(auto, unfolding(iiif_tiff::specs::Tiff::needed, iiif_tiff::specs::Tiff::value_or))]
    pub fn needed(&self, tag: u16) -> Result<u32, OpenFault>
        ensures answer { Tells S.bytes S.gave self.now (λ file. needed file tag one) (λ file v. v ≡ value_or file tag 0 0) result }
        ensures memory { IfErr result IsNotMemory }
    {
        match self.find(tag) {
            Some(entry) => self.single_value(tag, entry),
            None => Err(OpenFault::Missing(tag)),
        }
    }

    /// Decodes the value of a field, or returns its default.
    #[tactic(auto, unfolding(iiif_tiff::specs::Tiff::optional, iiif_tiff::specs::Tiff::value_or))]
    pub fn optional(&self, tag: u16, default: u32) -> Result<u32, OpenFault>
        ensures answer { Tells S.bytes S.gave self.now (λ file. optional file tag one) (λ file v. v ≡ value_or file tag 0 default) result }
        ensures memory { IfErr result IsNotMemory }
    {
        match self.find(tag) {
            Some(entry) => self.single_value(tag, entry),
            None => Ok(default),
        }
    }

    /// Reads the first n values of an entry whose count is allowed.
    #[tactic(auto, unfolding(iiif_tiff::specs::Tiff::entry_fits))]
    fn first_values(
        &self,
        alloc: Global,
        tag: u16,
        entry: FieldEntry,
        allowed: bool,
        n: u32,
    ) -> Result<Vec<u32>, OpenFault>
        requires { IsTrue allowed → n ≤ entry.count }
        ensures length { IfOk result (λ v. length v.items ≡ n) }
        ensures values { TellsWhere S.bytes S.gave self.now (λ _. S.keeps self.now.source.now)
            (λ file. entry_fits file tag allowed (entry_view entry))
            (λ file v. v.items ≡ values file (entry_view entry) n) result }
        ensures memory { IfErr result (IsMemoryAfter (AreTrue S.bytes self.now)
            (entry_fits (S.bytes self.now.source.now) tag allowed (entry_view entry))) }
    {
        let kind = match FieldType::from_number(entry.kind) {
            Some(kind) if allowed => kind,
            _ => return Err(OpenFault::BadField(tag)),
        };
        let size = kind.size() as u64;
        if entry.count as u64 * size <= 4 {
            return Ok(kind.decode_all(alloc, self.order, &entry.inside, n)?);
        }
        let offset = self.order.long(entry.inside) as u64;
        if self.source.len() < offset + entry.count as u64 * size {
            return Err(OpenFault::Truncated);
        }
        let bytes = read_bytes_at(
            self.rt,
            alloc,
            self.source,
            offset,
            n as usize * kind.size(),
        )?;
        Ok(kind.decode_all(alloc, self.order, &bytes, n)?)
    }

    /// Reads all values of an entry whose count is allowed, at most three. Takes no memory.
    #[tactic(auto, unfolding(iiif_tiff::specs::Tiff::entry_fits))]
    fn values_up_to_three(
        &self,
        tag: u16,
        entry: FieldEntry,
        allowed: bool,
    ) -> Result<UpToThree, OpenFault>
        requires { IsTrue allowed → entry.count ≤ 3 }
        ensures values { TellsWhere S.bytes S.gave self.now (λ _. S.keeps self.now.source.now)
            (λ file. entry_fits file tag allowed (entry_view entry))
            (λ file v. v ≡ values file (entry_view entry) entry.count) result }
        ensures memory { IfErr result IsNotMemory }
    {
        let kind = match FieldType::from_number(entry.kind) {
            Some(kind) if allowed => kind,
            _ => return Err(OpenFault::BadField(tag)),
        };
        let count = entry.count as usize;
        let len = count * kind.size();
        if len <= 4 {
            return Ok(UpToThree::decode(kind, self.order, &entry.inside, count));
        }
        let offset = self.order.long(entry.inside) as u64;
        if self.source.len() < offset + len as u64 {
            return Err(OpenFault::Truncated);
        }
        let mut bytes = [0u8; 12];
        self.source.read_at(self.rt, offset, &mut bytes[..len])?;
        Ok(UpToThree::decode(kind, self.order, &bytes[..len], count))
    }

    /// Reads all values of a field that has one, or one for each channel; or returns its default.
    #[tactic(auto, unfolding(iiif_tiff::specs::Tiff::optional, iiif_tiff::specs::Tiff::values_or))]
    pub fn each(&self, tag: u16, channels: u32, default: u32) -> Result<UpToThree, OpenFault>
        requires { channels ≤ 3 }
        ensures values { TellsWhere S.bytes S.gave self.now (λ _. S.keeps self.now.source.now) (λ file. optional file tag (one_or channels))
            (λ file v. v ≡ values_or file tag default) result }
        ensures memory { IfErr result IsNotMemory }
    {
        match self.find(tag) {
            Some(entry) => {
                let allowed = entry.count == 1 || entry.count == channels;
                self.values_up_to_three(tag, entry, allowed)
            }
            None => Ok(UpToThree::single(default)),
        }
    }

    /// Reads the first n values of a required field that has n or more.
    #[tactic(auto, unfolding(iiif_tiff::specs::Tiff::needed), using(crate::proofs::Values::of_field))]
    pub fn list(&self, alloc: Global, tag: u16, n: u32) -> Result<Vec<u32>, OpenFault>
        ensures length { IfOk result (λ v. length v.items ≡ n) }
        ensures values { TellsWhere S.bytes S.gave self.now (λ _. S.keeps self.now.source.now) (λ file. needed file tag (nat_le n))
            (λ file v. v.items ≡ first_values file tag n) result }
        ensures memory { IfErr result (IsMemoryAfter (AreTrue S.bytes self.now) (needed (S.bytes self.now.source.now) tag (nat_le n))) }
    {
        match self.find(tag) {
            Some(entry) => self.first_values(alloc, tag, entry, n <= entry.count, n),
            None => Err(OpenFault::Missing(tag)),
        }
    }

    /// Refuses a field unless it is absent or has this value, its default.
    #[tactic(auto, unfolding(iiif_tiff::specs::Tiff::only))]
    pub fn expect_value(&self, tag: u16, value: u32) -> Result<(), OpenFault>
        ensures answer { Tells S.bytes S.gave self.now (λ file. only file tag value) (λ _ _. Unit {0}) result }
        ensures memory { IfErr result IsNotMemory }
    {
        if self.optional(tag, value)? == value {
            Ok(())
        } else {
            Err(OpenFault::Unsupported(tag))
        }
    }

    /// Returns whether the file has a field.
    pub fn has(&self, tag: u16) -> bool
        ensures { AreTrue S.bytes self.now → result ≡ is_some (entry_of (S.bytes self.now.source.now) tag) }
    {
        self.find(tag).is_some()
    }
}
