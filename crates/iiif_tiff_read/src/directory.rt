//! The header and the first directory of a file.

ghost use Rattle.std.specs.Prelude.{◌≡◌, ◌+◌, ◌*◌, ◌≤◌, length, take, drop, IsTrue, IfOk, IfErr};
ghost use Rattle.std.specs.Int.{w16};
ghost use Rattle.iiif_tiff.specs.Tiff.{header, number, directory_fits, entries};
ghost use Rattle.iiif_tiff.specs.Tiff as tiff;
ghost use Rattle.iiif_tiff_read.specs.Code.{endian, entry_views, IsDeviceFault, IsHeader, IsMemoryAfter, IsNotMemory};
ghost use Rattle.iiif_tiff_read.specs.Faults.{Answers};

use crate::byte_order::ByteOrder;
use crate::entry::{FieldEntry, decode_entries};
use crate::fault::OpenFault;
use iiif_source::{ReadFault, Source};
use std::alloc::Global;

/// Reads the number of two bytes at an offset.
fn read_short_at<R, S: Source<R>>(
    rt: &R,
    source: &S,
    order: ByteOrder,
    at: u64,
) -> Result<u16, ReadFault>
    requires { at + 2 ≤ length (S.bytes source.now) }
    ensures value { IfOk result (λ n. S.keeps source.now → n ≡ number (endian order) w16 (S.bytes source.now) at) }
    ensures fault { IfErr result (λ f. IsTrue (S.gave source.now f)) }
{
    let mut bytes = [0u8; 2];
    source.read_at(rt, at, &mut bytes)?;
    Ok(order.short(bytes))
}

/// Reads n bytes at an offset, by one read.
pub fn read_bytes_at<R, S: Source<R>>(
    rt: &R,
    alloc: Global,
    source: &S,
    at: u64,
    n: usize,
) -> Result<Vec<u8>, OpenFault>
    requires { at + n ≤ length (S.bytes source.now) }
    ensures bytes { IfOk result (λ v. S.keeps source.now → v.items ≡ take n (drop at (S.bytes source.now))) }
    ensures length { IfOk result (λ v. length v.items ≡ n) }
    ensures fault { IfErr result (IsDeviceFault (S.gave source.now)) }
{
    let mut bytes = vec![in alloc; 0u8; n]?;
    source.read_at(rt, at, &mut bytes)?;
    Ok(bytes)
}

/// Header of a file, its first eight bytes: the byte order, and the offset of the first directory.
#[derive(Clone, Copy)]
pub struct Header {
    pub order: ByteOrder,
    pub directory: u32,
}

/// Reads the header.
#[tactic(auto, unfolding(iiif_tiff::specs::Tiff::header))]
pub fn read_header<R, S: Source<R>>(rt: &R, source: &S) -> Result<Header, OpenFault>
    ensures header { Answers (S.keeps source.now) (S.gave source.now) (header (S.bytes source.now))
        (IsHeader (S.bytes source.now)) result }
    ensures whole { IfOk result (λ _. 8 ≤ length (S.bytes source.now)) }
    ensures memory { IfErr result IsNotMemory }
{
    if source.len() < 8 {
        return Err(OpenFault::NotTiff);
    }
    let mut bytes = [0u8; 8];
    source.read_at(rt, 0, &mut bytes)?;
    let order = match [bytes[0], bytes[1], bytes[2], bytes[3]] {
        [b'I', b'I', 42, 0] => ByteOrder::Little,
        [b'M', b'M', 0, 42] => ByteOrder::Big,
        _ => return Err(OpenFault::NotTiff),
    };
    let directory = order.long([bytes[4], bytes[5], bytes[6], bytes[7]]);
    Ok(Header { order, directory })
}

/// Reads how many entries the first directory has, and refuses a directory that ends past the end of the file. Takes no memory.
#[tactic(auto, unfolding(iiif_tiff::specs::Tiff::directory_fits))]
fn read_entry_count<R, S: Source<R>>(rt: &R, source: &S, header: Header) -> Result<u16, OpenFault>
    ensures count { Answers (S.keeps source.now × IsHeader (S.bytes source.now) header) (S.gave source.now)
        (directory_fits (S.bytes source.now))
        (λ n. n ≡ tiff.entry_count (S.bytes source.now)) result }
    ensures in_file { IfOk result (λ n. header.directory + 2 + 12 * n ≤ length (S.bytes source.now)) }
    ensures memory { IfErr result IsNotMemory }
{
    let len = source.len();
    let start = header.directory as u64;
    if len < start + 2 {
        return Err(OpenFault::Truncated);
    }
    let count = read_short_at(rt, source, header.order, start)?;
    let size = 12 * count as u64;
    if len < start + 2 + size {
        return Err(OpenFault::Truncated);
    }
    Ok(count)
}

/// Reads the entries of the first directory, by one read.
pub fn read_directory<R, S: Source<R>>(
    rt: &R,
    alloc: Global,
    source: &S,
    header: Header,
) -> Result<Vec<FieldEntry>, OpenFault>
    ensures entries { Answers (S.keeps source.now × IsHeader (S.bytes source.now) header) (S.gave source.now)
        (directory_fits (S.bytes source.now))
        (λ v. entry_views v.items ≡ entries (S.bytes source.now)) result }
    ensures memory { IfErr result (IsMemoryAfter (S.keeps source.now × IsHeader (S.bytes source.now) header)
        (directory_fits (S.bytes source.now))) }
{
    let count = read_entry_count(rt, source, header)?;
    let start = header.directory as u64 + 2;
    let bytes = read_bytes_at(rt, alloc, source, start, 12 * count as usize)?;
    Ok(decode_entries(alloc, header.order, &bytes, count)?)
}
