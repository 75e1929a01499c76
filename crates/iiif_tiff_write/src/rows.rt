//! Rows of a picture as bytes of a strip.

ghost use Rattle.std.specs.Prelude.{◌≡◌, ◌+◌, ◌*◌, ◌<◌, ◌≤◌, ◌⊎◌, ◌++◌, length, vec_len, vec_capacity, OnOk, OnErr};
ghost use Rattle.std.specs.Int.{div_ceil, to_le_bytes, w16};
ghost use Rattle.std.specs.List.{flat_map};
ghost use Rattle.iiif_pixel.specs.Geometry.{top_of};
ghost use Rattle.iiif_pixel.specs.Depths.{span_depth, span_values};
ghost use Rattle.iiif_tiff_write.specs.OutKind.{out_depth, samples_per_pixel};
ghost use Rattle.iiif_tiff_write.specs.File.{row_len, strip, white_bit};
ghost use Rattle.iiif_tiff_write.specs.Code.{bit_of, byte_from, packed_row};

use crate::kind::OutKind;
use iiif_pixel::{NoMemory, Raster, Span};

/// Returns the bit of a sample: 1, white, in the upper half of 8 bits, and 0, black, below it.
fn white_bit(sample: u8) -> u8
    ensures { result ≡ white_bit 255 sample }
{
    if sample < 128 { 0 } else { 1 }
}

/// Packs eight samples into a byte, the first into the highest bit.
fn whole_byte(samples: &[u8], i: usize) -> u8
    requires { i + 8 ≤ length samples.now }
    ensures { result ≡ byte_from samples.now i }
{
    white_bit(samples[i]) * 128
        + white_bit(samples[i + 1]) * 64
        + white_bit(samples[i + 2]) * 32
        + white_bit(samples[i + 3]) * 16
        + white_bit(samples[i + 4]) * 8
        + white_bit(samples[i + 5]) * 4
        + white_bit(samples[i + 6]) * 2
        + white_bit(samples[i + 7])
}

/// Returns the bit of sample `i`, and 0 behind the last one.
fn bit(samples: &[u8], i: usize) -> u8
    ensures value { result ≡ bit_of samples.now i }
    ensures bound { result ≤ 1 }
{
    if i < samples.len() {
        white_bit(samples[i])
    } else {
        0
    }
}

/// Packs the last samples of a row, fewer than eight, into a byte.
fn last_byte(samples: &[u8], i: usize) -> u8
    requires { i < length samples.now }
    ensures { result ≡ byte_from samples.now i }
{
    bit(samples, i) * 128
        + bit(samples, i + 1) * 64
        + bit(samples, i + 2) * 32
        + bit(samples, i + 3) * 16
        + bit(samples, i + 4) * 8
        + bit(samples, i + 5) * 4
        + bit(samples, i + 6) * 2
        + bit(samples, i + 7)
}

/// Appends a row of bits, padded to a whole byte.
#[tactic(auto, using(crate::proofs::PackingLemmas::packing))]
fn pack_row(samples: &[u8], out: &mut Vec<u8>)
    requires { vec_len out.old + div_ceil (length samples.now) 8 ≤ vec_capacity out.old }
    ensures bytes { out.new.items ≡ out.old.items ++ packed_row samples.now }
    ensures len { vec_len out.new ≡ vec_len out.old + div_ceil (length samples.now) 8 }
    ensures capacity { vec_capacity out.new ≡ vec_capacity out.old }
{
    let whole = samples.len() / 8;
    for j in 0..whole {
        out.push_reserved(whole_byte(samples, 8 * j));
    }
    if 8 * whole < samples.len() {
        out.push_reserved(last_byte(samples, 8 * whole));
    }
}

/// Appends all rows as bits.
fn pack_rows(raster: &Raster, out: &mut Vec<u8>)
    requires channels { raster.now.channels ≡ 1 }
    requires top { raster.now.top ≡ 255 }
    requires room { vec_len out.old + row_len OutKind.Bitonal raster.now.width * raster.now.height ≤ vec_capacity out.old }
    ensures { out.new.items ≡ out.old.items ++ strip OutKind.Bitonal raster.now }
{
    let dim = raster.dim();
    for y in 0..dim.h {
        pack_row(bytes_of(raster.span(0, y, dim.w)), out);
    }
}

/// Lends samples of 8 bits.
fn bytes_of<'a>(span: Span<'a>) -> &'a [u8]
    requires { top_of (span_depth span) ≡ 255 }
    ensures { result.now ≡ span_values span.entry }
{
    match span {
        Span::Eight(samples) => samples,
        Span::Sixteen(_) => &[],
    }
}

/// Lends samples of 16 bits.
fn shorts_of<'a>(span: Span<'a>) -> &'a [u16]
    requires { top_of (span_depth span) ≡ 65535 }
    ensures { result.now ≡ span_values span.entry }
{
    match span {
        Span::Eight(_) => &[],
        Span::Sixteen(samples) => samples,
    }
}

/// Appends samples of 16 bits, the low byte of each first.
fn push_shorts(samples: &[u16], out: &mut Vec<u8>)
    requires { vec_len out.old + 2 * length samples.now ≤ vec_capacity out.old }
    ensures { out.new.items ≡ out.old.items ++ flat_map (to_le_bytes w16) samples.now }
{
    for sample in samples {
        let pair = sample.to_le_bytes();
        out.push_reserved(pair[0]);
        out.push_reserved(pair[1]);
    }
}

/// Appends samples of 16 bits. Where memory is refused, the vector stays as it was.
fn put_shorts(samples: &[u16], out: &mut Vec<u8>) -> Result<(), NoMemory>
    ensures rows { OnOk result (out.new.items ≡ out.old.items ++ flat_map (to_le_bytes w16) samples.now) }
    ensures err { OnErr result (out.new.items ≡ out.old.items) }
{
    out.reserve(samples.len() * 2)?;
    push_shorts(samples, out);
    Ok(())
}

/// Lends the rows of a raster of 8 bits, a whole picture or a band of its rows, as the strip of a file has them: its samples
/// themselves, so nothing is copied.
pub fn byte_rows<'a>(raster: &'a Raster, kind: OutKind) -> &'a [u8]
    requires kind { (kind ≡ OutKind.Gray) ⊎ (kind ≡ OutKind.Rgb) }
    requires channels { raster.now.channels ≡ samples_per_pixel kind }
    requires depth { raster.now.top ≡ top_of (out_depth kind) }
    ensures { result.now ≡ strip kind raster.now }
{
    // Proved here: there are as many samples as the rows have.
    raster.is_whole();
    bytes_of(raster.samples())
}

/// Appends the rows of a raster, a whole picture or a band of its rows, as the strip of a file has them. Where memory is refused,
/// the vector stays as it was.
pub fn put_rows(raster: &Raster, kind: OutKind, out: &mut Vec<u8>) -> Result<(), NoMemory>
    requires channels { raster.now.channels ≡ samples_per_pixel kind }
    requires depth { raster.now.top ≡ top_of (out_depth kind) }
    ensures rows { OnOk result (out.new.items ≡ out.old.items ++ strip kind raster.now) }
    ensures err { OnErr result (out.new.items ≡ out.old.items) }
{
    // Proved here: there are as many samples as the rows have, and none is above the top.
    raster.is_whole();
    match kind {
        OutKind::Gray | OutKind::Rgb => out.extend_from_slice(byte_rows(raster, kind)),
        OutKind::Gray16 | OutKind::Rgb16 => put_shorts(shorts_of(raster.samples()), out),
        OutKind::Bitonal => {
            let dim = raster.dim();
            out.reserve(dim.w.div_ceil(8) as usize * dim.h as usize)?;
            pack_rows(raster, out);
            Ok(())
        }
    }
}
