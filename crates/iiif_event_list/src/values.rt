//! Keys, values and answers, as text.

ghost use Rattle.std.specs.Prelude.{◌≡◌, ◌++◌, IfOk, OnOk, string_bytes};
ghost use Rattle.std.specs.List.{flat_map};
ghost use Rattle.iiif_pixel.specs.Geometry.{channels_of, top_of};
ghost use Rattle.iiif_pixel.specs.Depths.{span_values};
ghost use Rattle.iiif_machine.specs.Keys.{key_bytes};
ghost use Rattle.iiif_event_list.specs.Texts.{answer_text, bits_word, fault_text, kind_word, picture_text, refusal_word, spaced};

use iiif_keys::{CacheKey, Name, SumKey, SumVal, TileKey, TileVal};
use iiif_machine::{Answer, Key, Numbers, Value};
use iiif_pixel::{Depth, Kind, NoMemory, Raster, Rect, Span};
use iiif_request::Refusal;
use iiif_source::ReadFault;
use percent_encoding::{CONTROLS, utf8_percent_encode};
use std::alloc::Global;

/// Places and sides, each behind a space.
fn put_sides(text: &mut String, sides: &[u32]) -> Result<(), NoMemory> {
    for side in sides {
        write!(text, " {}", side)?;
    }
    Ok(())
}

/// A rectangle, behind a space.
fn put_rect(text: &mut String, rect: Rect) -> Result<(), NoMemory> {
    put_sides(text, &[rect.x, rect.y, rect.w, rect.h])
}

/// A name's word: its controls, spaces and percent signs, and what isn't ASCII, percent-encoded.
pub(crate) fn put_name(text: &mut String, name: &Name) -> Result<(), NoMemory> {
    let escaped = CONTROLS.add(b' ').add(b'%');
    utf8_percent_encode(name.as_str(), escaped).append_to(text)
}

/// The key of a tile, in the words by which an event names it.
fn put_tile_key(text: &mut String, key: &TileKey) -> Result<(), NoMemory> {
    text.push_str("tile ")?;
    put_name(text, &key.name)?;
    put_sides(text, &[key.edge, key.tx, key.ty])
}

/// The key of a sum, in the words by which an event names it.
fn put_sum_key(text: &mut String, key: &SumKey) -> Result<(), NoMemory> {
    text.push_str("sum ")?;
    put_name(text, &key.name)?;
    put_sides(text, &[key.edge])?;
    put_rect(text, key.rect)?;
    let (size, level) = (key.size, u32::from(key.level));
    put_sides(text, &[size.w, size.h, level, key.bx, key.by])
}

/// A key, in the words by which an event names it.
pub(crate) fn put_key(text: &mut String, key: &Key) -> Result<(), NoMemory> {
    match key {
        Key::Tile(key) => put_tile_key(text, key),
        Key::Sum(key) => put_sum_key(text, key),
    }
}

/// The bytes of a key. The only error is lack of memory.
#[tactic(auto, unfolding(iiif_machine::specs::Keys::key_bytes))]
pub(crate) fn key_bytes(alloc: Global, key: &Key) -> Result<Vec<u8>, NoMemory>
    ensures { IfOk result (λ bytes. bytes.items ≡ key_bytes key.now) }
{
    match key {
        Key::Tile(key) => key.bytes(alloc),
        Key::Sum(key) => key.bytes(alloc),
    }
}

/// Gray or RGB.
fn kind_word(kind: Kind) -> &'static str
    ensures { result.now ≡ kind_word (channels_of kind) }
{
    match kind {
        Kind::Gray => "gray",
        Kind::Rgb => "rgb",
    }
}

/// Samples of 8 bits, each behind a space.
fn put_bytes(text: &mut String, samples: &[u8]) -> Result<(), NoMemory>
    ensures { OnOk result (string_bytes text.new ≡ string_bytes text.old ++ flat_map spaced samples.now) }
{
    for sample in samples {
        write!(text, " {}", sample)?;
    }
    Ok(())
}

/// Samples of 16 bits, each behind a space.
fn put_words(text: &mut String, samples: &[u16]) -> Result<(), NoMemory>
    ensures { OnOk result (string_bytes text.new ≡ string_bytes text.old ++ flat_map spaced samples.now) }
{
    for sample in samples {
        write!(text, " {}", sample)?;
    }
    Ok(())
}

/// How many bits a sample has, behind a space.
fn bits_word(depth: Depth) -> &'static str
    ensures { result.now ≡ bits_word (top_of depth) }
{
    match depth {
        Depth::Eight => " 8",
        Depth::Sixteen => " 16",
    }
}

fn put_samples(text: &mut String, samples: Span<'_>) -> Result<(), NoMemory>
    ensures { OnOk result (string_bytes text.new ≡ string_bytes text.old ++ flat_map spaced (span_values samples.entry)) }
{
    match samples {
        Span::Eight(samples) => put_bytes(text, samples),
        Span::Sixteen(samples) => put_words(text, samples),
    }
}

/// A picture, in the words of a setting.
pub(crate) fn put_raster(text: &mut String, raster: &Raster) -> Result<(), NoMemory>
    ensures { OnOk result (string_bytes text.new ≡ string_bytes text.old ++ picture_text raster.now) }
{
    text.push_str(kind_word(raster.kind()))?;
    text.push_str(bits_word(raster.depth()))?;
    let dim = raster.dim();
    write!(text, " {} {}", dim.w, dim.h)?;
    put_samples(text, raster.samples())
}

/// Sums: where they stand, and each of them.
fn put_sums(text: &mut String, value: &SumVal) -> Result<(), NoMemory> {
    let sums = &value.sums;
    write!(text, "sums {}", kind_word(sums.kind()))?;
    put_rect(text, sums.rect())?;
    for sum in sums.sums() {
        write!(text, " {}", sum)?;
    }
    Ok(())
}

pub(crate) fn put_value(text: &mut String, value: &Value) -> Result<(), NoMemory> {
    match value {
        Value::Tile(TileVal { raster }) => put_raster(text, raster),
        Value::Sum(sums) => put_sums(text, sums),
    }
}

pub(crate) fn put_fault(text: &mut String, fault: &ReadFault) -> Result<(), NoMemory>
    ensures { OnOk result (string_bytes text.new ≡ string_bytes text.old ++ fault_text fault.now) }
{
    write!(text, "fault {} {}", fault.place, fault.cause)
}

/// A value, or a fault.
pub(crate) fn put_outcome(
    text: &mut String,
    outcome: &Result<Value, ReadFault>,
) -> Result<(), NoMemory> {
    match outcome {
        Ok(value) => put_value(text, value),
        Err(fault) => put_fault(text, fault),
    }
}

/// Why a request is refused.
fn refusal_word(refusal: Refusal) -> &'static str
    ensures { result.now ≡ refusal_word refusal }
{
    match refusal {
        Refusal::Head => "Head",
        Refusal::Method => "Method",
        Refusal::Path => "Path",
        Refusal::Identifier => "Identifier",
        Refusal::Region => "Region",
        Refusal::Size => "Size",
        Refusal::Rotation => "Rotation",
        Refusal::Quality => "Quality",
        Refusal::Format => "Format",
        Refusal::Empty => "Empty",
        Refusal::Zero => "Zero",
        Refusal::Larger => "Larger",
        Refusal::Upscale => "Upscale",
        Refusal::Limit => "Limit",
    }
}

/// Adds an answer: `refused` and why, `image` and the picture in the words of a setting, or `fault`, its place and its cause.
pub fn put_answer(text: &mut String, answer: &Answer) -> Result<(), NoMemory>
    ensures { OnOk result (string_bytes text.new ≡ string_bytes text.old ++ answer_text answer.now) }
{
    match answer {
        Answer::Refused(refusal) => {
            text.push_str("refused ")?;
            text.push_str(refusal_word(*refusal))
        }
        Answer::Image(raster) => {
            text.push_str("image ")?;
            put_raster(text, raster)
        }
        Answer::Failed(fault) => put_fault(text, fault),
    }
}

/// Numbers, each behind a space.
pub(crate) fn put_numbers(text: &mut String, numbers: &Numbers) -> Result<(), NoMemory> {
    for number in numbers.items() {
        write!(text, " {}", number)?;
    }
    Ok(())
}
