//! Events, read from the words of a line.

ghost use Rattle.std.specs.Prelude.{◌+◌, ◌++◌, ◌∷◌, [], ◌<◌, ◌≤◌, ◌^◌, ◌≡◌, true, codes, length, string_bytes, IfOk, IsErrOf, OnOk};
ghost use Rattle.iiif_event_list.specs.Code.{BadUnless, HasEvict, HasKey, HasKeys, HasLand, HasName, HasNumber, HasOne, HasRect, HasRequest};
ghost use Rattle.iiif_event_list.specs.Code.{HasSides, HasSourceFault, HasSum, HasTake, HasTile, HasWant, HasWord, is_numbered};
ghost use Rattle.iiif_event_list.specs.declared.fault.LineFault.{LineFault};
ghost use Rattle.iiif_event_list.specs.Spellings.{AddsKey, AreKeys, AreNoEvent, IsDimAt, IsEventOf, IsKey, IsNumbered, IsRectAt};
ghost use Rattle.iiif_event_list.specs.Spellings.{IsRequestAt};
ghost use Rattle.iiif_event_list.specs.Spellings.{LineWords, NameAt, Names, NumberAt, WordAt, count_of};
ghost use Rattle.std.specs.Prelude.{IsUtf8};
ghost use Rattle.percent_encoding.specs.Percent.{percent_decode};

use crate::fault::LineFault;
use iiif_keys::{Name, SumKey, TileKey, is_name};
use iiif_machine::{Event, Key, ShortRequest};
use iiif_pixel::{Dim, NoMemory, Rect};
use iiif_request::{Words, parse};
use iiif_source::ReadFault;
use percent_encoding::{DecodeError, percent_decode};
use std::alloc::Global;

/// The number at a place.
pub(crate) fn number(words: &[&str], at: usize) -> Result<u64, LineFault>
    ensures read { IfOk result (NumberAt words.now at) }
    ensures bad { BadUnless (HasNumber words.now at 64) result }
{
    let Some(word) = words.get(at) else {
        return Err(LineFault::Bad);
    };
    match word.parse::<u64>() {
        Ok(number) => Ok(number),
        Err(_) => Err(LineFault::Bad),
    }
}

/// The number at a place, where it is a side or a column.
pub(crate) fn side(words: &[&str], at: usize) -> Result<u32, LineFault>
    ensures read { IfOk result (NumberAt words.now at) }
    ensures bad { BadUnless (HasNumber words.now at 32) result }
{
    match u32::try_from(number(words, at)?) {
        Ok(side) => Ok(side),
        Err(_) => Err(LineFault::Bad),
    }
}

/// The number at a place, where it counts rows.
pub(crate) fn count(words: &[&str], at: usize) -> Result<usize, LineFault>
    ensures read { IfOk result (NumberAt words.now at) }
    ensures bad { BadUnless (HasNumber words.now at 64) result }
{
    match usize::try_from(number(words, at)?) {
        Ok(count) => Ok(count),
        Err(_) => Err(LineFault::Bad),
    }
}

/// The number at a place, where it is a byte.
fn byte(words: &[&str], at: usize) -> Result<u8, LineFault>
    ensures read { IfOk result (NumberAt words.now at) }
    ensures bad { BadUnless (HasNumber words.now at 8) result }
{
    match u8::try_from(number(words, at)?) {
        Ok(byte) => Ok(byte),
        Err(_) => Err(LineFault::Bad),
    }
}

/// The word at a place.
pub(crate) fn word<'a>(words: &[&'a str], at: usize) -> Result<&'a str, LineFault>
    ensures read { IfOk result (λ w. WordAt words.now at w.now) }
    ensures bad { BadUnless (HasWord words.now at) result }
{
    match words.get(at) {
        Some(word) => Ok(*word),
        None => Err(LineFault::Bad),
    }
}

/// The text of the word at a place.
fn text(alloc: Global, words: &[&str], at: usize) -> Result<String, LineFault>
    ensures read { IfOk result (λ t. WordAt words.now at (string_bytes t)) }
    ensures bad { BadUnless (HasWord words.now at) result }
{
    Ok(String::from_str(alloc, word(words, at)?)?)
}

/// The text for which a name's word stands, percent-decoded.
pub(crate) fn decode(alloc: Global, word: &str) -> Result<String, LineFault>
    ensures read { IfOk result (λ t. Names word.now (string_bytes t)) }
    ensures bad { BadUnless (IsUtf8 (percent_decode word.now)) result }
{
    match percent_decode(word.as_bytes()).decode_utf8(alloc) {
        Ok(text) => Ok(text.into_owned(alloc)?),
        Err(DecodeError::Utf8(_)) => Err(LineFault::Bad),
        Err(DecodeError::OutOfMemory) => Err(LineFault::NoMemory),
    }
}

/// The name at a place.
pub(crate) fn name(alloc: Global, words: &[&str], at: usize) -> Result<Name, LineFault>
    ensures read { IfOk result (NameAt words.now at) }
    ensures bad { BadUnless (HasName words.now at) result }
{
    let text = decode(alloc, word(words, at)?)?;
    if !is_name(text.as_str()) {
        return Err(LineFault::Bad);
    }
    Ok(Name::new(text)?)
}

/// The number of an event that has one.
fn one(words: &[&str]) -> Result<usize, LineFault>
    ensures read { IfOk result (λ n. (length words.now ≡ 2) × NumberAt words.now 1 n) }
    ensures bad { BadUnless (HasOne words.now) result }
{
    if words.len() != 2 {
        return Err(LineFault::Bad);
    }
    count(words, 1)
}

/// The request of four words from a place on: region, size, rotation and quality.
fn request(alloc: Global, words: &[&str], at: usize) -> Result<ShortRequest, LineFault>
    requires { at + 4 < 2 ^ 32 }
    ensures read { IfOk result (IsRequestAt words.now at) }
    ensures bad { BadUnless (HasRequest words.now at) result }
{
    let words = Words {
        region: text(alloc, words, at)?,
        size: text(alloc, words, at + 1)?,
        rotation: text(alloc, words, at + 2)?,
        quality: text(alloc, words, at + 3)?,
        format: String::from_str(alloc, "tif")?,
    };
    let Ok(request) = parse(&words) else {
        return Err(LineFault::Bad);
    };
    match ShortRequest::new(request) {
        Some(request) => Ok(request),
        None => Err(LineFault::Bad),
    }
}

/// `want NODE NAME REGION SIZE ROTATION QUALITY`
fn want(alloc: Global, words: &[&str]) -> Result<Event, LineFault>
    requires { WordAt words.now 0 (codes "want") }
    ensures read { IfOk result (IsEventOf words.now) }
    ensures bad { BadUnless (HasWant words.now) result }
{
    if words.len() != 7 {
        return Err(LineFault::Bad);
    }
    let node = count(words, 1)?;
    let name = name(alloc, words, 2)?;
    let request = request(alloc, words, 3)?;
    Ok(Event::Want(node, name, request))
}

/// `tile NAME EDGE COLUMN ROW`
fn tile(alloc: Global, words: &[&str]) -> Result<Key, LineFault>
    requires { WordAt words.now 0 (codes "tile") }
    ensures read { IfOk result (IsKey words.now) }
    ensures bad { BadUnless (HasTile words.now) result }
{
    Ok(Key::Tile(TileKey {
        name: name(alloc, words, 1)?,
        edge: side(words, 2)?,
        tx: side(words, 3)?,
        ty: side(words, 4)?,
    }))
}

/// The rectangle of four numbers from a place on.
fn rect(words: &[&str], at: usize) -> Result<Rect, LineFault>
    requires { at + 3 < 2 ^ 32 }
    ensures read { IfOk result (IsRectAt words.now at) }
    ensures bad { BadUnless (HasRect words.now at) result }
{
    Ok(Rect {
        x: side(words, at)?,
        y: side(words, at + 1)?,
        w: side(words, at + 2)?,
        h: side(words, at + 3)?,
    })
}

/// The sides of two numbers from a place on.
pub(crate) fn dim(words: &[&str], at: usize) -> Result<Dim, LineFault>
    requires { at + 1 < 2 ^ 32 }
    ensures read { IfOk result (IsDimAt words.now at) }
    ensures bad { BadUnless (HasSides words.now at) result }
{
    Ok(Dim {
        w: side(words, at)?,
        h: side(words, at + 1)?,
    })
}

/// `sum NAME EDGE X Y W H COLUMNS ROWS LEVEL COLUMN ROW`
fn sum(alloc: Global, words: &[&str]) -> Result<Key, LineFault>
    requires { WordAt words.now 0 (codes "sum") }
    ensures read { IfOk result (IsKey words.now) }
    ensures bad { BadUnless (HasSum words.now) result }
{
    Ok(Key::Sum(SumKey {
        name: name(alloc, words, 1)?,
        edge: side(words, 2)?,
        rect: rect(words, 3)?,
        size: dim(words, 7)?,
        level: byte(words, 9)?,
        bx: side(words, 10)?,
        by: side(words, 11)?,
    }))
}

/// The key that words begin with.
fn key(alloc: Global, words: &[&str]) -> Result<Key, LineFault>
    ensures read { IfOk result (IsKey words.now) }
    ensures bad { BadUnless (HasKey words.now) result }
{
    match word(words, 0)? {
        "tile" => tile(alloc, words),
        "sum" => sum(alloc, words),
        _ => Err(LineFault::Bad),
    }
}

/// How many words a key has.
fn count_of(key: &Key) -> usize
    ensures count { result ≡ count_of key.now }
    ensures some { 0 < result }
    ensures within { result ≤ 12 }
{
    match key {
        Key::Tile(_) => 5,
        Key::Sum(_) => 12,
    }
}

fn push(keys: &mut Vec<Key>, key: Key) -> Result<(), NoMemory>
    ensures { OnOk result (keys.new.items ≡ keys.old.items ++ key ∷ []) }
{
    keys.push(key)?;
    Ok(())
}

/// Adds the key that words begin with, and says how many of them it has.
fn add_key(alloc: Global, words: &[&str], keys: &mut Vec<Key>) -> Result<usize, LineFault>
    ensures key { IfOk result (AddsKey words.now keys.old.items keys.new.items) }
    ensures bad { BadUnless (HasKey words.now) result }
    ensures some { IfOk result (λ count. 0 < count) }
    ensures within { IfOk result (λ count. count ≤ 12) }
{
    let key = key(alloc, words)?;
    let count = count_of(&key);
    push(keys, key)?;
    Ok(count)
}

/// The keys of words that are keys, one behind the other.
#[tactic(auto, using(crate::proofs::Keys::no_key_yet, crate::proofs::Keys::one_key_more, crate::proofs::Keys::all_keys, crate::proofs::Bad::all_left, crate::proofs::Bad::one_left))]
fn keys_of(alloc: Global, words: &[&str]) -> Result<Vec<Key>, LineFault>
    ensures read { IfOk result (λ keys. AreKeys words.now keys.items) }
    ensures bad { BadUnless (HasKeys words.now) result }
{
    let mut keys = Vec::new(alloc);
    let mut at = 0usize;
    while at < words.len() {
        let (_, rest) = words.split_at(at);
        at += add_key(alloc, rest, &mut keys)?;
    }
    Ok(keys)
}

/// `evict NODE KEY..`
fn evict(alloc: Global, words: &[&str]) -> Result<Event, LineFault>
    requires { WordAt words.now 0 (codes "evict") }
    ensures read { IfOk result (IsEventOf words.now) }
    ensures bad { BadUnless (HasEvict words.now) result }
{
    if words.len() < 2 {
        return Err(LineFault::Bad);
    }
    let node = count(words, 1)?;
    let (_, rest) = words.split_at(2);
    let keys = keys_of(alloc, rest)?;
    Ok(Event::Evict(node, keys))
}

/// `take FLIGHT REPLY`
fn take(words: &[&str]) -> Result<Event, LineFault>
    requires { WordAt words.now 0 (codes "take") }
    ensures read { IfOk result (IsEventOf words.now) }
    ensures bad { BadUnless (HasTake words.now) result }
{
    if words.len() != 3 {
        return Err(LineFault::Bad);
    }
    Ok(Event::Take(count(words, 1)?, count(words, 2)?))
}

/// `source_fault FLIGHT PLACE CAUSE`
fn source_fault(words: &[&str]) -> Result<Event, LineFault>
    requires { WordAt words.now 0 (codes "source_fault") }
    ensures read { IfOk result (IsEventOf words.now) }
    ensures bad { BadUnless (HasSourceFault words.now) result }
{
    if words.len() != 4 {
        return Err(LineFault::Bad);
    }
    let fault = ReadFault {
        place: number(words, 2)?,
        cause: byte(words, 3)?,
    };
    Ok(Event::SourceFault(count(words, 1)?, fault))
}

/// `land FLIGHT kept` or `land FLIGHT dropped`
fn land(words: &[&str]) -> Result<Event, LineFault>
    requires { WordAt words.now 0 (codes "land") }
    ensures read { IfOk result (IsEventOf words.now) }
    ensures bad { BadUnless (HasLand words.now) result }
{
    if words.len() != 3 {
        return Err(LineFault::Bad);
    }
    let flight = count(words, 1)?;
    match word(words, 2)? {
        "kept" => Ok(Event::Land(flight, true)),
        "dropped" => Ok(Event::Land(flight, false)),
        _ => Err(LineFault::Bad),
    }
}

/// The event of this name that has a number alone.
fn numbered(name: &str, number: usize) -> Result<Event, LineFault>
    ensures read { IfOk result (λ e. (ws : LineWords) → IsNumbered name.now ws number → IsEventOf ws e) }
    ensures bad { BadUnless (is_numbered name.now ≡ true) result }
{
    match name {
        "enter" => Ok(Event::Enter(number)),
        "again" => Ok(Event::Again(number)),
        "ask_peer" => Ok(Event::AskPeer(number)),
        "serve" => Ok(Event::Serve(number)),
        "reply" => Ok(Event::Reply(number)),
        "lose" => Ok(Event::Lose(number)),
        "go_local" => Ok(Event::GoLocal(number)),
        "load" => Ok(Event::Load(number)),
        "stop" => Ok(Event::Stop(number)),
        _ => Err(LineFault::Bad),
    }
}

/// The event of a line's words, in the numbers of the world that it is meant for. `Bad`, where they are no event; whether the world allows
/// it is not asked.
pub fn event(alloc: Global, words: &[&str]) -> Result<Event, LineFault>
    ensures read { IfOk result (IsEventOf words.now) }
    ensures bad { IsErrOf result LineFault.Bad → AreNoEvent words.now }
{
    match word(words, 0)? {
        "want" => want(alloc, words),
        "take" => take(words),
        "source_fault" => source_fault(words),
        "land" => land(words),
        "evict" => evict(alloc, words),
        name => numbered(name, one(words)?),
    }
}
