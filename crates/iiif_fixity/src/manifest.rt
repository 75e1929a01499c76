//! Lists of files' digests as text.

ghost use Rattle.std.specs.Prelude.{◌≡◌, ◌++◌, ◌∷◌, [], OnOk, IfOk, IfErr, IfNone, IfSome, IsTrue, ◌<◌, drop, is_ok, length, map};
ghost use Rattle.std.specs.Prelude.{option_copied, slice_index, take, true, false};
ghost use Rattle.std.specs.Str.{IsUtf8};
ghost use Rattle.std.specs.Str.Lines.{lines};
ghost use Rattle.hex.specs.Hex.{decode_sized};
ghost use Rattle.iiif_fixity.specs.Manifests.{behind_blanks, behind_mark, decoded, digest_in, digest_named, entry_of, entry_with};
ghost use Rattle.iiif_fixity.specs.Manifests.{has_digest, has_name};
ghost use Rattle.iiif_fixity.specs.Manifests.{is_blank, name_in, refusal_of_line, refusal_of_name, shown, undotted};
ghost use Rattle.iiif_fixity.specs.Manifests.{AreTaken, EndsAtLine, IsManifest, Takes};

use crate::fault::{EntryFault, ManifestFault};
use hex::FromHex;
use indexmap::IndexMap;
use std::alloc::Global;
use std::marker::Model;
use std::str;

/// How many hexadecimal digits a digest has.
const DIGITS: usize = 64;

/// The files of a manifest, each by a name of its own, with their digests, in the order of the lines. The names are borrowed from the text.
#[derive(Drop)]
pub struct Manifest<'a> {
    digests: IndexMap<&'a [u8], [u8; 32]>,
}

impl<'a> Model for Manifest<'a> {
    ghost use Rattle.std.specs.Prelude.{List};
    ghost use Rattle.iiif_fixity.specs.Manifests.{Entry, shown};

    ghost Value = { List Entry };

    ghost view = { λ m. shown m.digests.entries };
}

impl<'a> Manifest<'a> {
    /// Reads a manifest. It ends at the first line that is no entry.
    pub fn parse(alloc: Global, text: &'a [u8]) -> Result<Manifest<'a>, ManifestFault>
        ensures manifest { IfOk result (IsManifest text.now) }
        ensures line { IsUtf8 text.now → IfErr result (λ f. EndsAtLine (lines text.now) f.line f.fault) }
        ensures encoding { ¬ (IsUtf8 text.now) → IfErr result (λ f. f.fault ≡ EntryFault.Encoding) }
    {
        match str::from_utf8(text) {
            Ok(text) => Manifest::parse_lines(alloc, text),
            Err(_) => Err(ManifestFault {
                line: 0,
                fault: EntryFault::Encoding,
            }),
        }
    }

    /// Takes the entries of a text's lines.
    fn parse_lines(alloc: Global, text: &'a str) -> Result<Manifest<'a>, ManifestFault>
        ensures each { IfOk result (λ _. AreTaken (lines text.now) (length (lines text.now))) }
        ensures taken { IfOk result (λ m. m ≡ map entry_of (lines text.now)) }
        ensures ends { IfErr result (λ f. EndsAtLine (lines text.now) f.line f.fault) }
    {
        let mut manifest = Manifest {
            digests: IndexMap::new(alloc),
        };
        let mut line = 0;
        for words in text.lines() {
            line += 1;
            match manifest.add_line(words) {
                Ok(()) => {}
                Err(fault) => return Err(ManifestFault { line, fault }),
            }
        }
        Ok(manifest)
    }

    /// Takes the entry of a line.
    fn add_line(&mut self, line: &'a str) -> Result<(), EntryFault>
        ensures ok { OnOk result (self.new ≡ self.old ++ entry_of line.now ∷ []) }
        ensures takes { Takes (refusal_of_line self.old line.now) result }
    {
        let bytes = line.as_bytes();
        match digest_in(bytes) {
            Some(digest) => self.add(name_in(bytes), digest),
            None => Err(EntryFault::Digest),
        }
    }

    /// Takes the entry of a name and a digest.
    fn add(&mut self, name: &'a [u8], digest: [u8; 32]) -> Result<(), EntryFault>
        ensures ok { OnOk result (self.new ≡ self.old ++ entry_with name.now digest ∷ []) }
        ensures takes { Takes (refusal_of_name self.old name.now) result }
    {
        if name.is_empty() {
            return Err(EntryFault::Name);
        }
        if self.has(name) {
            return Err(EntryFault::Twice);
        }
        match self.digests.insert(name, digest) {
            Ok(_) => Ok(()),
            Err(_) => Err(EntryFault::NoMemory),
        }
    }

    /// Returns whether a name is listed.
    fn has(&self, name: &[u8]) -> bool
        ensures { result ≡ has_name self.now name.now }
    {
        self.digests.contains_key(name)
    }

    /// Returns the digest that is listed of a name. It takes the same time in a long manifest as in a short one.
    pub fn named(&self, name: &[u8]) -> Option<&[u8; 32]>
        ensures { option_copied result ≡ digest_named self.now name.now }
    {
        self.digests.get(name)
    }
}

/// Returns whether a byte is a space or a tab.
fn is_blank(byte: u8) -> bool
    ensures { result ≡ is_blank byte }
{
    byte == b' ' || byte == b'\t'
}

/// Returns whether a text begins with white space.
fn begins_blank(text: &[u8]) -> bool
    ensures blank { result ≡ is_blank (slice_index text.now 0) }
    ensures some { IsTrue result → 0 < length text.now }
{
    !text.is_empty() && is_blank(text[0])
}

/// Returns a text behind its first byte.
fn behind_first(text: &[u8]) -> &[u8]
    requires { 0 < length text.now }
    ensures first { result.now ≡ drop 1 text.now }
    ensures shorter { length result.now < length text.now }
{
    &text[1..]
}

/// Returns a text behind the white space at its head.
fn behind_blanks(text: &[u8]) -> &[u8]
    ensures { result.now ≡ behind_blanks text.now }
{
    let mut rest = text;
    while begins_blank(rest) {
        rest = behind_first(rest);
    }
    rest
}

/// Returns a text behind the mark of a file that was read as a binary one, or behind white space.
fn behind_mark(text: &[u8]) -> &[u8]
    ensures { result.now ≡ behind_mark text.now }
{
    match text.strip_prefix(b" *") {
        Some(rest) => rest,
        None => behind_blanks(text),
    }
}

/// Returns a name without the `./` at its head.
fn undotted(name: &[u8]) -> &[u8]
    ensures { result.now ≡ undotted name.now }
{
    match name.strip_prefix(b"./") {
        Some(rest) => rest,
        None => name,
    }
}

/// Cuts a line behind its digits.
#[tactic(auto, using(crate::proofs::Lines::take_short, crate::proofs::Lines::drop_short))]
fn cut(line: &[u8]) -> (&[u8], &[u8])
    ensures digits { result.0.now ≡ take 64 line.now }
    ensures rest { result.1.now ≡ drop 64 line.now }
{
    line.split_at(line.len().min(DIGITS))
}

/// Returns the name on a line.
fn name_in(line: &[u8]) -> &[u8]
    ensures { result.now ≡ name_in line.now }
{
    let (_, rest) = cut(line);
    undotted(behind_mark(rest))
}

/// Decodes the digits of a digest, in either case.
fn decode(digits: &[u8]) -> Option<[u8; 32]>
    ensures some { IfSome result (λ digest. (is_ok (decode_sized digits.now 32) ≡ true) × (decoded (decode_sized digits.now 32) ≡ digest)) }
    ensures none { IfNone result (is_ok (decode_sized digits.now 32) ≡ false) }
{
    match <[u8; 32] as FromHex>::from_hex(digits) {
        Ok(digest) => Some(digest),
        Err(_) => None,
    }
}

/// Returns the digest on a line, if white space follows it.
fn digest_in(line: &[u8]) -> Option<[u8; 32]>
    ensures some { IfSome result (λ digest. (has_digest line.now ≡ true) × (digest_in line.now ≡ digest)) }
    ensures none { IfNone result (has_digest line.now ≡ false) }
{
    let (digits, rest) = cut(line);
    if !begins_blank(rest) {
        return None;
    }
    decode(digits)
}
