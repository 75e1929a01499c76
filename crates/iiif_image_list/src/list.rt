//! Images that are named one after another, each by a name of its own.

ghost use Rattle.std.specs.Prelude.{◌≡◌, ◌++◌, ◌∷◌, [], is_some, ◌<◌, OnOk, OnErr, IfOk, IfErr, length, map};
ghost use Rattle.std.specs.Str.{IsUtf8};
ghost use Rattle.std.specs.Str.Lines.{lines};
ghost use Rattle.iiif_image_list.specs.Folders.{EndsAtFile, image_in};
ghost use Rattle.iiif_image_list.specs.Lists.{image_of, images_of, has_blank_around, has_name, is_blank, is_loose, line_at, refusal_of};
ghost use Rattle.iiif_image_list.specs.Lists.{image_with, refusal_of_line, refusal_of_name, shown, unmarked, AreTaken, EndsAtByte, EndsAtLine, IsList, Takes};

use crate::fault::{Fault, FolderFault, ListFault};
use crate::folder::FolderImage;
use iiif_keys::is_name;
use indexmap::IndexMap;
use indexmap::map::Iter;
use std::alloc::{AllocError, Global};
use std::marker::Model;
use std::str;

/// A byte order mark, as some programs write it at the head of a text.
const MARK: &[u8] = b"\xEF\xBB\xBF";

/// Images with names of their own, in the order in which they were named. The texts are borrowed from what named them.
#[derive(Drop)]
pub struct ImageList<'a> {
    files: IndexMap<&'a str, &'a str>,
}

impl<'a> Model for ImageList<'a> {
    ghost use Rattle.std.specs.Prelude.{List};
    ghost use Rattle.iiif_image_list.specs.Lists.{Image, shown};

    ghost Value = { List Image };

    ghost view = { λ l. shown l.files.entries };
}

impl<'a> ImageList<'a> {
    /// No image.
    pub fn new(alloc: Global) -> ImageList<'a>
        ensures { result ≡ [] }
    {
        ImageList {
            files: IndexMap::new(alloc),
        }
    }

    /// Whether there is an image of a name. It takes the same time in a long list as in a short one.
    pub fn has(&self, name: &str) -> bool
        ensures { result ≡ has_name self.now name.now }
    {
        self.files.contains_key(name)
    }

    /// Takes the image that a word `NAME=FILE` names.
    #[tactic(auto, unfolding(crate::specs::Lists::refusal_of))]
    pub fn add(&mut self, word: &'a str) -> Result<(), Fault>
        ensures ok { OnOk result (self.new ≡ self.old ++ image_of word.now ∷ []) }
        ensures err { OnErr result (self.new ≡ self.old) }
        ensures takes { Takes (refusal_of self.old word.now) result }
    {
        let Some((name, file)) = word.split_once('=') else {
            return Err(Fault::Parts);
        };
        self.add_named(name, file)
    }

    /// Takes the image of a name and a file.
    pub fn add_named(&mut self, name: &'a str, file: &'a str) -> Result<(), Fault>
        ensures ok { OnOk result (self.new ≡ self.old ++ image_with name.now file.now ∷ []) }
        ensures err { OnErr result (self.new ≡ self.old) }
        ensures takes { Takes (refusal_of_name self.old name.now) result }
    {
        if !is_name(name) {
            return Err(Fault::Name);
        }
        if self.has(name) {
            return Err(Fault::Twice);
        }
        match self.files.insert(name, file) {
            Ok(_) => Ok(()),
            Err(_) => Err(Fault::NoMemory),
        }
    }

    /// Takes the images of a folder's files, in order. It ends at the first with a fault, counted from 0.
    pub fn add_files(&mut self, files: &'a [FolderImage]) -> Result<(), FolderFault>
        ensures taken { OnOk result (self.new ≡ self.old ++ map image_in files.now) }
        ensures ends { IfErr result (λ f. EndsAtFile self.old files.now f.place f.fault self.new) }
    {
        let mut place = 0;
        for file in files {
            match self.add_named(file.name.as_str(), file.path.as_str()) {
                Ok(()) => place += 1,
                Err(fault) => return Err(FolderFault { place, fault }),
            }
        }
        Ok(())
    }

    /// Takes the images of a text, behind its byte order mark where it begins with one: of each line, which a line feed ends, or a
    /// carriage return and a line feed. A line that is empty or begins with `#` names none. It ends at the first line with a fault,
    /// counted from 1.
    pub fn add_text(&mut self, text: &'a [u8]) -> Result<(), ListFault>
        ensures list { OnOk result (IsList self.old (unmarked text.now) self.new) }
        ensures line { IsUtf8 (unmarked text.now) →
            IfErr result (λ f. EndsAtLine self.old (lines (unmarked text.now)) f.line f.fault self.new) }
        ensures byte { ¬ (IsUtf8 (unmarked text.now)) →
            IfErr result (λ f. EndsAtByte self.old (unmarked text.now) f.line f.fault self.new) }
    {
        self.add_unmarked(without_mark(text))
    }

    /// Takes the images of a text without a byte order mark.
    fn add_unmarked(&mut self, text: &'a [u8]) -> Result<(), ListFault>
        ensures list { OnOk result (IsList self.old text.now self.new) }
        ensures line { IsUtf8 text.now → IfErr result (λ f. EndsAtLine self.old (lines text.now) f.line f.fault self.new) }
        ensures byte { ¬ (IsUtf8 text.now) → IfErr result (λ f. EndsAtByte self.old text.now f.line f.fault self.new) }
    {
        match str::from_utf8(text) {
            Ok(text) => self.add_lines(text),
            Err(error) => Err(ListFault {
                line: line_of(text, error.valid_up_to()),
                fault: Fault::Encoding,
            }),
        }
    }

    /// Takes the images of a text's lines.
    fn add_lines(&mut self, text: &'a str) -> Result<(), ListFault>
        ensures each { OnOk result (AreTaken self.old (lines text.now) (length (lines text.now))) }
        ensures taken { OnOk result (self.new ≡ self.old ++ images_of (lines text.now)) }
        ensures ends { IfErr result (λ f. EndsAtLine self.old (lines text.now) f.line f.fault self.new) }
    {
        let mut line = 0;
        for words in text.lines() {
            line += 1;
            match self.add_line(words) {
                Ok(()) => {}
                Err(fault) => return Err(ListFault { line, fault }),
            }
        }
        Ok(())
    }

    /// Takes the image of a line, where it names one.
    fn add_line(&mut self, line: &'a str) -> Result<(), Fault>
        ensures ok { OnOk result (self.new ≡ self.old ++ images_of (line.now ∷ [])) }
        ensures err { OnErr result (self.new ≡ self.old) }
        ensures takes { Takes (refusal_of_line self.old line.now) result }
    {
        if line.is_empty() || line.starts_with('#') {
            return Ok(());
        }
        if is_loose(line) {
            return Err(Fault::Blank);
        }
        self.add(line)
    }

    /// The images, in order, each as its name and its file.
    pub fn iter(&self) -> Iter<'_, &'a str, &'a str>
        ensures { shown result ≡ self.now }
    {
        self.files.iter()
    }

    /// The images, in order, as pairs of a name and a file. The only error is lack of memory.
    pub fn into_pairs(self, alloc: Global) -> Result<Vec<(&'a str, &'a str)>, AllocError>
        ensures { IfOk result (λ pairs. shown pairs.items ≡ self.entry) }
    {
        self.files.into_iter().collect(alloc)
    }
}

/// A text behind its byte order mark, where it begins with one.
fn without_mark(text: &[u8]) -> &[u8]
    ensures { result.now ≡ unmarked text.now }
{
    match text.strip_prefix(MARK) {
        Some(rest) => rest,
        None => text,
    }
}

/// Whether a byte is a space or a tab.
fn is_blank(byte: u8) -> bool
    ensures { result ≡ is_blank byte }
{
    byte == b' ' || byte == b'\t'
}

/// Whether a name begins or ends with a blank.
fn has_blank_around(name: &str) -> bool
    ensures { result ≡ has_blank_around name.now }
{
    let bytes = name.as_bytes();
    if bytes.is_empty() {
        return false;
    }
    is_blank(bytes[0]) || is_blank(bytes[bytes.len() - 1])
}

/// Whether there is a blank around the name of a line.
fn is_loose(line: &str) -> bool
    ensures { result ≡ is_loose line.now }
{
    match line.split_once('=') {
        Some((name, _)) => has_blank_around(name),
        None => false,
    }
}

/// The line of a text, counted from 1, on which the byte at a place stands.
fn line_of(text: &[u8], place: usize) -> u64
    requires { place < length text.now }
    ensures { result ≡ line_at text.now place }
{
    let (above, _) = text.split_at(place);
    above.iter().filter(|byte| **byte == b'\n').count() as u64 + 1
}
