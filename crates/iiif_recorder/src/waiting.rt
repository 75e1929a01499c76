//! Lines of a record that wait to be written, in room that was taken before.

ghost use Rattle.std.specs.Prelude.{◌≡◌, ◌++◌, [], true, false, IfOk};
ghost use Rattle.iiif_records.specs.Lines.{record_line};
ghost use Rattle.iiif_recorder.specs.Waiting.{Ends, Puts};

use iiif_records::{Step, push_line};
use std::alloc::{AllocError, Global};
use std::mem::replace;

/// The last line of a record that ended before its node did. No node of the machine has such a step.
const LAST: &str = "0 ended\n";

/// Lines that wait to be written.
#[derive(Drop)]
pub struct Waiting {
    /// The lines, one behind another.
    pub lines: Vec<u8>,
    /// How many bytes the record may still get.
    pub left: u64,
    /// Whether the record has ended, as where it is full.
    pub has_ended: bool,
    /// Room for one line.
    line: String,
}

/// Room for one line: a key has at most 1,063 bytes.
const LINE_ROOM: usize = 4096;

impl Waiting {
    /// Makes no line, and room for so many bytes of lines until they are written. The record may get so many.
    pub fn new(alloc: Global, room: usize, bytes: u64) -> Result<Waiting, AllocError>
        ensures { IfOk result (λ w. (w.lines.items ≡ []) × (w.left ≡ bytes) × (w.has_ended ≡ false)) }
    {
        Ok(Waiting {
            lines: Vec::with_capacity(alloc, room)?,
            left: bytes,
            has_ended: false,
            line: String::with_capacity(alloc, LINE_ROOM)?,
        })
    }

    /// Puts bytes behind the others, if there is room for them, and for so many more.
    fn put_bytes(&mut self, text: &[u8], more: usize) -> bool
        ensures put { result ≡ true → (self.new.lines.items ≡ self.old.lines.items ++ text.now) }
        ensures none { result ≡ false → (self.new.lines.items ≡ self.old.lines.items) }
        ensures same { self.new.has_ended ≡ self.old.has_ended }
    {
        let wanted = text.len() as u64;
        let spare = self.lines.capacity() - self.lines.len();
        if spare < text.len() || self.left < wanted {
            return false;
        }
        if spare - text.len() < more || self.left - wanted < more as u64 {
            return false;
        }
        match self.lines.extend_from_slice(text) {
            Ok(()) => {
                self.left -= wanted;
                true
            }
            Err(_) => false,
        }
    }

    /// Ends the record, which its last line says if there is room for it: nothing is put behind that.
    pub fn end(&mut self)
        ensures { Ends self.old.lines.items self.old.has_ended self.new.lines.items self.new.has_ended }
    {
        if !self.has_ended {
            self.has_ended = true;
            self.put_bytes(LAST.as_bytes(), 0);
        }
    }

    /// Puts a line behind the others, if the record hasn't ended. Where there is no room for it and for the last line, the record ends.
    pub fn put_line(&mut self, line: &[u8])
        ensures { Puts line.now self.old.lines.items self.old.has_ended self.new.lines.items self.new.has_ended }
    {
        if self.has_ended {
            return;
        }
        if !self.put_bytes(line, LAST.len()) {
            self.end();
        }
    }

    /// Puts the line of a step behind the others, as [`Waiting::put_line`] does. Where it can't be made, the record ends.
    pub fn put(&mut self, pass: u64, step: &Step<'_>)
        ensures { Puts (record_line pass step.now.words.now step.now.class step.now.ticket step.now.key.now)
            self.old.lines.items self.old.has_ended self.new.lines.items self.new.has_ended }
    {
        let mut line = replace(&mut self.line, String::new(*self.lines.allocator()));
        line.clear();
        match push_line(&mut line, pass, step) {
            Ok(()) => self.put_line(line.as_bytes()),
            Err(_) => self.end(),
        }
        self.line = line;
    }

    /// Returns whether half of the room is taken.
    pub fn is_half(&self) -> bool {
        self.lines.capacity() / 2 < self.lines.len()
    }

    /// Takes the lines out, and leaves this room for the next ones, which has none.
    pub fn take(&mut self, room: Vec<u8>) -> Vec<u8>
        ensures lines { result.items ≡ self.old.lines.items }
        ensures room { self.new.lines.items ≡ room.items }
        ensures ended { self.new.has_ended ≡ self.old.has_ended }
    {
        replace(&mut self.lines, room)
    }
}
