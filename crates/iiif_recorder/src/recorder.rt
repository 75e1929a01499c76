//! The record of a node, into which many threads put lines.

ghost use Rattle.std.specs.Prelude.{◌≡◌, ◌++◌, [], true};
ghost use Rattle.std.specs.Io.KnownBytes.{Appends};

use crate::waiting::Waiting;
use iiif_records::Step;
use std::alloc::{AllocError, Global};
use std::io::Write;
use std::mem::replace;
use std::sync::{Mutex, Wait};

/// The file of a record, and room for lines.
#[derive(Drop)]
struct Out<W> {
    file: W,
    /// Nothing, with room for the lines that wait next.
    room: Vec<u8>,
}

impl<W: Write> Out<W> {
    /// Takes the room out.
    fn take_room(&mut self, alloc: Global) -> Vec<u8>
        ensures { self.new.file ≡ self.old.file }
    {
        replace(&mut self.room, Vec::new(alloc))
    }

    /// Writes lines, and keeps the room that they had. Returns whether all of them were written.
    fn write(&mut self, lines: Vec<u8>) -> bool
        ensures written { result ≡ true → Appends (W.contents self.old.file) (W.contents self.new.file) lines.items }
        ensures room { self.new.room.items ≡ [] }
    {
        let is_written = self.file.write_all(&lines).is_ok();
        let mut room = lines;
        room.clear();
        self.room = room;
        is_written
    }
}

/// A record: the lines that wait, and the file into which they are written. A lock is around the lines, under which nothing is written and
/// no memory is asked for: a line may be put while a group's lock is held. Lines are written under the file's lock, so they come into the
/// file in their order.
#[derive(Drop)]
pub struct Recorder<W> {
    alloc: Global,
    waiting: Mutex<Waiting>,
    out: Mutex<Out<W>>,
}

impl<W: Write + Drop> Recorder<W> {
    /// Makes a record into this file, which gets at most so many bytes. There is room for so many until they are written. The only error is
    /// lack of memory.
    pub fn new(alloc: Global, file: W, room: usize, bytes: u64) -> Result<Recorder<W>, AllocError> {
        Ok(Recorder {
            alloc,
            waiting: Mutex::new(Waiting::new(alloc, room, bytes)?),
            out: Mutex::new(Out {
                file,
                room: Vec::with_capacity(alloc, room)?,
            }),
        })
    }

    /// Puts the line of a step behind the others.
    pub fn put<R: Wait>(&self, rt: &R, pass: u64, step: &Step<'_>) {
        self.waiting.lock(rt).put(pass, step);
    }

    /// Puts a line behind the others.
    pub fn put_line<R: Wait>(&self, rt: &R, line: &[u8]) {
        self.waiting.lock(rt).put_line(line);
    }

    /// Puts a line that is no step: its word, the number of a pass, a number, and bytes as they are.
    pub fn tell<R: Wait>(
        &self,
        rt: &R,
        word: &str,
        pass: u64,
        number: u64,
        bytes: &[u8],
    ) -> Result<(), AllocError> {
        let mut line = Vec::new(self.alloc);
        let head = format!(in self.alloc; "{word} {pass} {number} ")?;
        line.extend_from_slice(head.as_bytes())?;
        line.extend_from_slice(bytes)?;
        line.push(b'\n')?;
        self.put_line(rt, &line);
        Ok(())
    }

    /// Returns the allocator of a line's words.
    pub fn allocator(&self) -> Global {
        self.alloc
    }

    /// Ends the record.
    pub fn end<R: Wait>(&self, rt: &R) {
        self.waiting.lock(rt).end();
    }

    /// Writes the lines that wait, if they take half of their room.
    pub fn write_if_half<R: Wait>(&self, rt: &R) {
        let is_half = self.waiting.lock(rt).is_half();
        if is_half {
            self.write(rt);
        }
    }

    /// Writes the lines that wait. Where that fails the record ends, and the node goes on.
    pub fn write<R: Wait>(&self, rt: &R) {
        let mut out = self.out.lock(rt);
        let room = out.take_room(self.alloc);
        let lines = self.waiting.lock(rt).take(room);
        if !out.write(lines) {
            self.waiting.lock(rt).end();
        }
    }
}
