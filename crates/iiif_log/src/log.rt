//! The queue that many threads put lines into, and the thread that writes them.

ghost use Rattle.std.specs.Prelude.{◌≡◌, ◌+◌, ◌⊎◌, ◌++◌, ℕ, true, IfErr, IsTrue, OnOk};
ghost use Rattle.std.specs.Io.KnownBytes.{Appends};
ghost use Rattle.iiif_io.specs.Sending.{WasCut};
ghost use Rattle.iiif_log.specs.Lines.{lost_text};
ghost use Rattle.iiif_io.specs.Counting.{capped};
ghost use Rattle.iiif_log.specs.Waiting.{line_view, lines_in};

use crate::answered::Answered;
use crate::failed_read::{FailedRead, failed_line_bytes};
use crate::line::{line_bytes, lost_line_bytes};
use crate::moment::NoMemory;
use crate::other_version::{OtherVersion, version_line_bytes};
use crate::peer::{PeerTurn, peer_line_bytes};
use crate::queue::{Line, Queue, Taken};
use crate::refused_image::{RefusedImage, refused_line_bytes};
use iiif_io::{Outlet, send};
use std::alloc::Global;
use std::sync::atomic::{AtomicU64, Ordering};
use std::sync::{Condvar, Mutex, Wait};

/// A log: a queue under a lock, as [`Queue`] says, who waits for its next line, whether somebody writes its lines and could write the last
/// one, and how many were lost. Whoever puts a line waits for that lock alone, which nobody holds while a line is written.
#[derive(Drop)]
pub struct Log {
    alloc: Global,
    queue: Mutex<Queue>,
    more: Condvar,
    is_written: Mutex<bool>,
    lost: AtomicU64,
}

impl Log {
    /// A log without a line. The only error is lack of memory.
    pub fn new(alloc: Global) -> Result<Log, NoMemory> {
        Ok(Log {
            alloc,
            queue: Mutex::new(Queue::new(alloc)?),
            more: Condvar::new(),
            is_written: Mutex::new(false),
            lost: AtomicU64::new(0),
        })
    }

    /// Puts the line of an answer behind the others. Where there is no room or no memory for it, it is lost, which is counted.
    pub fn tell<R: Wait>(&self, rt: &R, answered: &Answered<'_>) {
        self.put(rt, line_bytes(self.alloc, answered));
    }

    /// Puts the line of a read that failed behind the others, as [`Log::tell`] does.
    pub fn tell_failed_read<R: Wait>(&self, rt: &R, told: &FailedRead<'_>) {
        self.put(rt, failed_line_bytes(self.alloc, told));
    }

    /// Puts the line of a link to another node behind the others, as [`Log::tell`] does.
    pub fn tell_turn<R: Wait>(&self, rt: &R, told: &PeerTurn<'_>) {
        self.put(rt, peer_line_bytes(self.alloc, told));
    }

    /// Puts the line of a node that asked for another version of a file behind the others, as [`Log::tell`] does.
    pub fn tell_other_version<R: Wait>(&self, rt: &R, told: &OtherVersion<'_>) {
        self.put(rt, version_line_bytes(self.alloc, told));
    }

    /// Puts the line of a node that refuses asks for an image behind the others, as [`Log::tell`] does.
    pub fn tell_refused_image<R: Wait>(&self, rt: &R, told: &RefusedImage<'_>) {
        self.put(rt, refused_line_bytes(self.alloc, told));
    }

    /// Puts a line behind the others, or counts one that couldn't be made, and wakes who writes.
    fn put<R: Wait>(&self, rt: &R, line: Result<Vec<u8>, NoMemory>) {
        self.put_behind(rt, line);
        self.more.notify_one();
    }

    /// Puts a line behind the others, or counts one that couldn't be made.
    fn put_behind<R: Wait>(&self, rt: &R, line: Result<Vec<u8>, NoMemory>) {
        let mut queue = self.queue.lock(rt);
        if queue.is_full() || line.is_err() {
            self.count_lost();
        }
        match line {
            Ok(text) => queue.put(text),
            Err(_) => queue.lose(),
        }
    }

    /// Whether somebody writes its lines now and could write the last one, and there is room for the next.
    pub fn is_written<R: Wait>(&self, rt: &R) -> bool {
        let is_written = *self.is_written.lock(rt);
        is_written && !self.queue.lock(rt).is_full()
    }

    /// Notes whether its lines can be written.
    fn note_written<R: Wait>(&self, rt: &R, is_written: bool) {
        *self.is_written.lock(rt) = is_written;
    }

    /// Counts a line that was lost.
    fn count_lost(&self) {
        self.lost.fetch_add(1, Ordering::SeqCst);
    }

    /// Returns how many lines were lost so far: there was no room or no memory for them, or they couldn't be written.
    pub fn lost(&self) -> u64 {
        self.lost.load(Ordering::SeqCst)
    }

    /// The next line, for which it waits. None once the log is closed and all lines are taken.
    pub fn next<R: Wait>(&self, rt: &R) -> Option<Line> {
        let mut queue = self.queue.lock(rt);
        for _ in rt.forever() {
            match queue.take(self.alloc) {
                Taken::Line(line) => return Some(line),
                Taken::Closed => return None,
                Taken::Nothing => queue = self.more.wait(rt, queue),
            }
        }
        unreachable!()
    }

    /// Nothing more will be put: who writes the lines ends behind the last.
    pub fn close<R: Wait>(&self, rt: &R) {
        self.queue.lock(rt).close();
        self.more.notify_all();
    }
}

/// Writes how many lines were lost, where some were. It says whether that was written.
fn write_lost<W: Outlet>(alloc: Global, out: &mut W, lost: u64) -> bool
    ensures written { IsTrue result → Appends (W.contents out.old) (W.contents out.new) (lost_text lost) }
    ensures none { lost ≡ 0 → (result ≡ true) × (out.new ≡ out.old) }
{
    if lost == 0 {
        return true;
    }
    match lost_line_bytes(alloc, lost) {
        Ok(text) => send(out, &text).is_ok(),
        Err(_) => false,
    }
}

/// Writes how many lines were lost, where some were, and then a line. `unsaid` are to be told of besides those that the line knows of.
/// An `Err` says how many are still to be told of as lost: all of them and the line, or the line alone.
pub fn write_line<W: Outlet>(
    alloc: Global,
    out: &mut W,
    unsaid: u64,
    line: &Line,
) -> Result<(), u64>
    ensures ok { OnOk result (Appends (W.contents out.old) (W.contents out.new)
        (lost_text (capped (unsaid + line.now.lost)) ++ line.now.text.items)) }
    ensures err { IfErr result (λ n. (n ≡ capped (unsaid + lines_in (line_view line.now)))
        ⊎ ((n ≡ 1) × (middle : W) × (sent : ℕ) ×
        Appends (W.contents out.old) (W.contents middle) (lost_text (capped (unsaid + line.now.lost)))
        × WasCut W.contents W.fails middle out.new line.now.text.items sent)) }

    // Where none was lost before, the writer failed.
    ensures alone { unsaid + line.now.lost ≡ 0 →
        IfErr result (λ _. (sent : ℕ) × WasCut W.contents W.fails out.old out.new line.now.text.items sent) }
{
    let lost = unsaid.saturating_add(line.lost);
    if !write_lost(alloc, out, lost) {
        let own = if line.text.is_empty() { 0 } else { 1 };
        return Err(lost.saturating_add(own));
    }
    match send(out, &line.text) {
        Ok(()) => Ok(()),
        Err(_) => Err(1),
    }
}

/// Writes the lines of a log as they come, until it is closed. Where the writer fails, the lines that it didn't take are lost, which the
/// next that is written tells.
pub fn write_lines<R: Wait, W: Outlet>(rt: &R, alloc: Global, log: &Log, out: &mut W) {
    log.note_written(rt, true);
    let mut unsaid = 0;
    for _ in rt.forever() {
        let Some(line) = log.next(rt) else {
            log.note_written(rt, false);
            return;
        };
        let written = write_line(alloc, out, unsaid, &line);
        log.note_written(rt, written.is_ok());
        if written.is_err() && !line.text.is_empty() {
            log.count_lost();
        }
        unsaid = match written {
            Ok(()) => 0,
            Err(lost) => lost,
        };
    }
}
