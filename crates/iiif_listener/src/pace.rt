//! Limits of time for what a connection sends: a reader and a writer of one stream share when something was last written there.

ghost use Rattle.std.specs.Prelude.{◌≤◌, ◌++◌, IfOk, IfSome, length};

use crate::flow::{Flow, waited_for};
use crate::generations::Generation;
use crate::open_connections::OpenConnections;
use crate::places::Place;
use crate::primed_memory::PrimedMemory;
use crate::retry::is_silence;
use iiif_io::{Inlet, Outlet, is_ended, is_reset};
use std::io;
use std::io::{ErrorKind, Read, Write};
use std::net::TcpStream;
use std::sync::Wait;
use std::sync::atomic::{AtomicBool, AtomicU64, Ordering};
use std::thread::yield_now;
use std::time::{Clock, Duration, Instant};

/// Time for which a connection that is alone is polled for the next head before the thread sleeps, in microseconds: about the time in which
/// a viewer takes an answer of 64 KiB and asks again. A thread that sleeps is woken no sooner than some 10 after its bytes came.
const MOMENT: u64 = 100;

/// The most polls in that time.
const LOOKS: u32 = 1000;

/// Time-out of one wait for the next request, in milliseconds: then the connection looks whether its generation still serves.
const SLICE: u64 = 100;

/// The number of writes in a row that take nothing until the reader counts as gone. Each waits for a part of the time: of one that takes a
/// byte at once and then waits, the wait isn't counted, and is no longer than that part.
const WRITES: u32 = 10;

/// Why a connection takes no more of an answer.
#[derive(Clone, Copy, Debug, PartialEq, Eq)]
pub enum Departure {
    /// The reader has closed or reset the connection.
    Left,
    /// Nothing was taken for as long as is waited.
    Stalled,
    /// It was taken slower than the least rate.
    Slow,
    /// Another connection was given the place.
    Ousted,
}

/// The times of a connection: its start, the milliseconds until something was last read and last written, whether something was written
/// since the last poll, whether nothing was read since then or since the start, the bytes of the last body, the time-out of a head as a
/// whole, whether its reader was found to be too slow, stalled or without its place, whether the input was ended for another generation,
/// and the last eight bytes that were written.
#[derive(Drop)]
pub struct Pace {
    start: Instant,
    read: AtomicU64,
    written: AtomicU64,
    answered: AtomicBool,
    between: AtomicBool,
    behind: AtomicU64,
    limit: Duration,
    slow: AtomicBool,
    stalled: AtomicBool,
    ousted: AtomicBool,
    moved: AtomicBool,
    last: AtomicU64,
}

impl Pace {
    /// Times a connection that begins now, with so much time for each head.
    pub fn new<R: Clock>(rt: &R, limit: Duration) -> io::Result<Pace> {
        Ok(Pace {
            start: Instant::now(rt)?,
            read: AtomicU64::new(0),
            written: AtomicU64::new(0),
            answered: AtomicBool::new(false),
            between: AtomicBool::new(true),
            behind: AtomicU64::new(0),
            limit,
            slow: AtomicBool::new(false),
            stalled: AtomicBool::new(false),
            ousted: AtomicBool::new(false),
            moved: AtomicBool::new(false),
            last: AtomicU64::new(0),
        })
    }

    /// Returns whether the input was ended between two requests, for another generation to serve the next: nothing of that was read.
    pub fn is_moved(&self) -> bool {
        self.moved.load(Ordering::SeqCst)
    }

    /// Returns the milliseconds since the connection began.
    fn now<R: Clock>(&self, rt: &R) -> io::Result<u64> {
        let millis = self.start.elapsed(rt)?.as_millis();
        Ok(u64::try_from(millis).unwrap_or(u64::MAX))
    }

    /// Begins the time for a head anew, once something was written, of which so many bytes were a text behind another.
    fn begin<R: Clock>(&self, rt: &R, behind: usize) -> io::Result<()> {
        self.answered.store(true, Ordering::SeqCst);
        self.between.store(true, Ordering::SeqCst);
        self.behind.store(behind as u64, Ordering::SeqCst);
        self.written.store(self.now(rt)?, Ordering::SeqCst);
        Ok(())
    }

    /// Returns why an answer that was cut off isn't taken any more, as far as its writer found out.
    pub fn departure(&self) -> Departure {
        if self.ousted.load(Ordering::SeqCst) {
            Departure::Ousted
        } else if self.slow.load(Ordering::SeqCst) {
            Departure::Slow
        } else if self.stalled.load(Ordering::SeqCst) {
            Departure::Stalled
        } else {
            Departure::Left
        }
    }

    /// Returns whether the last bytes that were written are these.
    pub fn ends_with(&self, bytes: [u8; 8]) -> bool {
        self.last.load(Ordering::SeqCst) == u64::from_be_bytes(bytes)
    }

    /// Notes the last of some bytes that were written.
    fn note(&self, bytes: &[u8]) {
        let mut last = self.last.load(Ordering::SeqCst);
        for byte in &bytes[bytes.len().saturating_sub(8)..] {
            last = last.wrapping_mul(256).wrapping_add(u64::from(*byte));
        }
        self.last.store(last, Ordering::SeqCst);
    }

    /// Notes the last of so many bytes of two texts, one behind the other, that were written.
    fn note_both(&self, first: &[u8], second: &[u8], count: usize) {
        let front = count.min(first.len());
        self.note(&first[..front]);
        self.note(&second[..(count - front).min(second.len())]);
    }

    /// Notes that something was read: the last answer was taken whole, however slowly.
    fn hear<R: Clock>(&self, rt: &R) -> io::Result<()> {
        self.slow.store(false, Ordering::SeqCst);
        self.read.store(self.now(rt)?, Ordering::SeqCst);
        Ok(())
    }

    /// Returns the time since something was last read or written, for which an answer is in the making.
    fn making<R: Clock>(&self, rt: &R) -> io::Result<Duration> {
        let last = self
            .read
            .load(Ordering::SeqCst)
            .max(self.written.load(Ordering::SeqCst));
        Ok(Duration::from_millis(self.now(rt)?.saturating_sub(last)))
    }

    /// Returns the time that is left for the head, an error where none is.
    fn left<R: Clock>(&self, rt: &R) -> io::Result<Duration> {
        let passed = self
            .now(rt)?
            .saturating_sub(self.written.load(Ordering::SeqCst));
        match self.limit.checked_sub(Duration::from_millis(passed)) {
            Some(left) if !left.is_zero() => Ok(left),
            _ => Err(io::Error::from(ErrorKind::TimedOut)),
        }
    }
}

/// The reader of a connection. A read fails where nothing comes for `idle`, or where the time since the last write is over, however few
/// bytes come at once. While nothing of a request came, the place may be given to another connection: then this one's input ends. So it
/// does before a request of which nothing was read, where another generation serves, or the node drains.
#[derive(Drop)]
pub struct PacedReader<'a, R: Clock + Wait> {
    pub stream: TcpStream,
    pub rt: &'a R,
    pub pace: &'a Pace,
    /// The time-out of a read.
    pub idle: Duration,
    /// Its place.
    pub place: &'a Place<'a, R>,
    /// The connections that are open: where this one is alone, the next head is looked for a moment before it is waited for.
    pub connections: &'a OpenConnections,
    /// Memory that is written to before a head is looked for, as much as stood behind the last answer's head: the next is likely of that
    /// size.
    pub warm: PrimedMemory,
    /// The generation that serves it.
    pub generation: Generation<'a>,
    /// Whether more than a request may be read at once.
    pub reads_ahead: bool,
    /// Whether the last read ended where a head does, so that nothing of the next request was read.
    pub is_clear: bool,
}

/// The end of a wait for a request.
#[derive(Clone, Copy)]
enum Awaited {
    /// Something of one can be read, or the end of the input.
    Came,
    /// Another generation serves.
    Moved,
    /// The node drains.
    Drained,
}

/// Returns whether bytes end where a head does.
fn ends_head(bytes: &[u8]) -> bool {
    bytes.ends_with(b"\n\r\n") || bytes.ends_with(b"\n\n")
}

/// Reads what came, without waiting. None where nothing did in a moment.
fn glance<R: Clock>(rt: &R, stream: &mut TcpStream, buffer: &mut [u8]) -> io::Result<Option<usize>>
    ensures { IfOk result (λ found. IfSome found (λ n. n ≤ length buffer.new)) }
{
    let begun = Instant::now(rt)?;
    for _ in 0..LOOKS {
        match stream.read(buffer) {
            Ok(count) => return Ok(Some(count)),
            Err(error) => match error.kind() {
                ErrorKind::WouldBlock | ErrorKind::Interrupted => yield_now(),
                _ => return Err(error),
            },
        }
        if begun.elapsed(rt)? >= Duration::from_micros(MOMENT) {
            break;
        }
    }
    Ok(None)
}

/// Reads what came to a stream whose reads wait, without waiting; they wait again then.
fn look<R: Clock>(rt: &R, stream: &mut TcpStream, buffer: &mut [u8]) -> io::Result<Option<usize>>
    ensures { IfOk result (λ found. IfSome found (λ n. n ≤ length buffer.new)) }
{
    stream.set_nonblocking(true)?;
    let found = glance(rt, stream, buffer);
    stream.set_nonblocking(false)?;
    found
}

impl<'a, R: Clock + Wait> PacedReader<'a, R> {
    /// Returns the time-out of one wait for a request that has been awaited since an instant. None where the node drains, and an error
    /// where no time is left.
    fn slice(&self, begun: Instant) -> io::Result<Option<Duration>> {
        let left = self.pace.left(self.rt)?;
        let idle = match self.idle.checked_sub(begun.elapsed(self.rt)?) {
            Some(idle) if !idle.is_zero() => idle,
            _ => return Err(io::Error::from(ErrorKind::TimedOut)),
        };
        let slice = left.min(idle).min(Duration::from_millis(SLICE));
        match self.generation.all.left(self.rt)? {
            Some(closing) if closing.is_zero() => Ok(None),
            Some(closing) => Ok(Some(slice.min(closing))),
            None => Ok(Some(slice)),
        }
    }

    /// Waits until something of a request comes, and reads nothing of it.
    fn await_request(&self) -> io::Result<Awaited> {
        let begun = Instant::now(self.rt)?;
        let mut byte = [0u8; 1];
        for _ in self.rt.forever() {
            if self.generation.is_over() {
                return Ok(Awaited::Moved);
            }
            let Some(slice) = self.slice(begun)? else {
                return Ok(Awaited::Drained);
            };
            self.stream.set_read_timeout(Some(slice))?;
            match self.stream.peek(&mut byte) {
                Ok(_) if self.generation.is_over() => return Ok(Awaited::Moved),
                Ok(_) => return Ok(Awaited::Came),
                Err(error) if is_silence(error.kind()) => {}
                Err(error) if error.kind() == ErrorKind::Interrupted => {}
                Err(error) => return Err(error),
            }
        }
        unreachable!()
    }

    /// Returns whether the input ends before the next request, by the end of the wait for it.
    fn ends_by(&self, awaited: Awaited) -> bool {
        match awaited {
            Awaited::Came => false,
            Awaited::Moved => {
                self.pace.moved.store(true, Ordering::SeqCst);
                true
            }
            Awaited::Drained => true,
        }
    }

    /// Checks, without waiting, whether the next request is another generation's, or none is served any more.
    fn look_ahead(&self) -> io::Result<Awaited> {
        if self.generation.is_over() {
            return Ok(Awaited::Moved);
        }
        match self.generation.all.left(self.rt)? {
            Some(closing) if closing.is_zero() => Ok(Awaited::Drained),
            _ => Ok(Awaited::Came),
        }
    }

    /// Reads within the time that is left for it. Between two requests the next one is waited for first.
    fn receive(&mut self, left: Duration, buffer: &mut [u8], between: bool) -> io::Result<usize>
        ensures { IfOk result (λ n. n ≤ length buffer.new) }
    {
        // However fast a request follows.
        if between && self.ends_by(self.look_ahead()?) {
            return Ok(0);
        }
        // Once for each answer, so that one who drips costs no more than before.
        if self.pace.answered.swap(false, Ordering::SeqCst) && self.connections.is_alone() {
            self.warm
                .take(self.pace.behind.load(Ordering::SeqCst) as usize);
            let found = look(self.rt, &mut self.stream, buffer);
            self.warm.give_back();
            if let Some(count) = found? {
                return Ok(count);
            }
        }
        if between {
            if self.ends_by(self.await_request()?) {
                return Ok(0);
            }
        } else {
            self.stream.set_read_timeout(Some(left.min(self.idle)))?;
        }
        self.stream.pull(buffer)
    }
}

impl<'a, R: Clock + Wait> Read for PacedReader<'a, R> {
    fn read(&mut self, buffer: &mut [u8]) -> io::Result<usize> {
        let left = self.pace.left(self.rt)?;
        let begins = self.pace.between.swap(false, Ordering::SeqCst);
        if begins {
            self.place.rest();
        }
        let between = begins && (self.is_clear || !self.reads_ahead);
        let count = self.receive(left, buffer, between)?;
        if self.reads_ahead && count <= buffer.len() {
            self.is_clear = ends_head(&buffer[..count]);
        }
        self.pace.hear(self.rt)?;
        // Where the input has ended, the place may be taken until the connection is closed.
        if begins && count > 0 && !self.place.work() {
            return Ok(0);
        }
        Ok(count)
    }
}

/// Nothing is known but that a read failed.
impl<'a, R: Clock + Wait> Inlet for PacedReader<'a, R> {
    ghost fails = { λ _ _. Unit {0} };

    fn pull(&mut self, buffer: &mut [u8]) -> io::Result<usize> {
        self.read(buffer)
    }
}

/// The writer of a connection. Each write begins the time for the next head anew, so it doesn't run while an answer is made. A write fails
/// where nothing is taken for as long as is waited, and behind one by which the answer was taken slower than the least rate: an answer
/// whose last byte was taken isn't cut.
#[derive(Drop)]
pub struct PacedWriter<'a, R: Clock + Wait> {
    pub stream: TcpStream,
    pub rt: &'a R,
    pub pace: &'a Pace,
    /// Its place, which is told how fast the answer is taken.
    pub place: &'a Place<'a, R>,
    /// The generation that serves it, by whose clock that is told.
    pub generation: Generation<'a>,
    /// Time for which an answer may be in the making until a viewer that sends no more is taken for gone. It may read on, but a proxy that
    /// closes looks the same.
    pub patience: Duration,
    /// The least rate of the answer's reader, and its rate so far.
    pub flow: Flow,
}

/// Returns the time-out of one write, where a reader may stall for so long.
pub fn write_limit(stalled: Duration) -> Duration {
    stalled / WRITES
}

impl<'a, R: Clock + Wait> PacedWriter<'a, R> {
    /// Tells the place of a write of so many bytes that waited so many milliseconds. One that didn't wait says nothing of the reader.
    fn tell(&self, waited: u64, bytes: usize) {
        if waited == 0 {
            return;
        }
        // Without a clock nothing is told.
        if let Ok(now) = self.generation.all.now(self.rt) {
            self.place.take(now, waited, bytes as u64);
        }
    }

    /// Counts a write of so many bytes that began at a moment, where there is a clock: where that fails, so does the next read. Where the
    /// reader is too slow, the next write fails.
    fn count(&mut self, begun: io::Result<u64>, bytes: usize, behind: usize) {
        let _ = self.pace.begin(self.rt, behind);
        let (Ok(begun), Ok(now)) = (begun, self.pace.now(self.rt)) else {
            return;
        };
        let waited = waited_for(now.saturating_sub(begun));
        self.tell(waited, bytes);
        if !self.flow.take(waited, bytes as u64) {
            self.pace.slow.store(true, Ordering::SeqCst);
        }
    }

    /// Notes that the connection takes no more, where another one has its place.
    fn check_place(&self) {
        if !self.place.is_kept() {
            self.pace.ousted.store(true, Ordering::SeqCst);
        }
    }

    /// Writes some of two texts, and tries again where the reader stalls, up to ten times.
    fn try_both(&mut self, first: &[u8], second: &[u8]) -> io::Result<usize>
        ensures { IfOk result (λ n. n ≤ length (first.now ++ second.now)) }
    {
        if self.pace.slow.load(Ordering::SeqCst) {
            return Err(io::Error::from(ErrorKind::TimedOut));
        }
        for _ in 0..WRITES {
            match self.stream.put_both(first, second) {
                Err(error) if is_silence(error.kind()) => {}
                Err(error) => {
                    self.check_place();
                    return Err(error);
                }
                Ok(count) => return Ok(count),
            }
        }
        self.pace.stalled.store(true, Ordering::SeqCst);
        Err(io::Error::from(ErrorKind::TimedOut))
    }
}

impl<'a, R: Clock + Wait> Write for PacedWriter<'a, R> {
    fn write(&mut self, bytes: &[u8]) -> io::Result<usize> {
        let begun = self.pace.now(self.rt);
        let count = self.try_both(bytes, &[])?;
        self.count(begun, count, 0);
        self.pace.note_both(bytes, &[], count);
        Ok(count)
    }

    fn flush(&mut self) -> io::Result<()> {
        Ok(())
    }
}

/// Nothing is known but that a write failed, or that the reader was found to be gone.
impl<'a, R: Clock + Wait> Outlet for PacedWriter<'a, R> {
    ghost fails = { λ _ _. Unit {0} };

    fn put(&mut self, bytes: &[u8]) -> io::Result<usize> {
        self.write(bytes)
    }

    /// Returns whether the reader is gone: at once where it reset the connection; where it sends no more, once the answer is in the making
    /// for longer than `patience`.
    fn is_gone(&self) -> bool {
        if is_reset(&self.stream) {
            self.check_place();
            return true;
        }
        match self.pace.making(self.rt) {
            Ok(making) if making >= self.patience && is_ended(&self.stream) => {
                self.check_place();
                true
            }
            Ok(_) | Err(_) => false,
        }
    }

    fn put_both(&mut self, first: &[u8], second: &[u8]) -> io::Result<usize> {
        let begun = self.pace.now(self.rt);
        let count = self.try_both(first, second)?;
        // As where one text is written.
        self.count(begun, count, second.len());
        self.pace.note_both(first, second, count);
        Ok(count)
    }
}
