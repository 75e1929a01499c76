//! The commands to a server, as they come while it serves.

use crate::command::Command;
use crate::control::read_command;
use crate::listeners::{AllPlaces, Listeners};
use crate::starts::{Started, Starts};
use iiif_listener::Inbox;
use std::alloc::Global;
use std::io::Write;
use std::os::unix::net::UnixStream;
use std::sync::Wait;
use std::thread;
use std::time::{Clock, Duration, Instant};

/// Time-out of one wait for a command, in milliseconds, while the server only serves.
const SLICE: u64 = 200;

const SHORT_SLICE: u64 = 10;

/// Time for calls in flight after `stop`, in milliseconds.
const STOP: u64 = 3_000;

/// The least time of a drain, in milliseconds: the second that a connection has between two requests, and a while to end.
const LEAST: u64 = 1_500;

/// Time for connections that were shut down to end, in milliseconds.
const ENDED: u64 = 3_000;

/// The most generations alive at once: one that serves, and two that still answer calls. Each has caches of its own.
const MOST_ALIVE: u32 = 3;

/// The end of a server that listened.
#[derive(Drop)]
pub enum Ended {
    /// It drained, and answered all calls.
    Whole,
    /// It drained, and calls were cut off.
    Cut,
    /// A listener failed, or no thread could be started for it.
    Listener,
    /// The first generation couldn't start.
    Unstarted(Started),
}

/// The next step of the server: a start, which needs a thread, or the end.
#[derive(Drop)]
pub enum Step {
    /// A generation of this number is to start.
    Start(u64),
    Over(Ended),
}

/// A drain: its start, and the milliseconds that calls in flight have.
#[derive(Clone, Copy)]
struct Drain {
    since: Instant,
    limit: u64,
}

/// A controller: follows the commands to a server, and replies to them.
#[derive(Drop)]
pub struct Controller<'x, 'p, R: Wait> {
    rt: &'p R,
    listeners: &'x Listeners,
    places: &'p AllPlaces,
    inbox: &'x Inbox<'p, R>,
    starts: &'x Starts,
    /// Time for calls in flight after `drain`, in milliseconds.
    limit: u64,
    /// The generation that serves, 0 before the first, and its images.
    number: u64,
    images: u64,
    /// Whether a generation starts, and the connection that asked for it.
    starting: bool,
    asked: Option<UnixStream>,
    drain: Option<Drain>,
    /// The connections that are told the end.
    leaving: Vec<UnixStream>,
}

impl<'x, 'p, R: Wait + Clock> Controller<'x, 'p, R> {
    /// Controls a server whose first generation starts, and counts that generation in.
    pub fn new(
        rt: &'p R,
        alloc: Global,
        listeners: &'x Listeners,
        places: &'p AllPlaces,
        inbox: &'x Inbox<'p, R>,
        starts: &'x Starts,
        limit: u64,
    ) -> Controller<'x, 'p, R> {
        inbox.enter(rt);
        Controller {
            rt,
            listeners,
            places,
            inbox,
            starts,
            limit,
            number: 0,
            images: 0,
            starting: true,
            asked: None,
            drain: None,
            leaving: Vec::new(alloc),
        }
    }

    /// Waits until the first generation serves, and returns the lines to print of it. An `Err` is the end.
    pub fn await_first(&mut self) -> Result<Vec<u8>, Ended> {
        let rt = self.rt;
        for _ in rt.forever() {
            if let Some(started) = self.starts.take(rt) {
                if started.status > 0 {
                    return Err(Ended::Unstarted(started));
                }
                self.starting = false;
                self.number = 1;
                self.images = started.images;
                return Ok(started.said);
            }
            if let Some(ended) = self.end() {
                return Err(ended);
            }
            self.follow_one();
        }
        unreachable!()
    }

    /// Follows commands until one asks for a new generation, or the server ends.
    pub fn next(&mut self) -> Step {
        let rt = self.rt;
        for _ in rt.forever() {
            if let Some(started) = self.starts.take(rt) {
                self.answer_start(started);
            }
            if let Some(ended) = self.end() {
                return Step::Over(ended);
            }
            if self.follow_one() {
                return Step::Start(self.number.saturating_add(1));
            }
        }
        unreachable!()
    }

    /// Reports that no thread could be started for the generation.
    pub fn refuse_start(&mut self) {
        self.starting = false;
        self.inbox.end(self.rt);
        if let Some(stream) = self.asked.take() {
            reply(stream, "1run: memory");
        }
    }

    /// Reports the end to each connection that waits for it, once all generations have ended, or some seconds later.
    pub fn close(&mut self, ended: &Ended) {
        let rt = self.rt;
        for _ in 0..ENDED / SHORT_SLICE {
            if self.inbox.alive(rt) == 0 {
                break;
            }
            thread::sleep(rt, Duration::from_millis(SHORT_SLICE));
        }
        let text = match ended {
            Ended::Whole => "0ended",
            Ended::Cut => "1run: cut",
            Ended::Listener => "1run: listen",
            Ended::Unstarted(_) => "1run: start",
        };
        for stream in &mut self.leaving {
            // Who doesn't take it has gone.
            let _ = writeln!(stream, "{text}");
        }
        self.leaving.clear();
    }

    /// Returns the end, once the server has ended.
    fn end(&mut self) -> Option<Ended> {
        let rt = self.rt;
        let Some(drain) = self.drain else {
            return if self.listeners.is_over(rt) {
                Some(Ended::Listener)
            } else {
                None
            };
        };
        if self.inbox.doors(rt) == 0 && self.places.taken(rt) == 0 {
            return Some(Ended::Whole);
        }
        if is_within(rt, drain) {
            return None;
        }
        self.places.end_all(rt);
        self.await_ended();
        Some(Ended::Cut)
    }

    /// Waits for connections that were shut down.
    fn await_ended(&self) {
        let rt = self.rt;
        for _ in 0..ENDED / SHORT_SLICE {
            if self.places.taken(rt) == 0 {
                return;
            }
            thread::sleep(rt, Duration::from_millis(SHORT_SLICE));
        }
    }

    /// Waits for a command for a while, and follows it. Returns whether a generation is to start.
    fn follow_one(&mut self) -> bool {
        let Some(mut stream) = self.await_one() else {
            return false;
        };
        match read_command(&mut stream) {
            Ok(Some(command)) => self.follow(command, stream),
            Ok(None) => {
                reply(stream, "2tell: status, drain, reload or stop");
                false
            }
            Err(_) => false,
        }
    }

    /// Accepts a connection with a command, if one comes within a while.
    fn await_one(&self) -> Option<UnixStream> {
        let rt = self.rt;
        let slice = if self.starting || self.drain.is_some() {
            SHORT_SLICE
        } else {
            SLICE
        };
        let slice = Duration::from_millis(slice);
        let Some(control) = &self.listeners.control else {
            thread::sleep(rt, slice);
            return None;
        };
        match control.accept(slice) {
            Ok(found) => found,
            Err(_) => {
                thread::sleep(rt, slice);
                None
            }
        }
    }

    /// Follows a command. Returns whether a generation is to start.
    fn follow(&mut self, command: Command, stream: UnixStream) -> bool {
        match command {
            Command::Status => self.tell_status(stream),
            Command::Drain => self.begin_drain(self.limit.max(LEAST), stream),
            Command::Stop => self.begin_drain(STOP, stream),
            Command::Reload => return self.begin_start(stream),
        }
        false
    }

    /// Replies with the state of the server.
    fn tell_status(&self, mut stream: UnixStream) {
        let rt = self.rt;
        let state = match (self.drain, self.starting) {
            (Some(_), _) => "drains",
            (None, true) => "starts",
            (None, false) => "serves",
        };
        let (number, images) = (self.number, self.images);
        let (open, alive) = (self.places.taken(rt), self.inbox.alive(rt));
        // Who doesn't take it has gone.
        let _ = writeln!(
            stream,
            "0{state}: generation {number}, images {images}, connections {open}, generations at work {alive}"
        );
    }

    /// Drains from now on, or shortens the drain. The connection that asked for it is told the end.
    fn begin_drain(&mut self, limit: u64, stream: UnixStream) {
        let rt = self.rt;
        let Ok(now) = Instant::now(rt) else {
            reply(stream, "1run: clock");
            return;
        };
        let drain = Drain { since: now, limit };
        let ends_sooner = match self.drain {
            Some(old) => rest_of(rt, old) > limit,
            None => true,
        };
        if ends_sooner {
            self.drain = Some(drain);
        }
        self.inbox.generations().drain(rt);
        if self.leaving.push(stream).is_err() {
            // It is closed, which says that it isn't told of the end.
        }
    }

    /// Asks for a new generation, unless none can start now, and keeps the connection that is told the outcome.
    fn begin_start(&mut self, stream: UnixStream) -> bool {
        if self.drain.is_some() {
            reply(stream, "1run: the server drains");
            return false;
        }
        if self.starting {
            reply(stream, "1run: a generation is starting");
            return false;
        }
        if self.inbox.alive(self.rt) >= MOST_ALIVE {
            reply(stream, "1run: earlier generations are still at work");
            return false;
        }
        self.starting = true;
        self.inbox.enter(self.rt);
        self.asked = Some(stream);
        true
    }

    /// Replies to the connection that asked for a start with its outcome.
    fn answer_start(&mut self, started: Started) {
        self.starting = false;
        let Started {
            status,
            images,
            said,
            ..
        } = started;
        if status == 0 {
            self.number = self.number.saturating_add(1);
            self.images = images;
        }
        let Some(mut stream) = self.asked.take() else {
            return;
        };
        // Who doesn't take it has gone.
        let _ = if status == 0 {
            let number = self.number;
            writeln!(stream, "0generation {number}, images {images}")
        } else {
            write!(stream, "{status}")
        };
        let _ = stream.write_all(&said);
    }
}

/// Replies with a line. A client that doesn't take it has gone.
fn reply(mut stream: UnixStream, line: &str) {
    let _ = writeln!(stream, "{line}");
}

/// Returns the milliseconds that are left of a drain, 0 where the clock fails.
fn rest_of<R: Clock>(rt: &R, drain: Drain) -> u64 {
    match drain.since.elapsed(rt) {
        Ok(passed) => {
            let passed = u64::try_from(passed.as_millis()).unwrap_or(u64::MAX);
            drain.limit.saturating_sub(passed)
        }
        Err(_) => 0,
    }
}

/// Returns whether time is left of a drain.
fn is_within<R: Clock>(rt: &R, drain: Drain) -> bool {
    rest_of(rt, drain) > 0
}
