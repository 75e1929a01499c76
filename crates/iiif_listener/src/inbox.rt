//! Connections that wait for the generation that serves them.

use crate::generations::{Generation, Generations};
use crate::places::Visit;
use std::alloc::Global;
use std::collections::VecDeque;
use std::io;
use std::sync::{Condvar, Mutex, Wait};
use std::time::Clock;

/// A listener of a node.
#[derive(Clone, Copy, Debug, PartialEq, Eq)]
pub enum Door {
    Viewers,
    Peers,
    Statistics,
}

/// A connection that has a place, and the listener to which it came.
#[derive(Drop)]
pub struct Arrival<'p, R: Wait> {
    pub door: Door,
    pub visit: Visit<'p, R>,
}

/// Queues of connections, those for the statistics by themselves; the number of listeners that take more of them, and the number of
/// generations that may hand one on.
#[derive(Drop)]
struct Waiting<'p, R: Wait> {
    calls: VecDeque<Arrival<'p, R>>,
    statistics: VecDeque<Arrival<'p, R>>,
    doors: u32,
    alive: u32,
}

impl<'p, R: Wait> Waiting<'p, R> {
    /// Enqueues a connection. Where memory is refused, it is closed.
    fn put(&mut self, arrival: Arrival<'p, R>) -> bool {
        let kept = match arrival.door {
            Door::Statistics => self.statistics.push_back(arrival),
            Door::Viewers | Door::Peers => self.calls.push_back(arrival),
        };
        kept.is_ok()
    }

    /// Dequeues the next one for a generation. Before the first there are no images, and the statistics alone are answered.
    fn take(&mut self, number: u64) -> Option<Arrival<'p, R>> {
        if number > 0 {
            if let Some(arrival) = self.calls.pop_front() {
                return Some(arrival);
            }
        }
        self.statistics.pop_front()
    }

    /// Returns whether no connection can come any more to the only generation that is left.
    fn is_over(&self) -> bool {
        self.doors == 0 && self.alive <= 1
    }
}

/// A queue of connections for the generation that serves: those that were accepted, and those that an earlier generation handed on.
#[derive(Drop)]
pub struct Inbox<'p, R: Wait> {
    waiting: Mutex<Waiting<'p, R>>,
    bell: Condvar,
    generations: Generations,
}

impl<'p, R: Wait> Inbox<'p, R> {
    /// Makes an empty queue, into which so many listeners put connections.
    pub fn new(rt: &R, alloc: Global, doors: u32) -> io::Result<Inbox<'p, R>>
    where
        R: Clock,
    {
        Ok(Inbox {
            waiting: Mutex::new(Waiting {
                calls: VecDeque::new(alloc),
                statistics: VecDeque::new(alloc),
                doors,
                alive: 0,
            }),
            bell: Condvar::new(),
            generations: Generations::new(rt)?,
        })
    }

    /// Returns the generations of the node.
    pub fn generations(&self) -> &Generations {
        &self.generations
    }

    /// Returns a generation by its number.
    pub fn generation(&self, number: u64) -> Generation<'_> {
        Generation {
            all: &self.generations,
            number,
        }
    }

    /// Enqueues a connection. Where memory is refused, it is closed unanswered.
    pub fn put(&self, rt: &R, arrival: Arrival<'p, R>) -> bool {
        let is_kept = self.waiting.lock(rt).put(arrival);
        self.bell.notify_all();
        is_kept
    }

    /// Dequeues the next connection of a generation, for which it waits. None once another generation serves, or once none can come any
    /// more.
    pub fn next(&self, rt: &R, number: u64) -> Option<Arrival<'p, R>> {
        let mut waiting = self.waiting.lock(rt);
        for _ in rt.forever() {
            if self.generations.current() != number {
                return None;
            }
            if let Some(arrival) = waiting.take(number) {
                return Some(arrival);
            }
            if waiting.is_over() {
                return None;
            }
            waiting = self.bell.wait(rt, waiting);
        }
        unreachable!()
    }

    /// Counts a generation in that is being made.
    pub fn enter(&self, rt: &R) {
        let mut waiting = self.waiting.lock(rt);
        waiting.alive = waiting.alive.saturating_add(1);
    }

    /// Lets a generation serve from now on, unless a later one does.
    pub fn begin(&self, rt: &R, number: u64) {
        let waiting = self.waiting.lock(rt);
        if number > self.generations.current() {
            self.generations.begin(number);
        }
        drop(waiting);
        self.bell.notify_all();
    }

    /// Counts a generation out that has ended, or couldn't be made: it hands on no connection any more, and its node is gone.
    pub fn end(&self, rt: &R) {
        let mut waiting = self.waiting.lock(rt);
        waiting.alive = waiting.alive.saturating_sub(1);
        drop(waiting);
        self.bell.notify_all();
    }

    /// Counts a listener out that takes no more connections.
    pub fn shut(&self, rt: &R) {
        let mut waiting = self.waiting.lock(rt);
        waiting.doors = waiting.doors.saturating_sub(1);
        drop(waiting);
        self.bell.notify_all();
    }

    /// Counts the listeners that take connections.
    pub fn doors(&self, rt: &R) -> u32 {
        self.waiting.lock(rt).doors
    }

    /// Counts the generations that haven't ended.
    pub fn alive(&self, rt: &R) -> u32 {
        self.waiting.lock(rt).alive
    }
}
