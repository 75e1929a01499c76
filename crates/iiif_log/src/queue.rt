//! Lines that wait to be written.

ghost use Rattle.std.specs.Prelude.{◌≡◌, IfOk};
ghost use Rattle.iiif_log.specs.Waiting.{is_full, none_waits, put_behind, told_next, lost_behind, left_behind, closed_to_more, taken_view};

use crate::moment::NoMemory;
use std::alloc::Global;
use std::collections::VecDeque;
use std::marker::Model;

/// The most lines that wait.
pub const MOST: usize = 1024;

/// A line that waits, or that is taken to be written.
#[derive(Drop)]
pub struct Line {
    /// How many lines were lost right before it.
    pub lost: u64,
    /// Its bytes; empty where nothing came behind the lines that were lost.
    pub text: Vec<u8>,
}

/// The outcome of taking a line of a queue.
#[derive(Drop)]
pub enum Taken {
    Line(Line),
    /// Nothing waits yet.
    Nothing,
    /// Nothing waits, and nothing will come.
    Closed,
}

/// Lines that wait in order, up to 1,024, and how many were lost behind them. All memory that the queue itself needs is taken at its
/// beginning.
#[derive(Drop)]
pub struct Queue {
    lines: VecDeque<Line>,
    lost: u64,
    is_open: bool,
}

impl Model for Queue {
    ghost use Rattle.std.specs.Prelude.{◌≤◌, map};
    ghost use Rattle.std.specs.VecDeque.{deque_len, deque_capacity};
    ghost use Rattle.iiif_log.specs.Waiting.{Waiting, line_view};

    ghost Value = { Waiting };

    ghost view = { λ q. record { lines = map line_view q.lines.items; lost = q.lost; is_open = q.is_open } };

    ghost invariant = { λ q. (deque_len q.lines ≤ 1024) × (1024 ≤ deque_capacity q.lines) };
}

impl Queue {
    /// No line waits.
    pub fn new(alloc: Global) -> Result<Queue, NoMemory>
        ensures { IfOk result (λ q. q ≡ none_waits) }
    {
        Ok(Queue {
            lines: VecDeque::with_capacity(alloc, MOST)?,
            lost: 0,
            is_open: true,
        })
    }

    /// Whether so many lines wait that the next is lost.
    pub fn is_full(&self) -> bool
        ensures { result ≡ is_full self.now }
    {
        self.lines.len() >= MOST
    }

    /// Puts a line behind the others. Where 1,024 wait it is lost, which is counted.
    pub fn put(&mut self, text: Vec<u8>)
        ensures { self.new ≡ put_behind text.items self.old }
    {
        if self.lines.len() >= MOST {
            self.lose();
            return;
        }
        let line = Line {
            lost: self.lost,
            text,
        };
        self.lines.push_back_reserved(line);
        self.lost = 0;
    }

    /// Counts a line that could not be made.
    pub fn lose(&mut self)
        ensures { self.new ≡ lost_behind self.old }
    {
        self.lost = self.lost.saturating_add(1);
    }

    /// Takes the line that waits longest; where none waits and lines were lost, how many.
    pub fn take(&mut self, alloc: Global) -> Taken
        ensures taken { taken_view result ≡ told_next self.old }
        ensures left { self.new ≡ left_behind self.old }
    {
        if let Some(line) = self.lines.pop_front() {
            return Taken::Line(line);
        }
        if self.lost > 0 {
            let line = Line {
                lost: self.lost,
                text: Vec::new(alloc),
            };
            self.lost = 0;
            return Taken::Line(line);
        }
        if self.is_open {
            Taken::Nothing
        } else {
            Taken::Closed
        }
    }

    /// Nothing more will come.
    pub fn close(&mut self)
        ensures { self.new ≡ closed_to_more self.old }
    {
        self.is_open = false;
    }
}
