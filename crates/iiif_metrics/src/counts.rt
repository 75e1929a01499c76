//! Counts of answers and connections.

ghost use Rattle.std.specs.Prelude.{◌≡◌, ◌+◌, ◌-◌};
ghost use Rattle.iiif_io.specs.Counting.{capped};
ghost use Rattle.iiif_metrics.specs.Counting.{cause_place, no_counts, place_of, listener_place, with_answer, with_closed, with_cut, with_opened};
ghost use Rattle.iiif_metrics.specs.Counting.{with_ousted, with_refused};

use crate::times::{AnswerKind, AnswerTimes};
use iiif_log::CutCause;
use std::sync::{Mutex, Wait};

/// The statuses that are counted each by itself. All others are counted together.
pub const STATUSES: [u16; 7] = [200, 303, 400, 404, 405, 500, 501];

/// Whose connections a listener takes.
#[derive(Clone, Copy, Debug, PartialEq, Eq)]
pub enum Visitors {
    Viewers,
    /// Other nodes.
    Peers,
    /// Readers of the statistics.
    Statistics,
}

/// How many answers and connections there were. A count stops at the greatest that its type holds.
#[derive(Clone, Copy, Debug, PartialEq, Eq)]
pub struct Counts {
    /// The answers that were sent whole, by status, in the order of [`STATUSES`], and those of any other status last.
    pub whole: [u64; 8],
    /// The answers that were cut off, by cause, in the order of [`CutCause`].
    pub cut: [u64; 6],
    /// The bytes of all answers.
    pub bytes: u64,
    /// The connections that are open, by whose they are, in the order of [`Visitors`].
    pub open_now: [u64; 3],
    /// The connections that were closed unanswered, in the same order.
    pub refused: [u64; 3],
    /// The connections whose place another one was given, in the same order.
    pub ousted: [u64; 3],
}

/// Returns the place of a status among the counts.
fn place_of(status: u16) -> usize
    ensures { result ≡ place_of status }
{
    match status {
        200 => 0,
        303 => 1,
        400 => 2,
        404 => 3,
        405 => 4,
        500 => 5,
        501 => 6,
        _ => 7,
    }
}

/// Returns the place of some visitors' connections among the counts.
fn listener_place(visitors: Visitors) -> usize
    ensures { result ≡ listener_place visitors }
{
    match visitors {
        Visitors::Viewers => 0,
        Visitors::Peers => 1,
        Visitors::Statistics => 2,
    }
}

/// Returns the place of a cause among the counts.
fn cause_place(cause: CutCause) -> usize
    ensures { result ≡ cause_place cause }
{
    match cause {
        CutCause::Viewer => 0,
        CutCause::Slow => 1,
        CutCause::Rate => 2,
        CutCause::Source => 3,
        CutCause::Memory => 4,
        CutCause::Ousted => 5,
    }
}

impl Counts {
    /// Begins with no counts.
    pub fn new() -> Counts
        ensures { result ≡ no_counts }
    {
        Counts {
            whole: [0; 8],
            cut: [0; 6],
            bytes: 0,
            open_now: [0; 3],
            refused: [0; 3],
            ousted: [0; 3],
        }
    }

    /// Counts an answer of this status that was sent whole, with its bytes.
    pub fn count_answer(&mut self, status: u16, bytes: u64)
        ensures { self.new ≡ with_answer status bytes self.old }
    {
        let place = place_of(status);
        self.whole[place] = self.whole[place].saturating_add(1);
        self.bytes = self.bytes.saturating_add(bytes);
    }

    /// Counts an answer that was cut off for a cause, behind so many bytes.
    pub fn count_cut(&mut self, cause: CutCause, bytes: u64)
        ensures { self.new ≡ with_cut cause bytes self.old }
    {
        let place = cause_place(cause);
        self.cut[place] = self.cut[place].saturating_add(1);
        self.bytes = self.bytes.saturating_add(bytes);
    }

    /// Counts a connection that was opened.
    pub fn count_opened(&mut self, visitors: Visitors)
        ensures { self.new ≡ with_opened visitors self.old }
    {
        let place = listener_place(visitors);
        self.open_now[place] = self.open_now[place].saturating_add(1);
    }

    /// Counts a connection that was closed.
    pub fn count_closed(&mut self, visitors: Visitors)
        ensures { self.new ≡ with_closed visitors self.old }
    {
        let place = listener_place(visitors);
        self.open_now[place] = self.open_now[place].saturating_sub(1);
    }

    /// Counts a connection that was closed unanswered.
    pub fn count_refused(&mut self, visitors: Visitors)
        ensures { self.new ≡ with_refused visitors self.old }
    {
        let place = listener_place(visitors);
        self.refused[place] = self.refused[place].saturating_add(1);
    }

    /// Counts a connection whose place another one was given.
    pub fn count_ousted(&mut self, visitors: Visitors)
        ensures { self.new ≡ with_ousted visitors self.old }
    {
        let place = listener_place(visitors);
        self.ousted[place] = self.ousted[place].saturating_add(1);
    }
}

/// Counts that threads share. They stand behind a lock, and each call does there what the method of [`Counts`] of its name does.
#[derive(Drop)]
pub struct Tally {
    counts: Mutex<Counts>,
    times: Mutex<AnswerTimes>,
}

impl Tally {
    /// Begins with no counts.
    pub fn new() -> Tally {
        Tally {
            counts: Mutex::new(Counts::new()),
            times: Mutex::new(AnswerTimes::new()),
        }
    }

    /// Counts an answer that was sent whole.
    pub fn count_answer<R: Wait>(&self, rt: &R, status: u16, bytes: u64) {
        self.counts.lock(rt).count_answer(status, bytes);
    }

    /// Counts an answer that was cut off.
    pub fn count_cut<R: Wait>(&self, rt: &R, cause: CutCause, bytes: u64) {
        self.counts.lock(rt).count_cut(cause, bytes);
    }

    /// Counts a connection that was opened.
    pub fn count_opened<R: Wait>(&self, rt: &R, visitors: Visitors) {
        self.counts.lock(rt).count_opened(visitors);
    }

    /// Counts a connection that was closed.
    pub fn count_closed<R: Wait>(&self, rt: &R, visitors: Visitors) {
        self.counts.lock(rt).count_closed(visitors);
    }

    /// Counts a connection that was closed unanswered.
    pub fn count_refused<R: Wait>(&self, rt: &R, visitors: Visitors) {
        self.counts.lock(rt).count_refused(visitors);
    }

    /// Counts a connection whose place another one was given.
    pub fn count_ousted<R: Wait>(&self, rt: &R, visitors: Visitors) {
        self.counts.lock(rt).count_ousted(visitors);
    }

    /// Counts a whole answer of a kind, which took so many microseconds.
    pub fn count_time<R: Wait>(&self, rt: &R, kind: AnswerKind, micros: u64) {
        self.times.lock(rt).count(kind, micros);
    }

    /// Returns how long whole answers took so far.
    pub fn times<R: Wait>(&self, rt: &R) -> AnswerTimes {
        *self.times.lock(rt)
    }

    /// Returns the counts so far.
    pub fn counts<R: Wait>(&self, rt: &R) -> Counts {
        *self.counts.lock(rt)
    }
}
