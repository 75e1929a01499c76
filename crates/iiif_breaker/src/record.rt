//! The record of a link: its breaker and its counts.

ghost use Rattle.std.specs.Prelude.{◌≡◌, IfNone, IfSome, true, false, if◌then◌else◌};
ghost use Rattle.iiif_breaker.specs.Breaking.{asked, change_of, is_asked, is_closed, is_due, reported, silent, unknown};
ghost use Rattle.iiif_breaker.specs.Counting.{counted, has_answers_since, none, skipped};

use crate::breaker::{Breaker, State};
use crate::change::Change;
use crate::counts::Asks;
use crate::outcome::Outcome;

/// Returns whether all ask a link in this state.
fn is_closed(state: State) -> bool
    ensures { result ≡ is_closed state }
{
    matches!(state, State::Closed { .. })
}

/// Returns the change from one state to another, where that is logged.
fn change_of(was: State, now: State) -> Option<Change>
    ensures { result ≡ change_of was now }
{
    match (is_closed(was), is_closed(now)) {
        (true, false) => Some(Change::LeftAlone),
        (false, true) => Some(Change::AskedAgain),
        _ => None,
    }
}

/// A link's breaker, and how its asks ended so far.
#[derive(Clone, Copy, PartialEq, Eq)]
pub struct LinkRecord {
    breaker: Breaker,
    asks: Asks,
}

impl LinkRecord {
    /// Makes the record of a link that wasn't asked yet.
    pub fn new() -> LinkRecord
        ensures breaker { result.breaker ≡ unknown }
        ensures asks { result.asks ≡ none }
    {
        LinkRecord {
            breaker: Breaker::new(),
            asks: Asks::new(),
        }
    }

    /// Returns how its asks ended so far.
    pub fn asks(&self) -> Asks
        ensures { result ≡ self.now.asks }
    {
        self.asks
    }

    /// Returns whether it is asked.
    pub fn state(&self) -> State
        ensures { result ≡ self.now.breaker.state }
    {
        self.breaker.state()
    }

    /// Returns the number for an ask that is made now; none where the link is left alone, which is counted.
    pub fn may_ask(&mut self, now: u64) -> Option<u64>
        ensures number { IfSome result (λ n. n ≡ self.old.breaker.openings) }
        ensures asked { IfSome result (λ _. (is_asked self.old.breaker.state now ≡ true) × (self.new.asks ≡ self.old.asks)) }
        ensures left { IfNone result ((is_asked self.old.breaker.state now ≡ false) × (self.new.asks ≡ skipped self.old.asks)) }
        ensures breaker { self.new.breaker ≡ asked self.old.breaker now }
    {
        let number = self.breaker.may_ask(now);
        if number.is_none() {
            self.asks.count_skipped();
        }
        number
    }

    /// Takes in how the ask of a number ended, and returns the link's change.
    pub fn report(&mut self, now: u64, number: u64, outcome: Outcome) -> Option<Change>
        ensures change { result ≡ change_of self.old.breaker.state self.new.breaker.state }
        ensures breaker { self.new.breaker ≡ reported self.old.breaker now number outcome }
        ensures asks { self.new.asks ≡ counted self.old.asks outcome }
    {
        let was = self.breaker.state();
        self.breaker.report(now, number, outcome);
        self.asks.count(outcome);
        change_of(was, self.breaker.state())
    }

    /// Returns whether a health check of its node is due.
    pub fn is_due(&self, now: u64) -> bool
        ensures { result ≡ is_due self.now.breaker.state now }
    {
        self.breaker.is_due(now)
    }

    /// Takes in a health check of its node that failed, and returns the link's change. Before are the asks of the moment when the check
    /// began: where one was answered since, the node is there.
    pub fn report_silent(&mut self, now: u64, before: &Asks) -> Option<Change>
        ensures change { result ≡ change_of self.old.breaker.state self.new.breaker.state }
        ensures breaker { self.new.breaker ≡ (if has_answers_since self.old.asks before.now then self.old.breaker else
            silent self.old.breaker now) }
        ensures asks { self.new.asks ≡ self.old.asks }
    {
        let was = self.breaker.state();
        if !self.asks.has_answers_since(before) {
            self.breaker.report_silent(now);
        }
        change_of(was, self.breaker.state())
    }
}
