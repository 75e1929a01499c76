//! A link that is left alone for a while once it failed.

ghost use Rattle.std.specs.Prelude.{◌≡◌, Some, None, if◌then◌else◌};
ghost use Rattle.iiif_breaker.specs.Breaking.{asked, is_asked, is_due, opened, reported, silent, unknown};

use crate::outcome::Outcome;

/// How many faults in a row open a link.
pub const FAULTS: u32 = 3;

/// How long a link is left alone at first, in milliseconds.
pub const FIRST: u64 = 1_000;

/// How long at most.
pub const LONGEST: u64 = 60_000;

/// How long before a link would be asked again a look at its node is due, in milliseconds.
pub const SOON: u64 = 1_000;

/// Whether a link is asked.
#[derive(Clone, Copy, PartialEq, Eq)]
pub enum State {
    /// It is asked. So many faults came in a row.
    Closed { faults: u32 },
    /// It failed, and isn't asked until then. It is left alone for so long.
    Open { until: u64, wait: u64 },
    /// It was asked once, then, and hasn't answered yet. It isn't asked again for so long.
    HalfOpen { since: u64, wait: u64 },
}

/// Circuit breaker of a link: its state, and how often it was opened, which is the number of each ask that is made now.
#[derive(Clone, Copy, PartialEq, Eq)]
pub struct Breaker {
    state: State,
    openings: u64,
}

impl Breaker {
    /// Makes the breaker of a link of which nothing is known: it is closed.
    pub fn new() -> Breaker
        ensures { result ≡ unknown }
    {
        Breaker {
            state: State::Closed { faults: 0 },
            openings: 0,
        }
    }

    /// Returns whether the link is asked.
    pub fn state(&self) -> State
        ensures { result ≡ self.now.state }
    {
        self.state
    }

    /// Returns how often it was opened.
    pub fn openings(&self) -> u64
        ensures { result ≡ self.now.openings }
    {
        self.openings
    }

    /// Opens: the link is left alone from now on.
    fn open(&mut self, now: u64, wait: u64)
        ensures { self.new ≡ opened self.old.openings now wait }
    {
        self.state = State::Open {
            until: now.saturating_add(wait),
            wait,
        };
        self.openings = self.openings.saturating_add(1);
    }

    /// Returns whether the link is asked now.
    fn is_asked(&self, now: u64) -> bool
        ensures { result ≡ is_asked self.now.state now }
    {
        match self.state {
            State::Closed { .. } => true,
            State::Open { until, .. } => until <= now,
            State::HalfOpen { since, wait } => wait <= now.saturating_sub(since),
        }
    }

    /// Returns whether a health check of its node is due: the link is asked, or soon would be.
    pub fn is_due(&self, now: u64) -> bool
        ensures { result ≡ is_due self.now.state now }
    {
        self.is_asked(now.saturating_add(SOON))
    }

    /// Opens since a health check of its node failed: for a second where the link was asked, and else for as long again as it was.
    pub fn report_silent(&mut self, now: u64)
        ensures { self.new ≡ silent self.old now }
    {
        let wait = match self.state {
            State::Closed { .. } => FIRST,
            State::Open { wait, .. } => wait,
            State::HalfOpen { wait, .. } => wait,
        };
        self.open(now, wait);
    }

    /// Returns the number for an ask that is made now, which comes back with its outcome; none where the link is left alone. Where it was
    /// left alone until now, the caller is to ask, since no other gets a number for as long again.
    pub fn may_ask(&mut self, now: u64) -> Option<u64>
        ensures value { result ≡ (if is_asked self.old.state now then Some self.old.openings else None) }
        ensures state { self.new ≡ asked self.old now }
    {
        if !self.is_asked(now) {
            return None;
        }
        match self.state {
            State::Closed { .. } => {}
            State::Open { wait, .. } => self.state = State::HalfOpen { since: now, wait },
            State::HalfOpen { wait, .. } => self.state = State::HalfOpen { since: now, wait },
        }
        Some(self.openings)
    }

    /// Takes in how the ask of a number ended. An answer, a refusal too, closes the link, whenever it was asked for; a fault counts only
    /// where the link wasn't opened since.
    pub fn report(&mut self, now: u64, number: u64, outcome: Outcome)
        ensures { self.new ≡ reported self.old now number outcome }
    {
        if matches!(outcome, Outcome::Answered | Outcome::Refused) {
            self.state = State::Closed { faults: 0 };
            return;
        }
        if number != self.openings {
            return;
        }
        match self.state {
            State::Closed { faults } => {
                if outcome == Outcome::TimedOut || faults >= FAULTS - 1 {
                    self.open(now, FIRST);
                } else {
                    self.state = State::Closed { faults: faults + 1 };
                }
            }
            State::Open { .. } => {}
            State::HalfOpen { wait, .. } => self.open(now, wait.saturating_mul(2).min(LONGEST)),
        }
    }
}
