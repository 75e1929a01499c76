//! How often a link was asked.

ghost use Rattle.std.specs.Prelude.{◌≡◌};
ghost use Rattle.iiif_breaker.specs.Counting.{counted, has_answers_since, none, skipped};

use crate::outcome::Outcome;

/// How many asks of a link ended how, and how many weren't made.
#[derive(Clone, Copy, PartialEq, Eq)]
pub struct Asks {
    /// A value came.
    pub answered: u64,
    /// The node refused.
    pub refused: u64,
    /// There was no connection, or no reply of the key.
    pub failed: u64,
    /// No whole reply came in its time.
    pub timed_out: u64,
    /// The link was left alone.
    pub skipped: u64,
}

impl Asks {
    /// None.
    pub fn new() -> Asks
        ensures { result ≡ none }
    {
        Asks {
            answered: 0,
            refused: 0,
            failed: 0,
            timed_out: 0,
            skipped: 0,
        }
    }

    /// One more that ended so.
    pub fn count(&mut self, outcome: Outcome)
        ensures { self.new ≡ counted self.old outcome }
    {
        match outcome {
            Outcome::Answered => self.answered = self.answered.saturating_add(1),
            Outcome::Refused => self.refused = self.refused.saturating_add(1),
            Outcome::Failed => self.failed = self.failed.saturating_add(1),
            Outcome::TimedOut => self.timed_out = self.timed_out.saturating_add(1),
        }
    }

    /// Whether a node answered any since these were all, be it by a refusal.
    pub fn has_answers_since(&self, before: &Asks) -> bool
        ensures { result ≡ has_answers_since self.now before.now }
    {
        self.answered != before.answered || self.refused != before.refused
    }

    /// One more that wasn't made.
    pub fn count_skipped(&mut self)
        ensures { self.new ≡ skipped self.old }
    {
        self.skipped = self.skipped.saturating_add(1);
    }
}
