//! Gates of loads, which may record the steps of a group.

ghost use Rattle.std.specs.Prelude.{ℕ, List};

use iiif_tables::{Class, Place};

/// Gate that each load passes before it begins. R is the runtime.
pub trait Gate<R> {
    /// The fact that holds of a key's bytes once they passed. A gate that promises nothing says what always holds.
    ghost passed: { Self → List ℕ → Type 0 };

    /// Lets a load begin of the key with these bytes. No lock is held, so it may wait.
    fn pass(&self, rt: &R, key_bytes: &[u8])
        ensures { passed self.now key_bytes.now };

    /// Returns whether the gate records steps. Where it doesn't, no note is made.
    fn records(&self) -> bool;

    /// Records a step. The group's lock may be held, so it must not wait for the group.
    fn note(&self, rt: &R, note: &Note<'_>);
}

/// Step of a call or of the flight that it leads, as a gate records it.
#[derive(Clone, Copy, Drop)]
pub struct Note<'a> {
    pub step: Step,
    pub class: Class,
    /// The rank of the key: 0 for a tile, more for sums.
    pub rank: u32,
    /// The number of the pass that counts the call, 0 where a flight lands.
    pub pass: u64,
    /// The number of the flight, 0 where there is none.
    pub ticket: u64,
    /// The bytes of the key; none where memory for them ran out.
    pub key: &'a [u8],
}

/// Kind of a step.
#[derive(Clone, Copy, Debug, PartialEq, Eq)]
pub enum Step {
    /// A call enters and hits: the value is kept.
    Hit,
    /// A call enters and joins an open flight.
    Joined,
    /// A call enters and leads a new flight.
    Led,
    /// A call is refused: memory for entering ran out.
    Refused,
    /// The leader asks the key's owner.
    Asked,
    /// The owner answered with a value of the key's shape.
    Answered,
    /// The owner gave no value.
    Failed,
    /// A flight lands: its ending, the place for its value, and whether the value is kept.
    Landed(Ending, Place, bool),
    /// A read of the source gave a value.
    Read,
    /// A read failed, at this place, for this cause.
    Unread(u64, u8),
    /// The node begins to serve another node's ask.
    Served,
    /// It replies, with this status.
    Replied(u8),
    /// A worker answers beside the pass of this number.
    Worker(u64),
    /// A target is asked for, whose bytes stand in the key's place.
    Wanted,
    /// Its answer ended, with this status of HTTP.
    Ended(u16),
    /// Its answer was cut off.
    Cut,
}

/// Ending of a flight.
#[derive(Clone, Copy, Debug, PartialEq, Eq)]
pub enum Ending {
    Value,
    /// The fault of a load.
    Fault,
    /// Memory ran out.
    NoMemory,
}

/// Gate that lets each load begin at once and records nothing.
#[derive(Clone, Copy, Drop)]
pub struct NoGate;

impl<R> Gate<R> for NoGate {
    ghost use Rattle.std.specs.Prelude.{⊤};

    ghost passed = { λ _ _. ⊤ };

    fn pass(&self, _rt: &R, _key_bytes: &[u8]) {}

    fn records(&self) -> bool {
        false
    }

    fn note(&self, _rt: &R, _note: &Note<'_>) {}
}

impl<'a, R, T: Gate<R>> Gate<R> for &'a T {
    ghost passed = { λ gate bytes. T.passed gate.now bytes };

    fn pass(&self, rt: &R, key_bytes: &[u8]) {
        (**self).pass(rt, key_bytes)
    }

    fn records(&self) -> bool {
        (**self).records()
    }

    fn note(&self, rt: &R, note: &Note<'_>) {
        (**self).note(rt, note)
    }
}
