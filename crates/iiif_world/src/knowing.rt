//! Outcomes that calls know.

ghost use Rattle.std.specs.Prelude.{◌≡◌, Some, None, IfOk, MatchOption, OnErr};
ghost use Rattle.iiif_machine.specs.declared.rows.CallState.{CallState};
ghost use Rattle.iiif_machine.specs.Worlds.{decided, known_by, learned};
ghost use Rattle.iiif_world.specs.Code.{world_of};
ghost use Rattle.iiif_machine.specs.Heard.{heard, heard_all};

use crate::contents::Contents;
use iiif_machine::hearing::{Heard, copied_outcome, first_of, heard_of};
use iiif_machine::keys::copy_value;
use iiif_machine::{CallState, Stage, Value};
use iiif_pixel::NoMemory;
use iiif_source::ReadFault;

impl Contents {
    /// The outcome that a flight ended with, if it has.
    fn outcome_in(&self, flight: usize) -> Option<&Result<Value, ReadFault>>
        ensures { MatchOption result (known_by (world_of self.now).flights (CallState.In flight) ≡ None)
            (λ o. known_by (world_of self.now).flights (CallState.In flight) ≡ Some o.now) }
    {
        let Some(row) = self.flight_at(flight) else {
            return None;
        };
        let Stage::Ended(ended) = &row.stage else {
            return None;
        };
        let Some(outcome) = ended else {
            return None;
        };
        Some(outcome)
    }

    /// The outcome that a call in a state knows. The only error is lack of memory, and only where it knows one.
    fn known(&self, state: &CallState) -> Result<Option<Result<Value, ReadFault>>, NoMemory>
        ensures ok { IfOk result (λ o. o ≡ known_by (world_of self.now).flights state.now) }
        ensures err { OnErr result (¬ (known_by (world_of self.now).flights state.now ≡ None)) }
    {
        let alloc = *self.calls.allocator();
        match state {
            CallState::Fresh => Ok(None),
            CallState::Hit(value) => Ok(Some(Ok(copy_value(alloc, value)?))),
            CallState::In(flight) => match self.outcome_in(*flight) {
                Some(outcome) => Ok(Some(copied_outcome(alloc, outcome)?)),
                None => Ok(None),
            },
            CallState::Gone => Ok(None),
        }
    }

    /// The outcome that a call knows. The only error is lack of memory, and only where the call knows one.
    pub(crate) fn learned(&self, call: usize) -> Result<Option<Result<Value, ReadFault>>, NoMemory>
        ensures ok { IfOk result (λ o. o ≡ learned (world_of self.now) call) }
        ensures err { OnErr result (¬ (learned (world_of self.now) call ≡ None)) }
    {
        match self.calls.get(call) {
            None => Ok(None),
            Some(call) => self.known(&call.state),
        }
    }

    /// The outcome that a call in a state knows, without its value.
    fn heard_in(&self, state: &CallState) -> Heard
        ensures { result ≡ heard (known_by (world_of self.now).flights state.now) }
    {
        match state {
            CallState::Fresh => Heard::Nothing,
            CallState::Hit(_) => Heard::Value,
            CallState::In(flight) => match self.outcome_in(*flight) {
                Some(outcome) => heard_of(outcome),
                None => Heard::Nothing,
            },
            CallState::Gone => Heard::Nothing,
        }
    }

    /// The outcome that a call knows, without its value.
    fn heard(&self, call: usize) -> Heard
        ensures { result ≡ heard (learned (world_of self.now) call) }
    {
        match self.calls.get(call) {
            None => Heard::Nothing,
            Some(call) => self.heard_in(&call.state),
        }
    }

    /// The outcome that decides what comes of several calls, without values. Of several faults it is the first.
    pub(crate) fn gathered(&self, calls: &[usize]) -> Heard
        ensures { result ≡ heard_all (decided (world_of self.now) calls.now) }
    {
        let mut first = Heard::Value;
        for call in calls {
            first = first_of(self.faults_early, first, self.heard(*call));
        }
        first
    }
}
