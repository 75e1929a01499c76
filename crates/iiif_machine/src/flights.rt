//! Open flights of a world, and how flights end.

ghost use Rattle.std.specs.Prelude.{◌≡◌, position, Some, IfOk};
ghost use Rattle.iiif_tables.specs.declared.table.Place.{Place};
ghost use Rattle.iiif_machine.specs.Steps.{is_open, is_open_for};
ghost use Rattle.iiif_machine.specs.Tables.{Outcome, value_of};
ghost use Rattle.iiif_machine.specs.declared.rows.Lead.{Lead};
ghost use Rattle.iiif_machine.specs.declared.rows.Stage.{Stage};

use crate::keys::{Value, copy_value, same};
use crate::rows::{Caller, Flight, Stage};
use crate::table::same_class;
use iiif_pixel::NoMemory;
use iiif_source::ReadFault;
use iiif_tables::Place;
use std::alloc::Global;
use std::mem::replace;

/// Whether a flight is open.
fn is_open(stage: &Stage) -> bool
    ensures { result ≡ is_open stage.now }
{
    match stage {
        Stage::Ended(_) => false,
        Stage::New
        | Stage::Looked
        | Stage::Asking
        | Stage::Fallback(_)
        | Stage::Parts(_)
        | Stage::Ready(_, _) => true,
    }
}

/// Whether a flight is an open one of a call's node, key and class.
fn is_open_for(caller: &Caller, flight: &Flight) -> bool
    ensures { result ≡ is_open_for caller.now flight.now }
{
    let lead = &flight.lead;
    is_open(&flight.stage)
        && lead.node == caller.node
        && same(&lead.key, &caller.key)
        && same_class(lead.class, caller.class)
}

/// The place of the first open flight of a call's node, key and class.
pub fn open_for(flights: &[Flight], caller: &Caller) -> Option<usize>
    ensures { result ≡ position (is_open_for caller.now) flights.now }
{
    flights.iter().position(|f| is_open_for(caller, f))
}

/// A copy of an outcome's value. The only error is lack of memory.
pub fn value_in(
    alloc: Global,
    outcome: &Result<Value, ReadFault>,
) -> Result<Option<Value>, NoMemory>
    ensures { IfOk result (λ v. v ≡ value_of outcome.now) }
{
    match outcome {
        Ok(value) => Ok(Some(copy_value(alloc, value)?)),
        Err(_) => Ok(None),
    }
}

/// A stage that is ready ends; any other stays.
fn ended(stage: Stage) -> Stage
    ensures { (o : Outcome) (p : Place) → stage ≡ Stage.Ready o p → result ≡ Stage.Ended (Some o) }
{
    match stage {
        Stage::Ready(outcome, _) => Stage::Ended(Some(outcome)),
        stage => stage,
    }
}

/// A stage that ended with an outcome is ready; any other stays.
fn reopened(stage: Stage, place: Place) -> Stage
    ensures { (o : Outcome) → stage ≡ Stage.Ended (Some o) → result ≡ Stage.Ready o place }
{
    match stage {
        Stage::Ended(Some(outcome)) => Stage::Ready(outcome, place),
        stage => stage,
    }
}

/// A flight that is ready ends.
pub fn end_flight(flight: &mut Flight)
    ensures { (l : Lead) (o : Outcome) (p : Place) → flight.old ≡ record { lead = l; stage = Stage.Ready o p } →
        flight.new ≡ record { lead = l; stage = Stage.Ended (Some o) } }
{
    let stage = replace(&mut flight.stage, Stage::New);
    flight.stage = ended(stage);
}

/// A flight that ended with an outcome is ready again.
pub fn reopen_flight(flight: &mut Flight, place: Place)
    ensures { (l : Lead) (o : Outcome) → flight.old ≡ record { lead = l; stage = Stage.Ended (Some o) } →
        flight.new ≡ record { lead = l; stage = Stage.Ready o place } }
{
    let stage = replace(&mut flight.stage, Stage::New);
    flight.stage = reopened(stage, place);
}
