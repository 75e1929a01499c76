//! Outcomes that calls know, without their values.

ghost use Rattle.std.specs.Prelude.{◌≡◌, Some, IfOk};
ghost use Rattle.iiif_machine.specs.Heard.{heard, heard_first};

use crate::keys::{Value, copy_value};
use iiif_pixel::NoMemory;
use iiif_source::ReadFault;
use std::alloc::Global;

/// The outcome that a call knows, or several calls together, without its value.
#[derive(Clone, Copy, PartialEq, Eq)]
pub enum Heard {
    /// Nothing, or one of several knows nothing, and no fault before it counts yet.
    Nothing,
    /// A value, or each knows one.
    Value,
    /// A fault, or the first of several.
    Fault(ReadFault),
}

/// An equal outcome. The only error is lack of memory.
pub fn copied_outcome(
    alloc: Global,
    outcome: &Result<Value, ReadFault>,
) -> Result<Result<Value, ReadFault>, NoMemory>
    ensures { IfOk result (λ o. o ≡ outcome.now) }
{
    match outcome {
        Ok(value) => Ok(Ok(copy_value(alloc, value)?)),
        Err(fault) => Ok(Err(*fault)),
    }
}

/// An outcome without its value.
pub fn heard_of(outcome: &Result<Value, ReadFault>) -> Heard
    ensures { result ≡ heard (Some outcome.now) }
{
    match outcome {
        Ok(_) => Heard::Value,
        Err(fault) => Heard::Fault(*fault),
    }
}

/// Two outcomes, one after the other, as one: the first fault counts; where faults are early, also where the next is nothing.
pub fn first_of(early: bool, first: Heard, next: Heard) -> Heard
    ensures { result ≡ heard_first early first next }
{
    match (first, next) {
        (Heard::Nothing, _) => Heard::Nothing,
        (Heard::Value, next) => next,
        (Heard::Fault(fault), Heard::Nothing) => {
            if early {
                Heard::Fault(fault)
            } else {
                Heard::Nothing
            }
        }
        (Heard::Fault(fault), Heard::Value | Heard::Fault(_)) => Heard::Fault(fault),
    }
}
