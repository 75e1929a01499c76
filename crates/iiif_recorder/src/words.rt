//! The words of a step.

ghost use Rattle.std.specs.Prelude.{◌≡◌, IfOk, string_bytes};
ghost use Rattle.iiif_recorder.specs.Words.{landing_words, reply_words, step_words, unread_words};

use iiif_group::{Ending, Step};
use std::alloc::{AllocError, Global};

/// Returns the words for a landing.
fn landing_words(ending: Ending, kept: bool) -> &'static str
    ensures { result.now ≡ landing_words ending kept }
{
    match (ending, kept) {
        (Ending::Value, true) => "lands value kept",
        (Ending::Value, false) => "lands value dropped",
        (Ending::Fault, true) => "lands fault kept",
        (Ending::Fault, false) => "lands fault dropped",
        (Ending::NoMemory, true) => "lands memory kept",
        (Ending::NoMemory, false) => "lands memory dropped",
    }
}

/// Returns the words for a reply with a status.
fn reply_words(status: u8) -> &'static str
    ensures { result.now ≡ reply_words status }
{
    match status {
        0 => "replies value",
        1 => "replies fault",
        _ => "replies nothing",
    }
}

/// Makes the words for a read that failed, at this place, for this cause. The only error is lack of memory.
pub fn unread_words(alloc: Global, place: u64, cause: u8) -> Result<String, AllocError>
    ensures { IfOk result (λ words. string_bytes words ≡ unread_words place cause) }
{
    let words = format!(in alloc; "fails {place} {cause}")?;
    Ok(words)
}

/// Returns the words for a step: none, where it has a line of another kind.
pub fn step_words(step: Step) -> &'static str
    ensures { result.now ≡ step_words step }
{
    match step {
        Step::Hit => "hit",
        Step::Joined => "joins",
        Step::Led => "leads",
        Step::Refused => "refused",
        Step::Asked => "asks",
        Step::Answered => "answered",
        Step::Failed => "failed",
        Step::Landed(ending, _, kept) => landing_words(ending, kept),
        Step::Read => "reads",
        Step::Served => "serves",
        Step::Replied(status) => reply_words(status),
        Step::Unread(_, _) | Step::Worker(_) | Step::Wanted | Step::Ended(_) | Step::Cut => "",
    }
}
