//! The line of an answer.

ghost use Rattle.std.specs.Prelude.{◌≡◌, ◌++◌, ◌∷◌, [], IfOk, OnOk, string_bytes};
ghost use Rattle.iiif_log.specs.Lines.{IsLineOf, cause_word, outcome_word, cut_word, failure_words, lost_line};

use crate::answered::{Answered, CutCause, Failure, Outcome};
use crate::escape::push_escaped;
use crate::moment::{NoMemory, push_moment};
use std::alloc::Global;
use std::fmt::Write;

/// Room for a line of the usual length.
const USUAL_LENGTH: usize = 128;

/// Writes the status, or that there was none to tell.
fn push_outcome(text: &mut String, outcome: Outcome) -> Result<(), NoMemory>
    ensures { OnOk result (string_bytes text.new ≡ string_bytes text.old ++ outcome_word outcome) }
{
    match outcome {
        Outcome::Whole(status) => write!(text, "{status}"),
        Outcome::Failed(_) => text.push_str("500"),
        Outcome::Cut(_) => text.push_str("-"),
    }
}

/// The word for a cause.
fn cause_text(cause: CutCause) -> &'static str
    ensures { result.now ≡ cause_word cause }
{
    match cause {
        CutCause::Viewer => "viewer",
        CutCause::Slow => "slow",
        CutCause::Rate => "rate",
        CutCause::Source => "source",
        CutCause::Memory => "memory",
        CutCause::Ousted => "ousted",
    }
}

/// The words for the cause of a 500: those of the answer.
fn failure_text(failure: Failure) -> &'static str
    ensures { result.now ≡ failure_words failure }
{
    match failure {
        Failure::Source => "L1 source",
        Failure::Memory => "L2 memory",
    }
}

/// Writes why an answer failed, or that it was cut off and why, where it did or was, and the line's end.
fn push_end(text: &mut String, outcome: Outcome) -> Result<(), NoMemory>
    ensures { OnOk result (string_bytes text.new ≡ string_bytes text.old ++ (cut_word outcome ++ 10 ∷ [])) }
{
    match outcome {
        Outcome::Whole(_) => text.push_str("\n"),
        Outcome::Failed(failure) => {
            let words = failure_text(failure);
            write!(text, " {words}\n")
        }
        Outcome::Cut(cause) => {
            let word = cause_text(cause);
            write!(text, " cut {word}\n")
        }
    }
}

/// The line of an answer, as `2026-11-23T11:42:05.123Z GET 200 65536 12 /iiif/a/full/max/0/default.tif`: when it was done with, the
/// method, the status, the bytes that were written, the milliseconds that it took, the target; and the cause of a 500 in the answer's own
/// words, or `cut` and the cause where it was cut off, with `-` in the place of the status.
pub fn line_bytes(alloc: Global, answered: &Answered<'_>) -> Result<Vec<u8>, NoMemory>
    ensures { IfOk result (λ bytes. IsLineOf answered.now bytes.items) }
{
    let mut text = String::with_capacity(alloc, USUAL_LENGTH)?;
    push_moment(&mut text, answered.at)?;
    text.push_str(" ")?;
    push_escaped(&mut text, answered.method)?;
    text.push_str(" ")?;
    push_outcome(&mut text, answered.outcome)?;
    let bytes = answered.bytes;
    let millis = answered.millis;
    write!(text, " {bytes} {millis} ")?;
    push_escaped(&mut text, answered.target)?;
    push_end(&mut text, answered.outcome)?;
    Ok(text.into_bytes())
}

/// The line that tells how many lines were lost, as `lost 12`.
pub fn lost_line_bytes(alloc: Global, count: u64) -> Result<Vec<u8>, NoMemory>
    ensures { IfOk result (λ bytes. bytes.items ≡ lost_line count) }
{
    let text = format!(in alloc; "lost {count}\n")?;
    Ok(text.into_bytes())
}
