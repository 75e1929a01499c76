//! The gate that records the steps of a group.

use crate::recorder::Recorder;
use crate::words::{step_words, unread_words};
use iiif_group::{Gate, Note, Step};
use std::alloc::AllocError;
use std::fs::File;
use std::sync::Wait;

/// Gate that lets each load begin at once, and records each step where there is a record. An ask leaves once the lines before it are
/// written.
#[derive(Clone, Copy, Drop)]
pub struct RecordGate<'p>(pub Option<&'p Recorder<File>>);

/// Returns the step of a note as a line with these words tells it.
fn step_of<'a, 'n: 'a>(note: &Note<'n>, words: &'a str) -> iiif_records::Step<'a> {
    let ticket = match note.step {
        Step::Refused | Step::Read | Step::Unread(_, _) | Step::Served | Step::Replied(_) => None,
        _ => Some(note.ticket),
    };
    iiif_records::Step {
        words,
        class: note.class,
        ticket,
        key: note.key,
    }
}

/// Returns whether something may leave the node behind a step.
fn leaves(step: Step) -> bool {
    matches!(
        step,
        Step::Asked | Step::Replied(_) | Step::Wanted | Step::Ended(_) | Step::Cut
    )
}

/// Puts the line of a note behind the others. The only error is lack of memory for it.
fn put<R: Wait>(rt: &R, recorder: &Recorder<File>, note: &Note<'_>) -> Result<(), AllocError> {
    let pass = note.pass;
    match note.step {
        Step::Worker(other) => recorder.tell(rt, "worker", pass, other, &[]),
        Step::Wanted => recorder.tell(rt, "wants", pass, 0, note.key),
        Step::Ended(status) => recorder.tell(rt, "ends", pass, u64::from(status), &[]),
        Step::Cut => recorder.tell(rt, "cut", pass, 0, &[]),
        Step::Unread(place, cause) => {
            let words = unread_words(recorder.allocator(), place, cause)?;
            recorder.put(rt, pass, &step_of(note, words.as_str()));
            Ok(())
        }
        step => {
            recorder.put(rt, pass, &step_of(note, step_words(step)));
            Ok(())
        }
    }
}

impl<'p, R: Wait> Gate<R> for RecordGate<'p> {
    ghost use Rattle.std.specs.Prelude.{⊤};

    ghost passed = { λ _ _. ⊤ };

    fn pass(&self, rt: &R, _key_bytes: &[u8]) {
        if let Some(recorder) = self.0 {
            recorder.write_if_half(rt);
        }
    }

    fn records(&self) -> bool {
        self.0.is_some()
    }

    fn note(&self, rt: &R, note: &Note<'_>) {
        let Some(recorder) = self.0 else {
            return;
        };
        if put(rt, recorder, note).is_err() {
            recorder.end(rt);
        }
        if leaves(note.step) {
            recorder.write(rt);
        }
    }
}
