//! A list of events: the lines of a reader, replayed one after another, and what comes of each written.

ghost use Rattle.std.specs.Prelude.{◌≡◌, ℕ, Bool, false, List, string_bytes, IsErrOf, IsOk, IfOk, OnOk};
ghost use Rattle.std.specs.Io.KnownBytes.{Appends};
ghost use Rattle.iiif_machine.specs.declared.events.Event.{Event};
ghost use Rattle.iiif_event_list.specs.declared.Mode.{Mode};
ghost use Rattle.iiif_event_list.specs.declared.Stop.{Stop};
ghost use Rattle.iiif_event_list.specs.declared.fault.LineFault.{LineFault};
ghost use Rattle.iiif_event_list.specs.Replays.{GoesOn, IsBad, LineComes, Replays, Stops, ended_text};

use crate::fault::LineFault;
use crate::replaying::{LineOutcome, Replay};
use crate::{Mode, Stop};
use std::alloc::Global;
use std::io::{BufRead, Write};

/// Goes on behind a line: where its event isn't allowed, only if the replay explores.
fn go_on(mode: Mode, number: u64, allowed: bool) -> Result<(), Stop>
    ensures on { OnOk result (GoesOn mode allowed) }
    ensures bad { (n : ℕ) → ¬ IsErrOf result (Stop.Line n) }
    ensures refused { (n : ℕ) → IsErrOf result (Stop.NotNow n) → (n ≡ number) × (mode ≡ Mode.Judging) × (allowed ≡ false) }
{
    if allowed {
        return Ok(());
    }
    match mode {
        Mode::Judging => Err(Stop::NotNow(number)),
        Mode::Exploring => Ok(()),
    }
}

/// Writes what a line came to.
fn put<W: Write>(
    mode: Mode,
    out: &mut W,
    number: u64,
    outcome: Result<LineOutcome, LineFault>,
) -> Result<(), Stop>
    ensures came { OnOk result (IsOk outcome) }
    ensures written { OnOk result (IfOk outcome (λ o. GoesOn mode o.allowed
        × Appends (W.contents out.old) (W.contents out.new) (string_bytes o.text))) }
    ensures bad { (n : ℕ) → IsErrOf result (Stop.Line n)
        → (n ≡ number) × IsErrOf outcome LineFault.Bad × (W.contents out.new ≡ W.contents out.old) }
    ensures refused { (n : ℕ) → IsErrOf result (Stop.NotNow n) → (n ≡ number) × (mode ≡ Mode.Judging) × IsOk outcome
        × IfOk outcome (λ o. (o.allowed ≡ false) × Appends (W.contents out.old) (W.contents out.new) (string_bytes o.text)) }
{
    match outcome {
        Ok(outcome) => {
            out.write_all(outcome.text.as_bytes())?;
            go_on(mode, number, outcome.allowed)
        }
        Err(LineFault::Bad) => Err(Stop::Line(number)),
        Err(LineFault::NoMemory) => Err(Stop::Memory),
    }
}

/// Writes what a line comes to.
fn put_line<W: Write>(
    alloc: Global,
    mode: Mode,
    out: &mut W,
    replay: &mut Replay,
    number: u64,
    line: &str,
) -> Result<(), Stop>
    ensures come { OnOk result ((text : List ℕ) × (allowed : Bool) × (done : List Event)
        × LineComes number line.now replay.old.state allowed done replay.new.state text × GoesOn mode allowed
        × Appends (W.contents out.old) (W.contents out.new) text) }
    ensures bad { (n : ℕ) → IsErrOf result (Stop.Line n)
        → (n ≡ number) × IsBad line.now replay.old.state × (W.contents out.new ≡ W.contents out.old) }
    ensures refused { (n : ℕ) → IsErrOf result (Stop.NotNow n) → (n ≡ number) × (mode ≡ Mode.Judging)
        × (text : List ℕ) × (done : List Event) × LineComes number line.now replay.old.state false done replay.new.state text
        × Appends (W.contents out.old) (W.contents out.new) text }
{
    let outcome = replay.run_line(alloc, number, line);
    put(mode, out, number, outcome)
}

/// Writes the answers of the last world, and flushes.
fn put_end<W: Write>(alloc: Global, out: &mut W, replay: &Replay) -> Result<(), Stop>
    ensures end { OnOk result (Appends (W.contents out.old) (W.contents out.new) (ended_text replay.now.state)) }
    ensures bad { (n : ℕ) → ¬ IsErrOf result (Stop.Line n) }
    ensures refused { (n : ℕ) → ¬ IsErrOf result (Stop.NotNow n) }
{
    let Ok(text) = replay.ended(alloc) else {
        return Err(Stop::Memory);
    };
    out.write_all(text.as_bytes())?;
    out.flush()?;
    Ok(())
}

/// Replays the lines of a reader: writes what each line comes to before it reads the next, at the end the answers of the last world, and
/// flushes. Where it stops at a line, what came of those before it was written, and of an event that isn't allowed that it isn't; but not
/// flushed.
#[tactic(auto, using(crate::proofs::SoFar::begun))]
pub fn replay<R, W>(alloc: Global, mode: Mode, reader: R, out: &mut W) -> Result<(), Stop>
where
    R: BufRead + Drop,
    W: Write,
    ensures come { OnOk result ((text : List ℕ) × Replays mode (R.remaining reader) text
        × Appends (W.contents out.old) (W.contents out.new) text) }
    ensures bad { (n : ℕ) → IsErrOf result (Stop.Line n) → (text : List ℕ)
        × Stops mode (R.remaining reader) (Stop.Line n) text × Appends (W.contents out.old) (W.contents out.new) text }
    ensures refused { (n : ℕ) → IsErrOf result (Stop.NotNow n) → (text : List ℕ)
        × Stops mode (R.remaining reader) (Stop.NotNow n) text × Appends (W.contents out.old) (W.contents out.new) text }
{
    let mut replay = Replay::new(alloc);
    let mut number = 0u64;
    for line in reader.lines(alloc) {
        let Ok(line) = line else {
            return Err(Stop::Read);
        };
        number = number.saturating_add(1);
        put_line(alloc, mode, out, &mut replay, number, line.as_str())?;
    }
    put_end(alloc, out, &replay)
}
