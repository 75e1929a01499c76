//! Steps of a record, and lines of the machine's nodes.

ghost use Rattle.iiif_records.specs.declared.steps.Verdict.{Verdict};
ghost use Rattle.std.specs.Prelude.{◌⊎◌, length, ◌≡◌, ◌++◌, ◌∷◌, [], IfOk, OnOk, true, false};
ghost use Rattle.iiif_records.specs.Records.{behind_space, is_numbered, lacks_steps, machine_lines, mark_of, marked, node_steps};
ghost use Rattle.iiif_records.specs.Records.{one_lacks_steps, run_steps, step_of, steps, unmarked, Stands};

use std::alloc::{AllocError, Global};

/// Adds what stands behind the mark of a line, where the line has it, and a line feed.
fn push_unmarked(out: &mut Vec<u8>, mark: &[u8], line: &[u8]) -> Result<(), AllocError>
    ensures { OnOk result (out.new.items ≡ out.old.items ++ unmarked mark.now line.now) }
{
    match line.strip_prefix(mark) {
        Some(rest) => {
            out.extend_from_slice(rest)?;
            out.push(b'\n')?;
            Ok(())
        }
        None => Ok(()),
    }
}

/// Adds what stands behind the first space of a line.
fn push_behind_space(out: &mut Vec<u8>, line: &[u8]) -> Result<(), AllocError>
    ensures { OnOk result (out.new.items ≡ out.old.items ++ behind_space line.now) }
{
    let mut is_behind = false;
    for byte in line {
        if is_behind {
            out.push(*byte)?;
        } else if *byte == b' ' {
            is_behind = true;
        }
    }
    Ok(())
}

/// Whether a line begins with a digit.
fn is_numbered(line: &[u8]) -> bool
    ensures { result ≡ is_numbered line.now }
{
    match line.first() {
        Some(byte) => b'/' < *byte && *byte < b':',
        None => false,
    }
}

/// Adds the step of a line of a record, and a line feed; nothing, where the line has none.
fn push_step(out: &mut Vec<u8>, line: &[u8]) -> Result<(), AllocError>
    ensures { OnOk result (out.new.items ≡ out.old.items ++ step_of line.now) }
{
    if !is_numbered(line) {
        return Ok(());
    }
    push_behind_space(out, line)?;
    out.push(b'\n')?;
    Ok(())
}

/// Adds the steps of a record.
fn push_steps(alloc: Global, out: &mut Vec<u8>, text: &[u8]) -> Result<(), AllocError>
    ensures { OnOk result (out.new.items ≡ out.old.items ++ steps text.now) }
{
    let mut line = Vec::new(alloc);
    for byte in text {
        if *byte == b'\n' {
            push_step(out, &line)?;
            line.clear();
        } else {
            line.push(*byte)?;
        }
    }
    Ok(())
}

/// Adds the steps of a node that left this record of a run, and was stopped. Returns whether the record has no step.
fn push_run(alloc: Global, out: &mut Vec<u8>, text: &[u8]) -> Result<bool, AllocError>
    ensures steps { OnOk result (out.new.items ≡ out.old.items ++ run_steps text.now) }
    ensures lacks { IfOk result (λ lacks. lacks ≡ lacks_steps text.now) }
{
    let mut all = Vec::new(alloc);
    push_steps(alloc, &mut all, text)?;
    out.extend_from_slice(&all)?;
    out.extend_from_slice(b"stopped\n")?;
    Ok(all.is_empty())
}

/// Adds the steps of a node that left these records, one of each run. Returns whether one of them has no step.
fn push_runs(alloc: Global, out: &mut Vec<u8>, runs: &[Vec<u8>]) -> Result<bool, AllocError>
    ensures steps { OnOk result (out.new.items ≡ out.old.items ++ node_steps runs.now) }
    ensures lacks { IfOk result (λ lacks. lacks ≡ one_lacks_steps runs.now) }
{
    let mut lacks = false;
    for run in runs {
        let is_bare = push_run(alloc, out, run)?;
        lacks = lacks || is_bare;
    }
    Ok(lacks)
}

/// Adds what stands behind the mark in the lines of a text that begin with it, each with its line feed.
fn push_marked(alloc: Global, out: &mut Vec<u8>, mark: &[u8], text: &[u8]) -> Result<(), AllocError>
    ensures { OnOk result (out.new.items ≡ out.old.items ++ marked mark.now text.now) }
{
    let mut line = Vec::new(alloc);
    for byte in text {
        if *byte == b'\n' {
            push_unmarked(out, mark, &line)?;
            line.clear();
        } else {
            line.push(*byte)?;
        }
    }
    Ok(())
}

/// The lines that a node of the machine writes, of all that is written in a replay.
fn machine_lines(alloc: Global, node: u64, replayed: &[u8]) -> Result<Vec<u8>, AllocError>
    ensures { IfOk result (λ v. v.items ≡ machine_lines node replayed.now) }
{
    let mark = format!(in alloc; "> {node} ")?;
    let mut out = Vec::new(alloc);
    push_marked(alloc, &mut out, mark.as_bytes(), replayed)?;
    Ok(out)
}

/// Whether two texts are the same.
fn is_same(left: &[u8], right: &[u8]) -> bool
    ensures yes { result ≡ true → left.now ≡ right.now }
    ensures no { result ≡ false → ¬ (left.now ≡ right.now) }
{
    left == right
}

/// Verdict on the records of a node, beside a replay.
#[derive(Clone, Copy, Debug, PartialEq, Eq)]
pub enum Verdict {
    /// The machine's node writes these steps, and no others.
    Stands,
    /// It writes others.
    Differs,
    /// There is no record, or one without a step.
    Empty,
}

/// Returns whether a node left these records, one of each run, in the run of the machine of which all this was written.
pub fn judge(
    alloc: Global,
    node: u64,
    replayed: &[u8],
    runs: &[Vec<u8>],
) -> Result<Verdict, AllocError>
    ensures stands { IfOk result (λ v. v ≡ Verdict.Stands → Stands node replayed.now runs.now) }
    ensures differs { IfOk result (λ v. v ≡ Verdict.Differs → ¬ (machine_lines node replayed.now ≡ node_steps runs.now)) }
    ensures empty { IfOk result (λ v. v ≡ Verdict.Empty → (one_lacks_steps runs.now ≡ true) ⊎ (length runs.now ≡ 0)) }
{
    let machine = machine_lines(alloc, node, replayed)?;
    let mut steps = Vec::new(alloc);
    let lacks = push_runs(alloc, &mut steps, runs)?;
    if lacks || runs.is_empty() {
        return Ok(Verdict::Empty);
    }
    if is_same(&machine, &steps) {
        Ok(Verdict::Stands)
    } else {
        Ok(Verdict::Differs)
    }
}
