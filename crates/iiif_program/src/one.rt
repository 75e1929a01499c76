//! The answer to one target.

ghost use Rattle.std.specs.Prelude.{◌≡◌, ℕ, List, true};
ghost use Rattle.std.specs.Io.KnownBytes.{Appends};
ghost use Rattle.iiif_connections.specs.Held.{AllHeld};
ghost use Rattle.iiif_program.specs.Alone.{IsAnswerOfHeld};
ghost use Rattle.iiif_start.specs.Stored.{bytes_of};

use crate::hex::write_hex;
use iiif_connections::passes::TakenPasses;
use iiif_connections::{Cause, Gate, Links, Node};
use iiif_io::Outlet;
use iiif_keys::{Fault, System};
use iiif_open_files::Opens;
use iiif_start::{Stop, Stored};
use std::alloc::Global;
use std::sync::Wait;
use std::thread::Threads;
use std::time::Clock;

/// Returns why an answer that was cut off ends the program.
fn stop_by<'a>(cause: Cause) -> Stop<'a> {
    match cause {
        Cause::Writer => Stop::Write,
        Cause::Load(Fault::NoMemory) => Stop::Memory,
        Cause::Load(_) => Stop::Source,
    }
}

/// Writes the body of the answer to a target. Nothing of it is assumed where the node holds all its images in memory and asks no other.
pub(crate) fn answer_one<'a, R, O, J, N, T>(
    rt: &R,
    alloc: Global,
    node: &Node<R, Stored<R>, J, N, T>,
    workers: u32,
    target: &str,
    out: &mut O,
) -> Result<(), Stop<'a>>
where
    R: Opens + Threads + Wait + Clock + Sync,
    R::Handle: Send + Sync,
    O: Outlet,
    J: System + Send + Sync,
    N: Links<J, R> + Sync,
    T: Gate<R> + Sync,
    ensures held { AllHeld node.now.items → J.honest ≡ true → (text : List ℕ) × Appends (O.contents out.old) (O.contents out.new) text
        × IsAnswerOfHeld (bytes_of R.holds) node.now.settings node.now.items target.now ((before : O) × O.fails before out.new) text
        result }
{
    let Some(mut passes) = TakenPasses::take(rt, alloc, node, workers) else {
        return Err(Stop::Memory);
    };
    let sent = node.body_one(rt, alloc, passes.lend(), target.as_bytes(), out);
    passes.give_back(rt, node);
    match sent {
        Ok(_) => Ok(()),
        Err(cut) => Err(stop_by(cut.cause)),
    }
}

/// Writes the body of the answer to a target as hexadecimal digits.
pub(crate) fn answer_in_hex<'a, R, O, J, N, T>(
    rt: &R,
    alloc: Global,
    node: &Node<R, Stored<R>, J, N, T>,
    workers: u32,
    target: &str,
    out: &mut O,
) -> Result<(), Stop<'a>>
where
    R: Opens + Threads + Wait + Clock + Sync,
    R::Handle: Send + Sync,
    O: Outlet,
    J: System + Send + Sync,
    N: Links<J, R> + Sync,
    T: Gate<R> + Sync,
{
    let mut body = Vec::new(alloc);
    let answered = answer_one(rt, alloc, node, workers, target, &mut body);
    write_in_hex(answered, &body, out)
}

/// Writes a body as hexadecimal digits, where its answer wasn't cut off. In memory the writer fails for want of it alone.
pub(crate) fn write_in_hex<'a, O: Outlet>(
    answered: Result<(), Stop<'a>>,
    body: &[u8],
    out: &mut O,
) -> Result<(), Stop<'a>> {
    match answered {
        Ok(()) => {}
        Err(Stop::Write) => return Err(Stop::Memory),
        Err(stop) => return Err(stop),
    }
    match write_hex(out, body) {
        Ok(()) => Ok(()),
        Err(_) => Err(Stop::Write),
    }
}
