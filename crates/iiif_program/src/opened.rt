//! The answer to one target from the options on, by a node that asks no other.

ghost use Rattle.std.specs.Prelude.{◌≡◌, None};
ghost use Rattle.iiif_answers.specs.Settings.{refusal_of};
ghost use Rattle.iiif_program.specs.Alone.{AnswersOpened};
ghost use Rattle.iiif_program.specs.Lines.{settings_in};

use crate::alone::answer_alone;
use crate::keeping::open_for_one;
use crate::work::One;
use iiif_command_line::Options;
use iiif_io::Outlet;
use iiif_open_files::Opens;
use iiif_source::Source;
use iiif_start::{Stop, Stored};
use std::alloc::Global;
use std::io::Write;
use std::sync::Wait;
use std::thread::Threads;
use std::time::Clock;

/// Opens the images of the options, and writes the body of the answer to a target by a node that asks no other. Where all its images are
/// held in memory, nothing is assumed in what is said of the answer; and where there is a manifest, each image that is written is that of a
/// file whose SHA-256 is the one that is listed of its path, whatever the disk gave.
#[tactic(auto, using(crate::proofs::AloneLemmas::opened_answer, crate::proofs::AloneLemmas::never_begun))]
pub fn answer_opened<'a, R, O, E>(
    rt: &R,
    alloc: Global,
    options: &Options<'a>,
    one: &One<'_>,
    out: &mut O,
    err: &mut E,
) -> Result<(), Stop<'a>>
where
    R: Opens + Threads + Wait + Clock + Sync,
    R::Handle: Send + Sync,
    O: Outlet,
    E: Write,
    requires { refusal_of (settings_in options.now) ≡ None }
    ensures opened { AnswersOpened ⟦<Stored<R> as Source<R>>⟧.bytes R.holds R.keeps options.now one.now.target.now
        ((before : O) × O.fails before out.new) (O.contents out.old) (O.contents out.new) result }
{
    let made = open_for_one(rt, alloc, options, one, err)?;
    answer_alone(rt, alloc, made, one.target, out)
}
