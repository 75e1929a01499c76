//! The program's work: what its words ask for, done.

ghost use Rattle.std.specs.Prelude.{◌≡◌, ◌≤◌, IfOk, None};
ghost use Rattle.iiif_answers.specs.Settings.{refusal_of};
ghost use Rattle.iiif_program.specs.Lines.{settings_in};

use crate::listed::{Lists, Named};
use crate::listening::serve;
use crate::settings::options_of;
use crate::target::answer_target;
use crate::telling::{report_telling, tell_word};
use crate::work::Work;
use clap::ArgMatches;
use clap::error::ErrorKind;
use iiif_command_line::{Options, matches, telling_in};
use iiif_io::Outlet;
use iiif_open_files::{Opens, Texts};
use iiif_services::Controls;
use iiif_start::check::check;
use iiif_start::{Stop, report_end, report_fault, warn};
use std::alloc::Global;
use std::convert::AsStr;
use std::net::{Net, TcpListener, TcpStream};
use std::rt::Clock;
use std::sync::Wait;
use std::thread::Threads;

/// The words where none are given: those for the built-in sample, whole, as hexadecimal digits.
const SAMPLE_WORDS: [&str; 8] = [
    "--base",
    "http://localhost/iiif",
    "--edge",
    "2",
    "--one",
    "/iiif/a/full/max/0/default.tif",
    "--hex",
    "a=:sample",
];

/// Answers what the words ask for. The status is 0 where it was answered, by a refusal too; 1 where it failed while running; 2
/// where a word or an image is at fault, which standard error then names, and at a check of images standard output.
pub fn program<R, S, O, E>(rt: &R, words: &[S], out: &mut O, err: &mut E) -> u8
where
    R: Opens
        + Texts
        + Controls
        + Net<Listener = TcpListener, Stream = TcpStream>
        + Threads
        + Wait
        + Clock
        + Sync
        + AllocGlobal,
    R::Handle: Send + Sync,
    S: AsStr,
    O: Outlet,
    E: Outlet + Send,
    ensures { result ≤ 2 }
{
    let alloc = rt.alloc();
    let matches = if words.is_empty() {
        matches(alloc, &SAMPLE_WORDS)
    } else {
        matches(alloc, words)
    };
    match matches {
        Ok(matches) => answer_matches(rt, alloc, &matches, out, err),
        Err(error) if error.kind() == ErrorKind::OutOfMemory => report_end(err, "run: memory", 1),
        Err(error) if error.use_stderr() => {
            // Where the words can't be written, the status says it.
            let _ = write!(err, "line: {error}");
            2
        }
        Err(text) => {
            if write!(out, "{text}").is_err() {
                return report_end(err, "run: write", 1);
            }
            0
        }
    }
}

/// Answers what the parsed words ask for.
fn answer_matches<R, O, E>(
    rt: &R,
    alloc: Global,
    matches: &ArgMatches<'_>,
    out: &mut O,
    err: &mut E,
) -> u8
where
    R: Opens
        + Texts
        + Controls
        + Net<Listener = TcpListener, Stream = TcpStream>
        + Threads
        + Wait
        + Clock
        + Sync
        + AllocGlobal,
    R::Handle: Send + Sync,
    O: Outlet,
    E: Outlet + Send,
    ensures { result ≤ 2 }
{
    match telling_in(matches) {
        Ok(None) => {}
        Ok(Some(telling)) => return tell_word(rt, alloc, telling, out, err),
        Err(fault) => return report_telling(err, fault),
    }
    let lists = Lists::read(rt, alloc, matches);
    let manifest = lists.manifest(alloc);
    let options = match options_of(alloc, matches, lists.listed(matches, &manifest)) {
        Ok(options) => options,
        Err(fault) => return report_fault(err, fault, &lists.origins(matches)),
    };
    let named = Named {
        matches,
        lists: &lists,
    };
    match answer(rt, alloc, &options, named, out, err) {
        Ok(status) => status,
        Err(stop) => stop.report(err),
    }
}

/// Answers what the options ask for, and warns of what clients can't ask for. Of work that fails, its own line comes alone.
fn answer<'a, R, O, E>(
    rt: &R,
    alloc: Global,
    options: &Options<'a>,
    named: Named<'_, '_>,
    out: &mut O,
    err: &mut E,
) -> Result<u8, Stop<'a>>
where
    R: Opens + Texts + Controls,
    R: Net<Listener = TcpListener, Stream = TcpStream> + Threads + Wait + Clock + Sync,
    R: AllocGlobal,
    R::Handle: Send + Sync,
    O: Outlet,
    E: Outlet + Send,
    requires { refusal_of (settings_in options.now) ≡ None }
    ensures { IfOk result (λ status. status ≤ 2) }
{
    match Work::from_options(options) {
        Some(Work::Listen(listening)) => return serve(rt, alloc, options, &listening, named, err),
        Some(Work::One(one)) => answer_target(rt, alloc, options, &one, out, err)?,
        // A check goes on where an image is at fault, and needs no node.
        None => check(rt, alloc, options, out)?,
    }
    // Where the warnings can't be written, what was asked for is still done.
    let _ = warn(err, options.base, &options.images);
    Ok(0)
}
