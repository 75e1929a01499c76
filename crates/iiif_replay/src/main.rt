//! Replays lists of events: reads worlds and events from a text, and writes what came of each event, and the answers. Records of nodes are
//! compared with what the nodes of the list's world write.
#![tactic(auto)]

use iiif_event_list::{Mode, Stop, replay};
use iiif_records::{Verdict, judge};
use std::alloc::{AllocError, Global};
use std::env::Args;
use std::io::{BufReader, BufWriter, Read, Write};
use std::process::ExitCode;
use std::rt::Files;
use std::{env, fs, io};

/// Why the program ends early.
#[derive(Clone, Copy)]
enum End {
    Stop(Stop),
    /// The words aren't those of a replay.
    Words,
    /// The records of the node of this number are none of the list's world.
    Record(u64, Verdict),
}

impl From<Stop> for End {
    fn from(stop: Stop) -> End {
        End::Stop(stop)
    }
}

impl From<io::Error> for End {
    fn from(error: io::Error) -> End {
        End::Stop(Stop::from(error))
    }
}

/// Records of a node, one of each run.
#[derive(Drop)]
struct NodeRecords {
    node: u64,
    runs: Vec<Vec<u8>>,
}

/// All bytes of a file.
fn read_file(rt: &HostRuntime, path: &str) -> Result<Vec<u8>, End> {
    let mut bytes = Vec::new(rt.alloc());
    let Ok(mut file) = fs::open(rt, path) else {
        return Err(End::Stop(Stop::Read));
    };
    match file.read_to_end(&mut bytes) {
        Ok(_) => Ok(bytes),
        Err(_) => Err(End::Stop(Stop::Read)),
    }
}

/// Adds the record of a run of a node, behind those of the same node.
fn add_run(
    alloc: Global,
    all: &mut Vec<NodeRecords>,
    node: u64,
    run: Vec<u8>,
) -> Result<(), AllocError> {
    for records in all.iter_mut() {
        if records.node == node {
            records.runs.push(run)?;
            return Ok(());
        }
    }
    let mut runs = Vec::new(alloc);
    runs.push(run)?;
    all.push(NodeRecords { node, runs })?;
    Ok(())
}

/// The records that the words name: a node's number and a file, one behind another.
fn read_records(rt: &HostRuntime, words: Args) -> Result<Vec<NodeRecords>, End> {
    let mut all = Vec::new(rt.alloc());
    let mut of: Option<u64> = None;
    for word in words {
        match of {
            Some(node) => {
                let run = read_file(rt, word.as_str())?;
                if add_run(rt.alloc(), &mut all, node, run).is_err() {
                    return Err(End::Stop(Stop::Memory));
                }
                of = None;
            }
            None => {
                let Ok(node) = word.as_str().parse::<u64>() else {
                    return Err(End::Words);
                };
                of = Some(node);
            }
        }
    }
    if of.is_some() || all.is_empty() {
        return Err(End::Words);
    }
    Ok(all)
}

/// Replays a list, writes what came of it, and compares the records with that.
fn judge_records<W: Write>(
    rt: &HostRuntime,
    path: &str,
    all: &[NodeRecords],
    out: &mut W,
) -> Result<(), End> {
    let alloc = rt.alloc();
    let list = read_file(rt, path)?;
    let mut written = Vec::new(alloc);
    let came = replay(alloc, Mode::Judging, list.as_slice(), &mut written);
    out.write_all(&written)?;
    came?;
    for records in all {
        let runs = records.runs.as_slice();
        let Ok(verdict) = judge(alloc, records.node, &written, runs) else {
            return Err(End::Stop(Stop::Memory));
        };
        if verdict != Verdict::Stands {
            return Err(End::Record(records.node, verdict));
        }
    }
    Ok(())
}

/// Replays the lists of a file, or of standard input.
fn replay_file<W: Write>(
    rt: &HostRuntime,
    mode: Mode,
    path: Option<&str>,
    out: &mut W,
) -> Result<(), End> {
    let alloc = rt.alloc();
    match path {
        Some(path) => {
            let Ok(file) = fs::open(rt, path) else {
                return Err(End::Stop(Stop::Read));
            };
            replay(alloc, mode, BufReader::new(alloc, file)?, out)?;
        }
        None => replay(alloc, mode, BufReader::new(alloc, rt.reader())?, out)?,
    }
    Ok(())
}

/// Does what the words ask for: `--records`, a list, and a node's number and a record one behind another; or perhaps `--go-on`, and perhaps
/// a list.
fn obey<W: Write>(rt: &HostRuntime, out: &mut W) -> Result<(), End> {
    let mut words = env::args(rt)?;
    let _program = words.next();
    match words.next() {
        Some(word) if word.as_str() == "--records" => {
            let Some(path) = words.next() else {
                return Err(End::Words);
            };
            let all = read_records(rt, words)?;
            judge_records(rt, path.as_str(), &all, out)
        }
        Some(word) if word.as_str() == "--go-on" => match words.next() {
            Some(path) => replay_file(rt, Mode::Exploring, Some(path.as_str()), out),
            None => replay_file(rt, Mode::Exploring, None, out),
        },
        Some(path) => replay_file(rt, Mode::Judging, Some(path.as_str()), out),
        None => replay_file(rt, Mode::Judging, None, out),
    }
}

/// Does what the words ask for, and shows what was written before it stopped.
fn run(rt: &HostRuntime) -> Result<(), End> {
    let mut out = BufWriter::new(rt.alloc(), io::writer(rt))?;
    let came = obey(rt, &mut out);
    out.flush()?;
    came
}

/// Replays as the words ask for. The status is 0 where all was replayed, and records stand in it; 2 where a line is no setting and no
/// event, or the words are wrong; 3 where an event isn't allowed; 4 where records don't stand in the replay; and else 1.
fn main(rt: HostRuntime) -> ExitCode {
    let mut err = rt.stderr();
    let Err(end) = run(&rt) else {
        return ExitCode::from(0);
    };
    // Where the words can't be written, the status says it.
    let _ = match end {
        End::Stop(stop) => writeln!(err, "{stop}"),
        End::Words => writeln!(err, "words"),
        End::Record(node, Verdict::Empty) => writeln!(err, "node {node}: no step is recorded"),
        End::Record(node, _) => writeln!(err, "node {node}: it has other steps than its record"),
    };
    match end {
        End::Stop(Stop::Line(_)) | End::Words => ExitCode::from(2),
        End::Stop(Stop::NotNow(_)) => ExitCode::from(3),
        End::Record(_, _) => ExitCode::from(4),
        End::Stop(Stop::Memory) | End::Stop(Stop::Read) | End::Stop(Stop::Write) => {
            ExitCode::from(1)
        }
    }
}
