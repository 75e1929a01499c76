//! The program: an IIIF image server over TIFF files.
//!
//! # How it is run
//!
//! - `iiif_serve --base URL --listen ADDR [OPTION].. NAME=FILE..` serves HTTP until it is stopped.
//! - `iiif_serve --base URL --one TARGET [OPTION].. NAME=FILE..` writes the body of one answer to standard output and ends.
//! - `iiif_serve --base URL --check [OPTION].. NAME=FILE..` says of each image what it is and ends.
//! - `iiif_serve --tell PATH WORD` tells a server that runs with `--control PATH` to give its status, drain, reload or stop.
//! - With no words at all it writes the image of a built-in picture, 4 by 4 samples, as hexadecimal digits.
//!
//! The manual page (`packaging/iiif_serve.1`) has all options, `docs/operate/OPERATING.md` what an operator needs besides.
//!
//! # Exit status
//!
//! - 0: it was answered, by a refusal too, or each image that was checked can be served. A server that was told to end answered all calls.
//! - 1: it failed while running. Standard error says `run: listen`, `run: memory`, `run: write`, `run: source`, `run: record`,
//!   `run: cut` or `run: tell`.
//! - 2: a word or an image is at fault. Standard error says which (`line: base`, `image scan: 4`), and in a second line what to do.
//!
//! # What it writes
//!
//! - Standard output: the body, the digits, or a line for each image that was checked; while it serves, nothing.
//! - Standard error: what is at fault and, while it serves with `--log`, a line for each answer.
//!
//! An answer is a file or a text as a whole, so it may go to a file or a pipe as it is. Where standard output can't take it, the
//! status is 1, whatever was written before.
//!
//! # What is done where
//!
//! Here stands no more than a program alone can do: it takes the words, the two outputs and the process's exit status.
//!
//! 1. `iiif_command_line` has the words, and what of them is refused.
//! 2. `iiif_start` opens the images that they name: a layout of each file, as many open files as the words allow, and the files that
//!    are held in memory.
//! 3. `iiif_program` makes the node of them, with its limits and its caches, and does what the words ask for.
//! 4. `iiif_services` listens, and hears what the server is told; `iiif_listener` starts a thread for each connection of the generation
//!    that serves, and `iiif_connections` serves it. `iiif_recorder` writes the steps of its caches, where they are recorded.
//! 5. `iiif_server` answers a connection's calls in order: `iiif_http_front` reads their heads, `iiif_request` and `iiif_canonical` read
//!    what they ask for, `iiif_answers` has the texts of refusals, redirects and information.
//! 6. `iiif_delivery` sends an image in bands. `iiif_planner` says which tiles and sums the image needs, and cuts it into bands;
//!    `iiif_tile_group` and `iiif_sum_group` have them in caches with shared flights (`iiif_group`, `iiif_singleflight`), and ask the node
//!    that owns them. `iiif_group_items` lends them to `iiif_assemble`, which makes the band's rows.
//! 7. `iiif_tile_group` finds a name's image, `iiif_open_files` its file; `iiif_tiff_read` reads a tile's samples from it, and
//!    `iiif_tiff_write` makes the file that is answered.
//!
//! # What is proved of it
//!
//! Of an image that is answered whole: that it is region, then size, then rotation, then quality applied to the whole picture that its
//! source shows. Where all images are held in memory (`--hold`) and no other node is asked, nothing is assumed in this: it is a clause of
//! `answer_alone` in `iiif_program`, which answers `--one`, and of `Viewers::serve_over` in `iiif_connections`, which answers a connection.
//! Their sources are then the bytes that one read of each file gave at the start. Of a file that is read when it is asked for, it is proved
//! for each runtime whose files keep their bytes; that the system is one can't be proved. Of other nodes it is assumed that they are
//! honest. `docs/theorem/PROMISES.md` names the clauses. Of `main` itself: that it ends, or serves on, without a fault of memory, and
//! that its status is one of the three.
#![tactic(auto)]

use iiif_program::program::program;
use iiif_program::stop::report_end;
use std::alloc::Global;
use std::io::ErrorKind;
use std::process::ExitCode;

/// How much memory is taken and given back at the start.
const GIVEN_BACK: usize = 4 << 20;

/// The lines where a word isn't UTF-8: the second one says what to do.
const NOT_UTF8: &str = "line: not UTF-8\neach word has to be UTF-8: rename a file whose name isn't";

/// Lets the C library's allocator keep what is given back, up to twice the size of the largest piece that was: from then on the
/// memory of one tile serves for the next, where it would else go back to the system each time, and come back page by page. glibc's does so
/// at the first piece that was mapped by itself and is given back. Where `GLIBC_TUNABLES` say how much it keeps, this changes nothing.
fn keep_memory(alloc: Global) {
    let _ = Vec::<u8>::with_capacity(alloc, GIVEN_BACK);
}

/// Gives the words of the command line to the program.
fn main(rt: HostRuntime) -> ExitCode {
    let mut err = rt.stderr();
    let args = match std::env::args(&rt) {
        Ok(args) => args,
        Err(error) if error.kind() == ErrorKind::OutOfMemory => {
            return ExitCode::from(report_end(&mut err, "run: memory", 1));
        }
        Err(_) => return ExitCode::from(report_end(&mut err, NOT_UTF8, 2)),
    };
    let Ok(words) = args.skip(1).collect::<Vec<String>>(rt.alloc()) else {
        return ExitCode::from(report_end(&mut err, "run: memory", 1));
    };
    keep_memory(rt.alloc());
    let mut out = rt.stdout();
    ExitCode::from(program(&rt, words.as_slice(), &mut out, &mut err))
}
