//! The command line.

ghost use Rattle.std.specs.Prelude.{◌≡◌, ◌<◌, ◌≤◌, ◌^◌, IfOk, IfSome};

use clap::{Arg, ArgAction, ArgMatches, Command};
use iiif_fixity::{Bag, ManifestFault};
use iiif_image_list::{Fault, FolderFault, FolderImage, ImageList, ListFault};
use iiif_request::numerals::numeral;
use std::alloc::Global;
use std::convert::AsStr;
use std::num::NonZeroUsize;
use thiserror::Error;

/// The edge of a tile where none is given, in pixels, and the most that may be.
const EDGE: u64 = 256;

const MOST_EDGE: u64 = 1024;

/// The greatest side of a result where none is given, in pixels, and the most that may be.
const MAX: u64 = 4096;

const MOST_MAX: u64 = 16_384;

/// The bytes of each group's cache where none are given, and the most that may be.
const CACHE_BYTES: u64 = 67_108_864;

const MOST_CACHE_BYTES: u64 = 1 << 40;

/// The entries of each list of a cache where no number is given, and the most that may be.
const CACHE_ENTRIES: u64 = 4096;

const MOST_CACHE_ENTRIES: u64 = 1 << 24;

/// How many bytes a file that is held in memory has at most where none are given, and the most that may be.
const HOLD: u64 = 0;

const MOST_HOLD: u64 = 1 << 40;

/// The rows of a band where none are given, and the most that may be.
const BAND: u64 = 64;

const MOST_BAND: u64 = 16_384;

/// The workers of a request where none are given, and the most that may be.
const WORKERS: u64 = 2;

const MOST_WORKERS: u64 = 16;

/// The images' files that stay open where no number is given, and the most that may.
const OPEN_FILES: u64 = 256;

const MOST_OPEN_FILES: u64 = 65_536;

/// The bytes that are touched at the start where none are given, and the most that may be.
const TOUCH_BYTES: u64 = 0;

const MOST_TOUCH_BYTES: u64 = 1 << 40;

/// How long an ask of another node may take where nothing is given, in milliseconds, and the least and the most that may be.
const PEER_TIMEOUT: u64 = 1000;

const LEAST_PEER_TIMEOUT: u64 = 10;

const MOST_PEER_TIMEOUT: u64 = 60_000;

/// The least rate of an answer where none is given, in bytes a second, and the most that may be.
const MIN_RATE: u64 = 4096;

const MOST_MIN_RATE: u64 = 1 << 40;

/// How many connections one address may have at a time where no number is given, 0 for any number, and the most that may be.
const PER_ADDRESS: u64 = 0;

const MOST_PER_ADDRESS: u64 = 64;

/// How long calls at work are waited for in a drain where no number is given, in seconds, and the most that may be.
const DRAIN_SECONDS: u64 = 60;

const MOST_DRAIN_SECONDS: u64 = 3_600;

/// The bytes of a record at most where no number is given, and the most that may be.
const RECORD_BYTES: u64 = 1 << 30;

const MOST_RECORD_BYTES: u64 = 1 << 40;

/// The name of a node where none is given, and the most bytes of one.
const OWN_NAME: &str = "self";

const MOST_NAME: usize = 255;

/// The most bytes of an image's name that has room for the version of its file.
const MOST_VERSIONED_NAME: usize = 992;

/// The greatest port.
const MOST_PORT: u64 = 65_535;

/// How many other nodes a node may have beside it: a ring has at most 64 names.
const MOST_PEERS: usize = 63;

/// The options that take one text each: the name, what the text is, and the help.
static OPTIONS: [(&str, &str, &str); 25] = [
    ("base", "URL", "the URL that begins each image's"),
    ("edge", "PIXELS", "the edge of a tile, 256 if left out"),
    (
        "max",
        "PIXELS",
        "the greatest side of a result, 4096 if left out",
    ),
    (
        "cache-bytes",
        "BYTES",
        "the bytes kept of tiles, and of sums, 67108864 each if left out",
    ),
    (
        "cache-entries",
        "COUNT",
        "the most tiles, and sums, that are kept, 4096 each if left out",
    ),
    (
        "folder",
        "DIR",
        "a folder whose files NAME.tif and NAME.tiff are images, too",
    ),
    (
        "hold",
        "BYTES",
        "a file of at most so many bytes is held in memory, 0 if left out",
    ),
    (
        "manifest",
        "FILE",
        "hold a file only if it has the SHA-256 digest that this manifest lists",
    ),
    (
        "band",
        "ROWS",
        "the rows that are made and sent at once, 64 if left out",
    ),
    (
        "workers",
        "COUNT",
        "the threads that make an image, 2 if left out",
    ),
    (
        "open-files",
        "COUNT",
        "the images' files that stay open, 256 if left out",
    ),
    (
        "touch-bytes",
        "BYTES",
        "the memory that is written to before it listens, 0 if left out",
    ),
    (
        "peer-timeout",
        "MS",
        "the milliseconds that an ask of another node may take, 1000 if left out",
    ),
    (
        "min-rate",
        "BYTES",
        "the bytes a second below which an answer is cut, 4096 if left out, 0 for none",
    ),
    (
        "per-address",
        "COUNT",
        "the connections that one address may have at a time, any number if left out",
    ),
    (
        "name",
        "NAME",
        "this node's name among others, self if left out",
    ),
    ("one", "TARGET", "answer this target and end"),
    (
        "listen",
        "ADDR",
        "answer the connections that come to this address and port",
    ),
    (
        "peer-listen",
        "ADDR",
        "answer other nodes at this address and port",
    ),
    (
        "stats-listen",
        "ADDR",
        "answer GET /metrics at this address and port",
    ),
    (
        "control",
        "PATH",
        "make a socket at this path, at which the server is told what to do",
    ),
    (
        "drain-seconds",
        "SECONDS",
        "how long calls at work are waited for in a drain, 60 if left out",
    ),
    (
        "tell",
        "PATH",
        "tell the server of this socket a word: status, drain, reload or stop",
    ),
    (
        "record",
        "FILE",
        "write a line for each step of the caches to this file",
    ),
    (
        "record-bytes",
        "BYTES",
        "the most bytes of that file, 1073741824 if left out",
    ),
];

/// The options that take nothing: the name, and the help.
static FLAGS: [(&str, &str); 7] = [
    ("upscale", "answer sizes with ^ above the region's"),
    ("hex", "write the answer's bytes as hexadecimal digits"),
    ("check", "open all images, write a line for each, and end"),
    ("log", "write a line for each answer to standard error"),
    (
        "skip-unfit",
        "leave out images that can't be served, and serve the others",
    ),
    (
        "peer-only",
        "close connections of other nodes that come from no --peer's address",
    ),
    (
        "peer-versions",
        "ask other nodes for an image only where its file is theirs",
    ),
];

/// The first thing that is wrong with the words, in this order.
#[derive(Clone, Copy, Debug, PartialEq, Eq, Error)]
pub enum LineFault {
    #[error("base")]
    Base,
    #[error("edge")]
    Edge,
    #[error("max")]
    Max,
    #[error("cache")]
    Cache,
    #[error("cache-entries")]
    CacheEntries,
    #[error("hold")]
    Hold,
    #[error("band")]
    Band,
    #[error("workers")]
    Workers,
    #[error("open-files")]
    OpenFiles,
    #[error("touch")]
    Touch,
    #[error("peer-timeout")]
    PeerTimeout,
    #[error("min-rate")]
    MinRate,
    #[error("per-address")]
    PerAddress,
    #[error("drain-seconds")]
    DrainSeconds,
    #[error("image")]
    Image,
    /// The file of the list of images can't be read.
    #[error("image")]
    Unread,
    /// A line of the list of images is at fault.
    #[error("image")]
    List(ListFault),
    /// The folder of images can't be read.
    #[error("image")]
    UnreadFolder,
    /// A file of the folder of images has a name that isn't UTF-8.
    #[error("image")]
    FolderEncoding,
    /// A file of the folder of images is at fault.
    #[error("image")]
    Folder(FolderFault),
    /// An image's name has no room for the version of its file.
    #[error("image")]
    LongName,
    /// The manifest can't be read.
    #[error("manifest")]
    UnreadManifest,
    /// A line of the manifest is at fault.
    #[error("manifest")]
    Manifest(ManifestFault),
    /// There is a manifest, no file is held, and no image is checked.
    #[error("manifest")]
    ManifestAlone,
    #[error("peer")]
    Peer,
    /// A record's bytes are wrong, or it is none of a server's.
    #[error("record")]
    Record,
    #[error("mode")]
    Mode,
    /// A server that runs is to be told something, which is no order, or another option stands beside it.
    #[error("tell")]
    Tell,
    #[error("memory")]
    NoMemory,
}

/// How the program is run: for one target, whose answer it writes, perhaps as hexadecimal digits; or for the connections that
/// come to an address, perhaps with those of other nodes that come to another one; or to open all images, and say what they are.
#[derive(Clone, Copy, PartialEq, Eq)]
pub enum Mode<'a> {
    One {
        target: &'a str,
        hex: bool,
        /// Whether the words say how many bytes a cache keeps. Else it keeps no more than this one answer asks for twice.
        cache_given: bool,
    },
    Listen {
        viewers: &'a str,
        peers: Option<&'a str>,
        /// Whether a line is written for each answer.
        log: bool,
        /// Where the numbers are asked for.
        stats: Option<&'a str>,
        /// Whether connections of other nodes are closed that come from no other node's address.
        peer_only: bool,
        /// The path of the socket at which the server is told what to do.
        control: Option<&'a str>,
        /// The file of the record of its steps, and the most bytes that it gets.
        record: Option<(&'a str, u64)>,
    },
    Check,
}

/// A word for a server that runs, and the path of its socket.
#[derive(Clone, Copy, PartialEq, Eq)]
pub struct Telling<'a> {
    pub path: &'a str,
    pub word: &'a str,
}

/// Texts of files that the words name: of the list of images, the images of the folder, and the manifest, if there is one.
#[derive(Clone, Copy)]
pub struct Listed<'t> {
    pub list: &'t [u8],
    pub folder: &'t [FolderImage],
    pub bag: Option<Bag<'t>>,
}

/// Limits of those whom a node serves and asks.
#[derive(Clone, Copy, PartialEq, Eq)]
pub struct Limits {
    /// How long an ask of another node may take as a whole, in milliseconds, from 10 to 60,000.
    pub peer_timeout: u32,
    /// The bytes a second below which an answer is cut, or 0 for none.
    pub min_rate: u64,
    /// How many connections of one address a listener has at a time, or 0 for any number.
    pub per_address: usize,
    /// How long calls at work are waited for in a drain, in seconds, up to 3,600.
    pub drain_seconds: u64,
}

/// The options of the words.
#[derive(Drop)]
pub struct Options<'a> {
    pub base: &'a str,
    pub edge: u32,
    pub max: u32,
    pub upscale: bool,
    /// The bytes of each group's cache.
    pub cache_bytes: u64,
    /// The most entries of each of its two lists.
    pub cache_entries: NonZeroUsize,
    /// The bytes of an image's file up to which it is held in memory.
    pub hold: u64,
    /// The manifest that lists the digests of files that are held, if there is one.
    pub bag: Option<Bag<'a>>,
    /// The rows of a band.
    pub band: u32,
    /// The workers of a request.
    pub workers: u32,
    /// How many of the images' files stay open.
    pub open_files: NonZeroUsize,
    /// How much memory is written to before the program listens, in bytes.
    pub touch_bytes: u64,
    pub limits: Limits,
    /// Each image's name and file: those of the words, behind them those of the list, and then those of the folder.
    pub images: Vec<(&'a str, &'a str)>,
    /// Whether images that can't be served are left out, and the others are served.
    pub skip_unfit: bool,
    /// This node's name, and each other node's name and address.
    pub name: &'a str,
    pub peers: Vec<(&'a str, &'a str)>,
    /// Whether the version of an image's file is told to other nodes that are asked, and compared where they ask.
    pub peer_versions: bool,
    pub mode: Mode<'a>,
    pub ghost within: { cache_bytes < 2 ^ 63 },
    pub ghost sides: { (1 ≤ edge) × (edge ≤ 1024) × (edge ≤ max) × (max ≤ 16384) },
    pub ghost shares: { (1 ≤ band) × (band ≤ 16384) × (1 ≤ workers) × (workers ≤ 16) },
}

/// Makes an option that takes one text.
fn text_option<'a>(alloc: Global, name: &'a str, value: &'a str, help: &'a str) -> Arg<'a> {
    let option = Arg::new(alloc, name).long(name).action(ArgAction::Set);
    option.value_name(value).help(help)
}

/// Makes an option that takes nothing.
fn flag<'a>(alloc: Global, name: &'a str, help: &'a str) -> Arg<'a> {
    let option = Arg::new(alloc, name).long(name);
    option.action(ArgAction::SetTrue).help(help)
}

/// Makes the option of the list of images.
fn list_option<'a>(alloc: Global) -> Arg<'a> {
    Arg::new(alloc, "list")
        .long("images")
        .action(ArgAction::Set)
        .value_name("FILE")
        .help("a text with a line NAME=FILE for each of further images")
}

/// Makes the option of other nodes.
fn peer_option<'a>(alloc: Global) -> Arg<'a> {
    Arg::new(alloc, "peer")
        .long("peer")
        .action(ArgAction::Append)
        .value_name("NAME=ADDR")
        .help("another node's name, and the address and port where it answers nodes")
}

/// Makes the words that are no option.
fn image_words<'a>(alloc: Global) -> Arg<'a> {
    Arg::new(alloc, "images")
        .num_args(0..)
        .value_name("NAME=FILE")
        .help("an image's name and its TIFF file, or :sample")
}

/// Makes the command without options.
fn bare_command<'a>(alloc: Global) -> Command<'a> {
    Command::new(alloc, "iiif_serve")
        .version("1.0.0")
        .about("Answers requests of the IIIF Image API 3.0 from uncompressed TIFF files")
        .no_binary_name(true)
}

/// Makes the command with the options that take one text each.
fn command_of_texts<'a>(alloc: Global) -> Result<Command<'a>, clap::Error> {
    let mut command = bare_command(alloc);
    for (name, value, help) in OPTIONS.iter() {
        command = command.arg(text_option(alloc, *name, *value, *help))?;
    }
    Ok(command)
}

/// Makes the command of all options: those that take a text, and those that take nothing.
fn command_of_flags<'a>(alloc: Global) -> Result<Command<'a>, clap::Error> {
    let mut command = command_of_texts(alloc)?;
    for (name, help) in FLAGS.iter() {
        command = command.arg(flag(alloc, *name, *help))?;
    }
    Ok(command)
}

/// Makes the command with its options.
fn command<'a>(alloc: Global) -> Result<Command<'a>, clap::Error> {
    let command = command_of_flags(alloc)?;
    let command = command.arg(list_option(alloc))?;
    let command = command.arg(peer_option(alloc))?;
    Ok(command.arg(image_words(alloc))?)
}

/// Parses the words.
pub fn matches<'a, S: AsStr>(alloc: Global, words: &'a [S]) -> Result<ArgMatches<'a>, clap::Error> {
    command(alloc)?.try_get_matches_from(words)
}

/// Reads a whole number of up to thirteen digits, from 1 to a greatest one.
fn number(text: Option<&str>, default: u64, most: u64) -> Option<u32>
    ensures { IfSome result (λ n. (1 ≤ n) × (n ≤ most)) }
{
    let value = match text {
        Some(text) => numeral(text.as_bytes(), 13)?,
        None => default,
    };
    if value < 1 || value > most {
        return None;
    }
    u32::try_from(value).ok()
}

/// Reads the edge and the greatest side. An edge is compared with the greatest side only where that is a number within its limits.
fn sides(edge: Option<&str>, max: Option<&str>) -> Result<(u32, u32), LineFault>
    ensures { IfOk result (λ s. (1 ≤ s.0) × (s.0 ≤ 1024) × (s.0 ≤ s.1) × (s.1 ≤ 16384)) }
{
    let max = number(max, MAX, MOST_MAX);
    let Some(edge) = number(edge, EDGE, MOST_EDGE) else {
        return Err(LineFault::Edge);
    };
    match max {
        Some(max) if edge > max => Err(LineFault::Edge),
        Some(max) => Ok((edge, max)),
        None => Err(LineFault::Max),
    }
}

/// Reads a number of bytes: a whole number of up to thirteen digits, within its limit.
fn bytes(text: Option<&str>, default: u64, most: u64) -> Option<u64>
    ensures { IfSome result (λ n. n ≤ most) }
{
    let value = match text {
        Some(text) => numeral(text.as_bytes(), 13)?,
        None => default,
    };
    if value > most {
        return None;
    }
    Some(value)
}

/// Reads how many there are at most of something: a whole number from 1 to a greatest one.
fn most(text: Option<&str>, default: u64, greatest: u64) -> Option<NonZeroUsize> {
    NonZeroUsize::new(number(text, default, greatest)? as usize)
}

/// Returns the names and files of the images of the words, of the list behind them, and of the folder behind that: at least one, each name
/// of its own and within its limit.
fn images<'t, 'a: 't>(
    alloc: Global,
    words: &[&'a str],
    listed: Listed<'t>,
) -> Result<Vec<(&'t str, &'t str)>, LineFault> {
    let mut list = ImageList::new(alloc);
    for word in words {
        match list.add(*word) {
            Ok(()) => {}
            Err(Fault::NoMemory) => return Err(LineFault::NoMemory),
            Err(_) => return Err(LineFault::Image),
        }
    }
    match list.add_text(listed.list) {
        Ok(()) => {}
        Err(
            ListFault {
                fault: Fault::NoMemory,
                ..
            },
        ) => return Err(LineFault::NoMemory),
        Err(fault) => return Err(LineFault::List(fault)),
    }
    match list.add_files(listed.folder) {
        Ok(()) => {}
        Err(
            FolderFault {
                fault: Fault::NoMemory,
                ..
            },
        ) => return Err(LineFault::NoMemory),
        Err(fault) => return Err(LineFault::Folder(fault)),
    }
    match list.into_pairs(alloc) {
        Ok(images) if images.is_empty() => Err(LineFault::Image),
        Ok(images) => Ok(images),
        Err(_) => Err(LineFault::NoMemory),
    }
}

/// Returns the images as they are, once each name has room for the version of its file, where `are_versioned` asks for that.
fn with_room<'t>(
    images: Vec<(&'t str, &'t str)>,
    are_versioned: bool,
) -> Result<Vec<(&'t str, &'t str)>, LineFault> {
    let is_long = |image: &(&str, &str)| image.0.len() > MOST_VERSIONED_NAME;
    if are_versioned && images.iter().any(is_long) {
        return Err(LineFault::LongName);
    }
    Ok(images)
}

/// Returns whether a text may name a node.
fn is_node_name(text: &str) -> bool {
    !text.is_empty() && text.len() <= MOST_NAME
}

/// Returns whether a text ends in `:` and a port of 1 to 65,535. What stands before them is for the system to find.
fn has_port(address: &str) -> bool {
    let Some((_, port)) = address.rsplit_once(':') else {
        return false;
    };
    match numeral(port.as_bytes(), 5) {
        Some(port) => port >= 1 && port <= MOST_PORT,
        None => false,
    }
}

/// Reads the names and addresses of other nodes: at most 63, each name of its own and within its limit, and none this node's, and each
/// address with a port.
fn peers<'t, 'a: 't>(
    alloc: Global,
    own: &str,
    words: &[&'a str],
) -> Result<Vec<(&'t str, &'t str)>, LineFault> {
    let mut peers: Vec<(&'t str, &'t str)> = Vec::new(alloc);
    if !is_node_name(own) || words.len() > MOST_PEERS {
        return Err(LineFault::Peer);
    }
    for word in words {
        let Some((name, address)) = word.split_once('=') else {
            return Err(LineFault::Peer);
        };
        if !is_node_name(name) || name == own || peers.iter().any(|peer| peer.0 == name) {
            return Err(LineFault::Peer);
        }
        if !has_port(address) {
            return Err(LineFault::Peer);
        }
        if peers.push((name, address)).is_err() {
            return Err(LineFault::NoMemory);
        }
    }
    Ok(peers)
}

/// A node's share of the machine: the bytes of a file that is held in memory, the rows of a band, the workers of a request, the files
/// that stay open, and the memory that is written to at the start.
struct Shares {
    hold: u64,
    band: u32,
    workers: u32,
    open_files: NonZeroUsize,
    touch_bytes: u64,
    ghost within: { (1 ≤ band) × (band ≤ 16384) × (1 ≤ workers) × (workers ≤ 16) },
}

/// Reads a node's share of the machine, or finds the first of it that is wrong.
fn shares_in(matches: &ArgMatches<'_>) -> Result<Shares, LineFault> {
    let Some(hold) = bytes(matches.get_str("hold"), HOLD, MOST_HOLD) else {
        return Err(LineFault::Hold);
    };
    let Some(band) = number(matches.get_str("band"), BAND, MOST_BAND) else {
        return Err(LineFault::Band);
    };
    let Some(workers) = number(matches.get_str("workers"), WORKERS, MOST_WORKERS) else {
        return Err(LineFault::Workers);
    };
    let Some(open_files) = most(matches.get_str("open-files"), OPEN_FILES, MOST_OPEN_FILES) else {
        return Err(LineFault::OpenFiles);
    };
    let Some(touch_bytes) = bytes(
        matches.get_str("touch-bytes"),
        TOUCH_BYTES,
        MOST_TOUCH_BYTES,
    ) else {
        return Err(LineFault::Touch);
    };
    Ok(Shares {
        hold,
        band,
        workers,
        open_files,
        touch_bytes,
    })
}

/// Reads how long an ask of another node may take: a whole number of milliseconds within its limits.
fn peer_timeout(text: Option<&str>) -> Option<u32> {
    let timeout = number(text, PEER_TIMEOUT, MOST_PEER_TIMEOUT)?;
    if u64::from(timeout) < LEAST_PEER_TIMEOUT {
        return None;
    }
    Some(timeout)
}

/// Reads the limits of those whom a node serves and asks, or finds the first of them that is wrong.
fn limits_in(matches: &ArgMatches<'_>) -> Result<Limits, LineFault> {
    let Some(peer_timeout) = peer_timeout(matches.get_str("peer-timeout")) else {
        return Err(LineFault::PeerTimeout);
    };
    let Some(min_rate) = bytes(matches.get_str("min-rate"), MIN_RATE, MOST_MIN_RATE) else {
        return Err(LineFault::MinRate);
    };
    let Some(per_address) = bytes(
        matches.get_str("per-address"),
        PER_ADDRESS,
        MOST_PER_ADDRESS,
    ) else {
        return Err(LineFault::PerAddress);
    };
    let Some(drain_seconds) = bytes(
        matches.get_str("drain-seconds"),
        DRAIN_SECONDS,
        MOST_DRAIN_SECONDS,
    ) else {
        return Err(LineFault::DrainSeconds);
    };
    Ok(Limits {
        peer_timeout,
        min_rate,
        per_address: per_address as usize,
        drain_seconds,
    })
}

/// Returns the names and files of the images of the words, and of what is listed behind them.
fn images_in<'t, 'a: 't>(
    alloc: Global,
    matches: &ArgMatches<'a>,
    listed: Listed<'t>,
) -> Result<Vec<(&'t str, &'t str)>, LineFault> {
    images(alloc, matches.get_strs("images").unwrap_or(&[]), listed)
}

/// Returns the manifest, where there is one: then files are held, or images are checked.
fn bag_in<'t>(listed: Listed<'t>, hold: u64, is_check: bool) -> Result<Option<Bag<'t>>, LineFault> {
    if listed.bag.is_some() && hold == 0 && !is_check {
        return Err(LineFault::ManifestAlone);
    }
    Ok(listed.bag)
}

/// Returns this node's name.
fn name_in<'a>(matches: &ArgMatches<'a>) -> &'a str {
    match matches.get_str("name") {
        Some(name) => name,
        None => OWN_NAME,
    }
}

/// Reads the names and addresses of the nodes beside the one of this name.
fn peers_in<'t, 'a: 't>(
    alloc: Global,
    matches: &ArgMatches<'a>,
    own: &str,
) -> Result<Vec<(&'t str, &'t str)>, LineFault> {
    peers(alloc, own, matches.get_strs("peer").unwrap_or(&[]))
}

/// Reads the options of the words and of the images that are listed beside them, with this base URL, or finds the first of them that is
/// wrong. Where the list or the folder can't be read, that comes in its place, at the images.
pub fn options_in<'t, 'a: 't>(
    alloc: Global,
    matches: &ArgMatches<'a>,
    base: &'t str,
    listed: Result<Listed<'t>, LineFault>,
) -> Result<Options<'t>, LineFault>
    ensures { IfOk result (λ o. o.base.now ≡ base.now) }
{
    let (edge, max) = sides(matches.get_str("edge"), matches.get_str("max"))?;
    let Some(cache_bytes) = bytes(
        matches.get_str("cache-bytes"),
        CACHE_BYTES,
        MOST_CACHE_BYTES,
    ) else {
        return Err(LineFault::Cache);
    };
    let Some(cache_entries) = most(
        matches.get_str("cache-entries"),
        CACHE_ENTRIES,
        MOST_CACHE_ENTRIES,
    ) else {
        return Err(LineFault::CacheEntries);
    };
    let Shares {
        hold,
        band,
        workers,
        open_files,
        touch_bytes,
    } = shares_in(matches)?;
    let limits = limits_in(matches)?;
    let listed = listed?;
    let peer_versions = matches.get_flag("peer-versions");
    let images = with_room(images_in(alloc, matches, listed)?, peer_versions)?;
    let bag = bag_in(listed, hold, matches.get_flag("check"))?;
    let name = name_in(matches);
    let peers = peers_in(alloc, matches, name)?;
    Ok(Options {
        base,
        edge,
        max,
        upscale: matches.get_flag("upscale"),
        cache_bytes,
        cache_entries,
        hold,
        bag,
        band,
        workers,
        open_files,
        touch_bytes,
        limits,
        images,
        skip_unfit: matches.get_flag("skip-unfit"),
        name,
        peers,
        peer_versions,
        mode: mode_in(matches)?,
    })
}

/// Reads the word for a server that runs, where the words ask for that: they name its socket, the word, and no way in which the program is
/// run.
pub fn telling_in<'a>(matches: &ArgMatches<'a>) -> Result<Option<Telling<'a>>, LineFault> {
    let Some(path) = matches.get_str("tell") else {
        return Ok(None);
    };
    let is_run = matches.get_str("one").is_some() || matches.get_str("listen").is_some();
    if is_run || matches.get_str("control").is_some() || matches.get_flag("check") {
        return Err(LineFault::Tell);
    }
    match matches.get_strs("images").unwrap_or(&[]) {
        [word] => Ok(Some(Telling { path, word: *word })),
        _ => Err(LineFault::Tell),
    }
}

/// Reads the file of the record, which goes with the connections to an address, and the most bytes that it gets.
fn record_in<'t, 'a: 't>(matches: &ArgMatches<'a>) -> Result<Option<(&'t str, u64)>, LineFault> {
    let listens = matches.get_str("listen").is_some();
    let Some(most) = bytes(
        matches.get_str("record-bytes"),
        RECORD_BYTES,
        MOST_RECORD_BYTES,
    ) else {
        return Err(LineFault::Record);
    };
    match matches.get_str("record") {
        Some(path) if listens => Ok(Some((path, most))),
        None if matches.get_str("record-bytes").is_none() => Ok(None),
        _ => Err(LineFault::Record),
    }
}

/// Reads how the program is run: exactly one way, with the options that go with it.
fn mode_in<'t, 'a: 't>(matches: &ArgMatches<'a>) -> Result<Mode<'t>, LineFault> {
    let hex = matches.get_flag("hex");
    let cache_given = matches.get_str("cache-bytes").is_some();
    let log = matches.get_flag("log");
    let peers = matches.get_str("peer-listen");
    let stats = matches.get_str("stats-listen");
    let peer_only = matches.get_flag("peer-only");
    let control = matches.get_str("control");
    let record = record_in(matches)?;
    let listens = log || peers.is_some() || stats.is_some() || peer_only || control.is_some();
    let check = matches.get_flag("check");
    match (matches.get_str("one"), matches.get_str("listen")) {
        (Some(target), None) if !check && !listens => Ok(Mode::One {
            target,
            hex,
            cache_given,
        }),
        (None, Some(viewers)) if !check && !hex && (!peer_only || peers.is_some()) => {
            Ok(Mode::Listen {
                viewers,
                peers,
                log,
                stats,
                peer_only,
                control,
                record,
            })
        }
        (None, None) if check && !hex && !listens => Ok(Mode::Check),
        _ => Err(LineFault::Mode),
    }
}
