//! The numbers that are told.

use crate::counts::Counts;
use crate::health::Services;
use crate::times::AnswerTimes;
use iiif_breaker::{Asks, Durations, State};
use iiif_tables::Book;

/// The counts of a cache and its flights, and of the values that are kept.
#[derive(Clone, Copy)]
pub struct CacheMetrics {
    pub book: Book,
    /// The bytes of the kept values and their keys.
    pub bytes: u64,
    /// How many values are kept.
    pub entries: u64,
}

/// The images whose files are held in memory.
#[derive(Clone, Copy)]
pub struct HeldMetrics {
    /// The bytes of these files.
    pub bytes: u64,
    /// How many images they are.
    pub images: u64,
}

/// The images that the start named.
#[derive(Clone, Copy)]
pub struct ImageMetrics {
    /// The images that are served.
    pub served: u64,
    /// The images that can't be served, and are left out.
    pub unfit: u64,
    /// How often another node asked for another version of one of them, each node and image once of a list.
    pub other_versions: u64,
    /// How many reads of their files failed.
    pub read_failures: u64,
}

/// The counts of a server since it was started, and of what it holds.
#[derive(Clone, Copy)]
pub struct Metrics {
    pub tiles: CacheMetrics,
    pub sums: CacheMetrics,
    pub images: ImageMetrics,
    pub held: HeldMetrics,
    pub counts: Counts,
    /// How many samples and sums of shared values were kept beside one answer, at most.
    pub kept: u64,
    /// How many lines of the log were lost.
    pub lost_lines: u64,
    /// When the server was started, in seconds since 1970.
    pub started: u64,
    pub times: AnswerTimes,
}

/// How the asks of a node ended, and whether it is asked.
#[derive(Drop)]
pub struct LinkMetrics {
    /// The node's name.
    pub name: String,
    pub asks: Asks,
    pub state: State,
    /// Whether the node's address leads to this node.
    pub is_itself: bool,
    /// How many images there are for which it refused asks.
    pub refused_images: u64,
}

/// The numbers of all links: of each by itself, and how long the asks of all took. One histogram serves for all, since one for each link
/// would be eleven lines a node, and a node that is slow is found by how its asks end.
#[derive(Drop)]
pub struct PeerMetrics {
    pub links: Vec<LinkMetrics>,
    pub durations: Durations,
}

/// All that may be told.
#[derive(Drop)]
pub struct Telling {
    pub metrics: Metrics,
    pub peers: PeerMetrics,
    pub services: Services,
}
