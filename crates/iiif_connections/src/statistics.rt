//! Connections of who asks for the statistics.

ghost use Rattle.std.specs.Prelude.{◌≡◌};
ghost use Rattle.iiif_connections.specs.Telling.{service_of, starting};

use crate::connections::{Ended, Reading, close_served, ends};
use crate::times::Times;
use crate::watcher::Watcher;
use iiif_keys::System;
use iiif_listener::{Generation, OpenConnections, Pace, PacedWriter, Visit};
use iiif_metrics::{
    CacheMetrics, HeldMetrics, ImageMetrics, Measure, Metrics, PeerMetrics, Service, Services,
    Tally, Visitors, serve_metrics,
};
use iiif_open_files::Opens;
use iiif_pixel::NoMemory;
use iiif_server::{Kept, Node, SumCalls, TileCalls};
use iiif_services::Listeners;
use iiif_start::{Held, Images, Stored};
use iiif_tables::Book;
use std::alloc::Global;
use std::sync::Wait;
use std::sync::ledger::Ledger;
use std::time::{Clock, Duration};

/// The statistics of a node: the sources of their numbers.
#[derive(Drop)]
pub struct Statistics<'a, R: Opens + Wait, J: System, N, T>
where
    TileCalls<J>: Ledger,
    SumCalls<J>: Ledger,
{
    pub node: &'a Node<R, Stored<R>, J, N, T>,
    pub times: Times,
    /// The counts.
    pub watcher: &'a Watcher,
    pub listeners: &'a Listeners,
    /// The numbers of the node's images.
    pub images: Images,
    /// The generation that the node is.
    pub generation: Generation<'a>,
}

/// Joins a group's counts and the size of its cache.
fn cache_metrics(book: Book, kept: Kept) -> CacheMetrics
    ensures book { result.book ≡ book }
    ensures bytes { result.bytes ≡ kept.bytes }
    ensures entries { result.entries ≡ kept.entries }
{
    CacheMetrics {
        book,
        bytes: kept.bytes,
        entries: kept.entries as u64,
    }
}

/// Returns the state of a service that is wanted or isn't, and is gone or isn't.
fn service_of(is_wanted: bool, is_gone: bool) -> Service
    ensures { result ≡ service_of is_wanted is_gone }
{
    match (is_wanted, is_gone) {
        (false, _) => Service::Unwanted,
        (true, false) => Service::GoesOn,
        (true, true) => Service::Gone,
    }
}

/// Joins the numbers of images that are served and that are left out, of asks for other versions, and of reads that failed.
fn image_metrics(images: Images, other_versions: u64, read_failures: u64) -> ImageMetrics
    ensures served { result.served ≡ images.served }
    ensures unfit { result.unfit ≡ images.unfit }
    ensures other_versions { result.other_versions ≡ other_versions }
    ensures read_failures { result.read_failures ≡ read_failures }
{
    ImageMetrics {
        served: images.served,
        unfit: images.unfit,
        other_versions,
        read_failures,
    }
}

/// Returns the numbers of files that are held in memory.
fn held_metrics(held: Held) -> HeldMetrics
    ensures bytes { result.bytes ≡ held.bytes }
    ensures images { result.images ≡ held.images }
{
    HeldMetrics {
        bytes: held.bytes,
        images: held.images,
    }
}

impl<'a, R: Opens + Wait, J: System, N, T> Measure<R> for Statistics<'a, R, J, N, T> {
    fn measure(&self, rt: &R) -> Metrics {
        let tiles = self.node.groups().tiles();
        let sums = self.node.groups().sums();
        let others = self.watcher.peers.others_asked.count(rt);
        Metrics {
            tiles: cache_metrics(tiles.book(rt), tiles.kept(rt)),
            sums: cache_metrics(sums.book(rt), sums.kept(rt)),
            images: image_metrics(self.images, others, self.watcher.failures.count()),
            held: held_metrics(self.images.held),
            counts: self.watcher.tally.counts(rt),
            kept: self.node.most_kept(rt),
            lost_lines: self.watcher.lost_lines(),
            started: self.watcher.started.millis / 1_000,
            times: self.watcher.tally.times(rt),
        }
    }

    fn peers(&self, rt: &R, alloc: Global) -> Result<PeerMetrics, NoMemory> {
        self.watcher.peers.metrics(rt, alloc)
    }

    fn services(&self, rt: &R) -> Services {
        let is_over = self.listeners.is_over(rt);
        let log = match &self.watcher.log {
            Some(log) => service_of(true, !log.is_written(rt)),
            None => Service::Unwanted,
        };
        Services {
            viewers: service_of(true, is_over),
            peers: service_of(self.listeners.peers.is_some(), is_over),
            statistics: service_of(self.listeners.statistics.is_some(), is_over),
            log,
        }
    }
}

impl<'a, R: Opens + Wait + Clock, J: System, N, T> Statistics<'a, R, J, N, T> {
    /// Answers the one call of a connection, and closes it. The connection is counted. One whose call didn't come before another generation
    /// serves is given back.
    pub fn serve<'v>(&self, rt: &'v R, alloc: Global, visit: Visit<'v, R>) -> Option<Visit<'v, R>> {
        let (tally, times) = (&self.watcher.tally, &self.times);
        serve_one(rt, alloc, self, (tally, times, self.generation), visit)
    }
}

/// The statistics of a node whose first images are being opened.
#[derive(Drop)]
pub struct StartStatistics<'a> {
    pub times: Times,
    pub watcher: &'a Watcher,
    pub listeners: &'a Listeners,
    /// The generation before the first.
    pub generation: Generation<'a>,
}

/// The counts of a cache that isn't there yet.
const NO_CACHE: CacheMetrics = CacheMetrics {
    book: Book {
        gets: 0,
        hits: 0,
        joins: 0,
        leads: 0,
        again_hits: 0,
        loads: 0,
        peer: 0,
        landed: 0,
        faults: 0,
    },
    bytes: 0,
    entries: 0,
};

/// Returns the state of a service that begins with the first generation, where it is wanted.
fn starting(is_wanted: bool) -> Service
    ensures { result ≡ starting is_wanted }
{
    if is_wanted {
        Service::Starts
    } else {
        Service::Unwanted
    }
}

impl<'a, R: Wait> Measure<R> for StartStatistics<'a> {
    fn measure(&self, rt: &R) -> Metrics {
        let others = self.watcher.peers.others_asked.count(rt);
        Metrics {
            tiles: NO_CACHE,
            sums: NO_CACHE,
            images: ImageMetrics {
                served: 0,
                unfit: 0,
                other_versions: others,
                read_failures: self.watcher.failures.count(),
            },
            held: HeldMetrics {
                bytes: 0,
                images: 0,
            },
            counts: self.watcher.tally.counts(rt),
            times: self.watcher.tally.times(rt),
            kept: 0,
            lost_lines: self.watcher.lost_lines(),
            started: self.watcher.started.millis / 1_000,
        }
    }

    fn peers(&self, rt: &R, alloc: Global) -> Result<PeerMetrics, NoMemory> {
        self.watcher.peers.metrics(rt, alloc)
    }

    fn services(&self, _rt: &R) -> Services {
        Services {
            viewers: Service::Starts,
            peers: starting(self.listeners.peers.is_some()),
            statistics: service_of(self.listeners.statistics.is_some(), false),
            log: starting(self.watcher.log.is_some()),
        }
    }
}

impl<'a> StartStatistics<'a> {
    /// Answers the one call of a connection, as [`Statistics::serve`] does.
    pub fn serve<'v, R: Wait + Clock>(
        &self,
        rt: &'v R,
        alloc: Global,
        visit: Visit<'v, R>,
    ) -> Option<Visit<'v, R>> {
        let (tally, times) = (&self.watcher.tally, &self.times);
        serve_one(rt, alloc, self, (tally, times, self.generation), visit)
    }
}

/// Answers the one call of a connection by a source of numbers, and closes it; or gives it back where its call didn't come before another
/// generation serves. It is counted.
fn serve_one<'v, R: Wait + Clock, M: Measure<R>>(
    rt: &'v R,
    alloc: Global,
    source: &M,
    by: (&Tally, &Times, Generation<'_>),
    visit: Visit<'v, R>,
) -> Option<Visit<'v, R>> {
    let (tally, times, generation) = by;
    tally.count_opened(rt, Visitors::Statistics);
    let ended = answer(rt, alloc, source, times, generation, visit);
    tally.count_closed(rt, Visitors::Statistics);
    match ended {
        Ended::Served => None,
        Ended::Refused => {
            tally.count_refused(rt, Visitors::Statistics);
            None
        }
        Ended::Ousted => {
            tally.count_ousted(rt, Visitors::Statistics);
            None
        }
        Ended::Moved(visit) => Some(visit),
    }
}

/// Answers the one call of a connection, and closes it. Where memory runs out, it is closed unanswered.
fn answer<'v, R: Wait + Clock, M: Measure<R>>(
    rt: &'v R,
    alloc: Global,
    source: &M,
    times: &Times,
    generation: Generation<'_>,
    visit: Visit<'v, R>,
) -> Ended<'v, R> {
    let Visit { stream, place } = visit;
    let Ok(pace) = Pace::new(rt, Duration::from_millis(times.whole)) else {
        return Ended::Refused;
    };
    // Nobody is counted in it, so the call is waited for at once.
    let connections = OpenConnections::new();
    let connection = (&place, stream);
    let reading = Reading {
        generation,
        reads_ahead: true,
    };
    let Ok((reader, mut out)) = ends(rt, alloc, times, &pace, &connections, reading, connection)
    else {
        return Ended::Refused;
    };
    if serve_metrics(rt, alloc, source, reader, &mut out).is_err() {
        return Ended::Refused;
    }
    let PacedWriter { stream, .. } = out;
    if pace.is_moved() {
        return Ended::Moved(Visit { stream, place });
    }
    close_served(rt, &place, stream)
}
