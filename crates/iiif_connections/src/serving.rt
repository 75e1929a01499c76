//! A node that serves, generation after generation.

ghost use Rattle.std.specs.Prelude.{◌≡◌};
ghost use Rattle.iiif_connections.specs.Telling.{visitors_at};
ghost use denote.Param.Send.{IsSend, IsSync};

use crate::peers::PeerCalls;
use crate::statistics::{StartStatistics, Statistics};
use crate::times::Times;
use crate::viewers::Viewers;
use crate::watcher::Watcher;
use iiif_keys::System;
use iiif_listener::{Arrival, Door, Inbox, OpenConnections, Refused};
use iiif_metrics::Visitors;
use iiif_open_files::Opens;
use iiif_peer_versions::FileVersions;
use iiif_server::{Gate, Links, Node, SumCalls, TileCalls};
use iiif_services::{Listeners, Started, Starts};
use iiif_start::{Images, Stored};
use std::alloc::Global;
use std::net::{Net, TcpListener, TcpStream};
use std::sync::Wait;
use std::sync::ledger::Ledger;
use std::thread;
use std::thread::Threads;
use std::time::Clock;

/// The parts of a server that stay while generations of its node come and go: its listeners, the connections that wait, the watcher of its
/// answers, its limits, and the slot for the outcome of a start.
#[derive(Drop)]
pub struct Server<'x, 'p, R: Wait> {
    pub rt: &'p R,
    pub alloc: Global,
    /// The number of workers for each viewer's connection.
    pub workers: u32,
    pub times: Times,
    pub watcher: &'x Watcher,
    /// The connections that are open, of viewers and other nodes.
    pub connections: &'x OpenConnections,
    pub listeners: &'x Listeners,
    pub inbox: &'x Inbox<'p, R>,
    pub starts: &'x Starts,
}

/// Returns the name of a listener's visitors among the counts.
fn visitors_at(door: Door) -> Visitors
    ensures { result ≡ visitors_at door }
{
    match door {
        Door::Viewers => Visitors::Viewers,
        Door::Peers => Visitors::Peers,
        Door::Statistics => Visitors::Statistics,
    }
}

impl<'x, 'p, R: Wait> Server<'x, 'p, R> {
    /// Puts a connection back for the next generation. Where no memory is left for that, it is closed, and counted as refused.
    fn put_back(&self, arrival: Arrival<'p, R>) {
        let door = arrival.door;
        if !self.inbox.put(self.rt, arrival) {
            self.report_refused(self.rt, door);
        }
    }

    /// Returns the health checker of the other nodes, where there are any.
    pub fn health_checker(&self) -> Option<&Watcher> {
        if self.watcher.peers.others.is_empty() {
            None
        } else {
            Some(self.watcher)
        }
    }
}

/// Each connection that is closed unanswered is counted.
impl<'x, 'p, R: Wait> Refused<R> for Server<'x, 'p, R> {
    fn report_refused(&self, rt: &R, door: Door) {
        self.watcher.tally.count_refused(rt, visitors_at(door));
    }
}

/// The services of a generation, one for each kind of visitor.
#[derive(Drop)]
struct NodeService<'x, 'p, R: Opens + Wait, J: System, N, T>
where
    TileCalls<J>: Ledger,
    SumCalls<J>: Ledger,
{
    server: &'x Server<'x, 'p, R>,
    viewers: Viewers<'x, R, J, N, T>,
    peers: PeerCalls<'x, R, J, N, T>,
    statistics: Statistics<'x, R, J, N, T>,
}

impl<'x, 'p, R, J, N, T> NodeService<'x, 'p, R, J, N, T>
where
    R: Opens + Threads + Wait + Clock + Sync,
    R::Handle: Send + Sync,
    J: System + Send + Sync,
    N: Links<J, R> + Sync,
    T: Gate<R> + Sync,
{
    /// Serves a connection to its end, and closes it. Where another generation serves before its next request came, it is given back.
    fn serve(&self, arrival: Arrival<'p, R>) -> Option<Arrival<'p, R>> {
        let (rt, alloc) = (self.server.rt, self.server.alloc);
        let Arrival { door, visit } = arrival;
        let visit = match door {
            Door::Viewers => self.viewers.serve(rt, alloc, visit)?,
            Door::Peers => self.peers.serve(rt, alloc, visit)?,
            Door::Statistics => self.statistics.serve(rt, alloc, visit)?,
        };
        Some(Arrival { door, visit })
    }

    /// Serves a connection. One that is given back waits for the next generation.
    fn serve_one(&self, arrival: Arrival<'p, R>) {
        if let Some(back) = self.serve(arrival) {
            self.server.put_back(back);
        }
    }

    /// Serves each connection that waits for the generation of a number, in a thread of its own, until another generation serves or none
    /// can come any more. Returns once each has ended, or waits for another generation. One for which no thread can be started is closed
    /// unanswered, and counted as refused.
    fn serve_each(&self, number: u64) {
        let (rt, inbox) = (self.server.rt, self.server.inbox);
        thread::scope(
            thread::scope_env(),
            rt,
            |scope|
                requires { IsSync R.row × IsSend R.Handle.row × IsSync R.Handle.row × IsSend J.row × IsSync J.row × IsSync N.row × IsSync T.row }
            {
                for _ in rt.forever() {
                    let Some(arrival) = inbox.next(rt, number) else {
                        return;
                    };
                    let door = arrival.door;
                    // Where no thread can be started, the closure is dropped: the stream is closed and the place free again.
                    let started = scope.spawn(
                        move ||
                            requires { IsSync R.row × IsSend R.Handle.row × IsSync R.Handle.row × IsSend J.row × IsSync J.row × IsSync N.row
                                × IsSync T.row }
                        { self.serve_one(arrival) },
                    );
                    if started.is_err() {
                        self.server.report_refused(rt, door);
                    }
                }
            },
        )
    }
}

/// A generation that starts: its number, the numbers of its images, the versions of their files where these are compared, and the lines to
/// print of it.
#[derive(Drop)]
pub struct Start<'x> {
    pub number: u64,
    pub images: Images,
    pub versions: Option<&'x FileVersions>,
    pub said: Vec<u8>,
}

/// Serves by a node as a generation that starts, until another one serves or no connection comes any more. Returns once all its connections
/// have ended, or wait for another generation. Its start is reported with its lines.
pub fn serve_generation<'x, 'p, R, J, N, T>(
    server: &'x Server<'x, 'p, R>,
    node: &'x Node<R, Stored<R>, J, N, T>,
    start: Start<'x>,
)
where
    R: Opens + Net<Listener = TcpListener, Stream = TcpStream> + Threads + Wait + Clock + Sync,
    R::Handle: Send + Sync,
    J: System + Send + Sync,
    N: Links<J, R> + Sync,
    T: Gate<R> + Sync,
{
    let Server {
        rt,
        alloc,
        workers,
        times,
        watcher,
        connections,
        listeners,
        inbox,
        starts,
    } = server;
    let Start {
        number,
        images,
        versions,
        said,
    } = start;
    let generation = inbox.generation(number);
    let service = NodeService {
        server,
        viewers: Viewers {
            node,
            workers: *workers,
            times: *times,
            watcher: *watcher,
            connections: *connections,
            generation,
        },
        peers: PeerCalls {
            node,
            times: *times,
            versions,
            watcher: *watcher,
            connections: *connections,
            generation,
        },
        statistics: Statistics {
            node,
            times: *times,
            watcher: *watcher,
            listeners: *listeners,
            images,
            generation,
        },
    };
    watcher.peers.others_asked.forget(*rt);
    inbox.begin(*rt, number);
    let started = Started {
        status: 0,
        images: images.served,
        said,
    };
    starts.tell(*rt, started);
    service.serve_each(number);
}

/// Answers a connection for the statistics of a server without a generation. Any other waits for the first generation, and so does one
/// whose call didn't come before that serves.
fn serve_early<'p, R: Wait + Clock>(
    server: &Server<'_, 'p, R>,
    statistics: &StartStatistics<'_>,
    arrival: Arrival<'p, R>,
) {
    let Arrival { door, visit } = arrival;
    let back = match door {
        Door::Statistics => statistics.serve(server.rt, server.alloc, visit),
        Door::Viewers | Door::Peers => Some(visit),
    };
    if let Some(visit) = back {
        server.put_back(Arrival { door, visit });
    }
}

/// Answers calls for the statistics until the first generation serves, each in a thread of its own. The inbox has counted it in, and counts
/// it out.
pub fn serve_start<'p, R>(server: &Server<'_, 'p, R>)
where
    R: Threads + Wait + Clock + Sync,
{
    let (rt, inbox) = (server.rt, server.inbox);
    let statistics = StartStatistics {
        times: server.times,
        watcher: server.watcher,
        listeners: server.listeners,
        generation: inbox.generation(0),
    };
    let early = &statistics;
    thread::scope(thread::scope_env(), rt, |scope| {
        for _ in rt.forever() {
            let Some(arrival) = inbox.next(rt, 0) else {
                return;
            };
            let door = arrival.door;
            if scope
                .spawn(move || serve_early(server, early, arrival))
                .is_err()
            {
                server.report_refused(rt, door);
            }
        }
    });
    inbox.end(rt);
}
