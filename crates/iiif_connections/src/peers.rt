//! Connections of other nodes.

use crate::connections::{Ended, Reading, close_served, ends};
use crate::other_versions::VersionNotice;
use crate::passes::TakenPasses;
use crate::times::Times;
use crate::watcher::Watcher;
use iiif_keys::System;
use iiif_listener::{Generation, OpenConnections, Pace, PacedWriter, Visit};
use iiif_metrics::Visitors;
use iiif_open_files::Opens;
use iiif_peer_versions::{Compared, FileVersions};
use iiif_peer_wire::serve_peer;
use iiif_server::{Gate, Links, Node, SumCalls, TileCalls};
use iiif_start::Stored;
use std::alloc::Global;
use std::net::TcpStream;
use std::sync::Wait;
use std::sync::ledger::Ledger;
use std::time::{Clock, Duration};

/// Writes the address from which a connection comes, without its port.
fn address_text(alloc: Global, stream: &TcpStream) -> String {
    let told = match stream.peer_addr() {
        Ok(address) => {
            let ip = address.ip();
            format!(in alloc; "{ip}").ok()
        }
        Err(_) => None,
    };
    told.unwrap_or(String::new(alloc))
}

/// A node as other nodes have it.
#[derive(Drop)]
pub struct PeerCalls<'a, R: Opens + Wait, J: System, N, T>
where
    TileCalls<J>: Ledger,
    SumCalls<J>: Ledger,
{
    pub node: &'a Node<R, Stored<R>, J, N, T>,
    pub times: Times,
    /// The versions of the node's files, where they are compared with those that are asked for.
    pub versions: Option<&'a FileVersions>,
    /// The watcher of the connections, and of asks for other versions of files.
    pub watcher: &'a Watcher,
    /// The connections that are open, of viewers too.
    pub connections: &'a OpenConnections,
    /// The generation that the node is.
    pub generation: Generation<'a>,
}

impl<'a, R: Opens + Wait + Clock, J: System, N: Links<J, R>, T: Gate<R>> PeerCalls<'a, R, J, N, T> {
    /// Answers the asks of a connection in order, and closes it. Where a pass is missing, it is closed unanswered.
    fn answer<'v>(&self, rt: &'v R, alloc: Global, visit: Visit<'v, R>) -> Ended<'v, R> {
        let Visit { stream, place } = visit;
        let Ok(pace) = Pace::new(rt, Duration::from_millis(self.times.whole)) else {
            return Ended::Refused;
        };
        // An address that can't be told is none.
        let address = address_text(alloc, &stream);
        let connection = (&place, stream);
        // No more is read than an ask.
        let reading = Reading {
            generation: self.generation,
            reads_ahead: false,
        };
        let Ok((mut reader, mut out)) = ends(
            rt,
            alloc,
            &self.times,
            &pace,
            self.connections,
            reading,
            connection,
        ) else {
            return Ended::Refused;
        };
        let Some(mut passes) = TakenPasses::take(rt, alloc, self.node, 1) else {
            return Ended::Refused;
        };
        let notice = VersionNotice {
            watcher: self.watcher,
            address: address.as_str(),
        };
        let service = Compared {
            service: self.node,
            versions: self.versions,
            notice: &notice,
        };
        serve_peer(
            rt,
            alloc,
            &service,
            &mut passes.lend()[0],
            &mut reader,
            &mut out,
        );
        passes.give_back(rt, self.node);
        self.watcher.tell_failures(rt);
        drop(reader);
        let PacedWriter { stream, .. } = out;
        if pace.is_moved() {
            return Ended::Moved(Visit { stream, place });
        }
        close_served(rt, &place, stream)
    }

    /// Answers the asks of a connection in order, and closes it. The connection is counted. One that waits for an ask once another
    /// generation serves is given back.
    pub fn serve<'v>(&self, rt: &'v R, alloc: Global, visit: Visit<'v, R>) -> Option<Visit<'v, R>> {
        let tally = &self.watcher.tally;
        tally.count_opened(rt, Visitors::Peers);
        self.connections.enter();
        let ended = self.answer(rt, alloc, visit);
        self.connections.leave();
        tally.count_closed(rt, Visitors::Peers);
        match ended {
            Ended::Served => None,
            Ended::Refused => {
                tally.count_refused(rt, Visitors::Peers);
                None
            }
            Ended::Ousted => {
                tally.count_ousted(rt, Visitors::Peers);
                None
            }
            Ended::Moved(visit) => Some(visit),
        }
    }
}
