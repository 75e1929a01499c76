//! Connections of viewers.

ghost use Rattle.std.specs.Prelude.{◌≡◌, ℕ, List, IfSome, true, false};
ghost use Rattle.std.specs.Io.KnownBytes.{Appends};
ghost use Rattle.iiif_answers.specs.Streams.{IsCame, IsConnection};
ghost use Rattle.iiif_connections.specs.Held.{AllHeld, terms_of_held};
ghost use Rattle.iiif_start.specs.Stored.{bytes_of};

use crate::connections::{Ended, Reading, close_served, ends};
use crate::passes::TakenPasses;
use crate::times::Times;
use crate::watcher::{ConnectionWatch, Watcher};
use iiif_io::{Inlet, Outlet};
use iiif_keys::System;
use iiif_listener::{Generation, OpenConnections, Pace, PacedWriter, Visit};
use iiif_metrics::Visitors;
use iiif_open_files::Opens;
use iiif_server::{Gate, Links, Node, Serving, SumCalls, TileCalls, Watch};
use iiif_start::Stored;
use std::alloc::Global;
use std::sync::Wait;
use std::sync::ledger::Ledger;
use std::thread::Threads;
use std::time::{Clock, Duration};

/// A node as its viewers have it.
#[derive(Drop)]
pub struct Viewers<'a, R: Opens + Wait, J: System, N, T>
where
    TileCalls<J>: Ledger,
    SumCalls<J>: Ledger,
{
    pub node: &'a Node<R, Stored<R>, J, N, T>,
    /// The threads that make an image.
    pub workers: u32,
    pub times: Times,
    /// The watcher of the connections and their answers.
    pub watcher: &'a Watcher,
    /// The connections that are open, of other nodes too.
    pub connections: &'a OpenConnections,
    /// The generation that the node is.
    pub generation: Generation<'a>,
}

impl<
    'a,
    R: Opens + Threads + Wait + Clock + Sync,
    J: System + Send + Sync,
    N: Links<J, R> + Sync,
    T: Gate<R> + Sync,
> Viewers<'a, R, J, N, T>
where
    R::Handle: Send + Sync,
{
    /// Answers the calls of a connection in order, and closes it. Where passes for its workers are missing, it is closed unanswered. The
    /// connection is counted, and each of its answers is counted and logged. One that waits for a request once another generation serves is
    /// given back.
    pub fn serve<'v>(&self, rt: &'v R, alloc: Global, visit: Visit<'v, R>) -> Option<Visit<'v, R>> {
        let tally = &self.watcher.tally;
        tally.count_opened(rt, Visitors::Viewers);
        self.connections.enter();
        let ended = self.answer(rt, alloc, visit);
        self.connections.leave();
        tally.count_closed(rt, Visitors::Viewers);
        match ended {
            Ended::Served => None,
            Ended::Refused => {
                tally.count_refused(rt, Visitors::Viewers);
                None
            }
            Ended::Ousted => {
                tally.count_ousted(rt, Visitors::Viewers);
                None
            }
            Ended::Moved(visit) => Some(visit),
        }
    }

    /// Answers the calls of a connection in order, and closes it. Its answers alone are counted.
    fn answer<'v>(&self, rt: &'v R, alloc: Global, visit: Visit<'v, R>) -> Ended<'v, R> {
        let Visit { stream, place } = visit;
        let Ok(pace) = Pace::new(rt, Duration::from_millis(self.times.whole)) else {
            return Ended::Refused;
        };
        let connection = (&place, stream);
        let reading = Reading {
            generation: self.generation,
            reads_ahead: true,
        };
        let Ok((reader, mut out)) = ends(
            rt,
            alloc,
            &self.times,
            &pace,
            self.connections,
            reading,
            connection,
        ) else {
            return Ended::Refused;
        };
        let watch = ConnectionWatch {
            watcher: self.watcher,
            pace: &pace,
        };
        if !self.serve_over(rt, alloc, &watch, reader, &mut out) {
            return Ended::Refused;
        }
        let PacedWriter { stream, .. } = out;
        if pace.is_moved() {
            return Ended::Moved(Visit { stream, place });
        }
        close_served(rt, &place, stream)
    }

    /// Answers the calls of a connection in order, over any reader and writer, and tells a watch of each. Returns whether passes for its
    /// workers were there: where they are missing, nothing is answered. The clauses on answers assume nothing of a node that holds all its
    /// images in memory and asks no other.
    pub fn serve_over<V: Watch<R>, I: Inlet + Drop, W: Outlet>(
        &self,
        rt: &R,
        alloc: Global,
        watch: &V,
        reader: I,
        out: &mut W,
    ) -> bool
        // Where the bytes that the reader has left are known, the output is that for what came of them: all, or a first part where
        // the reader failed.
        ensures serves { AllHeld self.now.node.now.items → J.honest ≡ true → result ≡ true
            → IfSome (I.remaining reader) (λ input. (output : List ℕ) × Appends (W.contents out.old) (W.contents out.new) output
            × ((came : List ℕ) × IsCame ((before after : I) × I.fails before after) input came
            × IsConnection (terms_of_held (bytes_of R.holds) self.now.node.now.settings self.now.node.now.items
            ((before after : I) × I.fails before after) ((before : W) × W.fails before out.new))
            came output)) }

        // Where they are not, as at a socket, it is that for the bytes that came.
        ensures came { AllHeld self.now.node.now.items → J.honest ≡ true → result ≡ true
            → (came : List ℕ) × (output : List ℕ) × Appends (W.contents out.old) (W.contents out.new) output
            × IsConnection (terms_of_held (bytes_of R.holds) self.now.node.now.settings self.now.node.now.items
            ((before after : I) × I.fails before after) ((before : W) × W.fails before out.new))
            came output }
        ensures unanswered { result ≡ false → out.new ≡ out.old }
    {
        let Some(mut passes) = TakenPasses::take(rt, alloc, self.node, self.workers) else {
            return false;
        };
        let serving = Serving { rt, alloc, watch };
        self.node.serve_stream(&serving, passes.lend(), reader, out);
        passes.give_back(rt, self.node);
        true
    }
}
