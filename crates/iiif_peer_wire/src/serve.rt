//! Asks answered in order.

ghost use Rattle.std.specs.Prelude.{◌≤◌, ◌<◌, ℕ, List, IsTrue};
ghost use Rattle.std.specs.Io.KnownBytes.{Appends};
ghost use Rattle.iiif_peer_wire.specs.Faults.{LeftAt};
ghost use Rattle.iiif_peer_wire.specs.Messages.{IsAsk, IsReply};
ghost use Rattle.iiif_peer_wire.specs.Reading.{IsInput};
ghost use Rattle.iiif_peer_wire.specs.declared.version.Version.{Version};
ghost use Rattle.iiif_peer_wire.specs.Serving.{Served};
ghost use Rattle.iiif_peer_wire.specs.Exchanges.{ask_limit, IsExchange};

use crate::ask::{Ask, read_ask};
use crate::reply::write_reply;
use iiif_io::{Inlet, Outlet};
use std::alloc::Global;

/// The most asks of one connection.
pub const ASK_LIMIT: u32 = 1000;

/// Service that answers the asks of other nodes. R is the runtime, and P counts calls.
pub trait Answers<R, P> {
    /// Replies that may be given to an ask of a version, a group and a key: a status and a value.
    ghost answers: { Self → Version → ℕ → List ℕ → ℕ → List ℕ → Type 0 };

    /// Returns the status and the value of the reply to an ask. It comes from this node: no other node is asked for the key.
    fn answer(&self, rt: &R, alloc: Global, passes: &mut P, ask: &Ask) -> (u8, Vec<u8>)
        requires { IsAsk ask.now.group ask.now.key.items }
        ensures spelled { IsReply ask.now.key.items result.0 result.1.items }
        ensures allowed { answers self.now ask.now.version ask.now.group ask.now.key.items result.0 result.1.items };
}

/// Service of a connection, with its runtime and its allocator.
#[derive(Drop)]
struct PeerService<'a, 's, R, A> {
    rt: &'a R,
    alloc: Global,
    service: &'s A,
}

/// Answers the next ask of a connection, which is its `n`-th. Says whether another may follow.
fn serve_next<R, P, A: Answers<R, P>, I: Inlet, W: Outlet>(
    peers: &PeerService<'_, '_, R, A>,
    passes: &mut P,
    reader: &mut I,
    n: u32,
    out: &mut W,
) -> bool
    requires few { n ≤ ask_limit }
    ensures served { (text : List ℕ) × Appends (W.contents out.old) (W.contents out.new) text
        × Served (A.answers peers.now.service.now) (LeftAt I.fails reader.new) (LeftAt W.fails out.new)
        n (I.remaining reader.old) (I.remaining reader.new) text result }
    ensures few { IsTrue result → n < ask_limit }
{
    let ask = match read_ask(peers.alloc, reader) {
        Ok(Some(ask)) => ask,
        Ok(None) | Err(_) => return false,
    };
    let (status, value) = peers.service.answer(peers.rt, peers.alloc, passes, &ask);
    match write_reply(out, ask.version, &ask.key, status, &value) {
        Ok(()) => n < ASK_LIMIT,
        Err(_) => false,
    }
}

/// Answers the asks of a connection in order, each in its version with a reply of its key, until its input ends, an ask is at fault,
/// a reply is cut off, or its 1,000th ask was answered. Then the connection is to be closed.
pub fn serve_peer<R, P, A: Answers<R, P>, I: Inlet, W: Outlet>(
    rt: &R,
    alloc: Global,
    service: &A,
    passes: &mut P,
    reader: &mut I,
    out: &mut W,
)
    ensures { (came : List ℕ) × (output : List ℕ) × IsInput (I.remaining reader.old) came ×
        Appends (W.contents out.old) (W.contents out.new) output
        × IsExchange (A.answers service.now) (LeftAt I.fails reader.new) (LeftAt W.fails out.new) (IsInput (I.remaining reader.new)) came
        output }
{
    let peers = PeerService { rt, alloc, service };
    let mut n = 1;
    while serve_next(&peers, passes, reader, n, out) {
        n += 1;
    }
}
