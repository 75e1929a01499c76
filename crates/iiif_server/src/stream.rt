//! Connections.

ghost use Rattle.std.specs.Prelude.{◌≡◌, ◌≤◌, ◌<◌, true, None, length};
ghost use Rattle.iiif_answers.specs.Responses.{want_of_memory};
ghost use Rattle.iiif_io.specs.Devices.{reads, writes};
ghost use Rattle.iiif_server.specs.Answering.{ServesCame, ServesKnown};
ghost use Rattle.iiif_server.specs.Code.{Closes, ClosesForHead, EndsCall, IsNthCall, ServesNext};

use crate::links::Links;
use crate::node::Node;
use crate::serving::Serving;
use crate::watch::Watch;
use iiif_answers::message::refusal_message;
use iiif_answers::sending::send_message;
use iiif_answers::{Cut, Part, Sent};
use iiif_http_front::{Call, HeadFault, Heads};
use iiif_io::{Inlet, Outlet};
use iiif_keys::System;
use iiif_request::Refusal;
use iiif_source::Source;
use iiif_sum_group::{Gate, Passes};
use std::alloc::{AllocError, Global};
use std::sync::Wait;
use std::thread::Threads;
use std::time::Clock;

/// The most calls of one connection.
pub const CALL_LIMIT: u32 = 1000;

/// Sends the answer to lack of memory, after which the connection closes.
fn close_for_memory<W: Outlet>(out: &mut W) -> Result<Sent, Cut>
    ensures { Closes (writes W.contents W.fails out.old out.new) want_of_memory }
{
    send_message(out, Part::Whole { closes: true }, Err(AllocError))
}

/// Sends the answer to a head that is none, or to lack of memory, after which the connection closes.
fn close_for_head<W: Outlet>(alloc: Global, out: &mut W) -> Result<Sent, Cut>
    ensures { ClosesForHead (writes W.contents W.fails out.old out.new) }
{
    let part = Part::Whole { closes: true };
    let message = refusal_message(alloc, part, Refusal::Head);
    send_message(out, part, message)
}

/// A call as the `n`-th of its connection: the last one that is answered closes it.
fn closing_call(call: Call, n: u32) -> Call
    ensures { IsNthCall call n result }
{
    Call {
        method: call.method,
        target: call.target,
        close: call.close || n == CALL_LIMIT,
    }
}

impl<
    R: Threads + Wait + Clock + Sync,
    S: Source<R> + Drop + Sync,
    J: System + Send + Sync,
    N: Links<J, R> + Sync,
    T: Gate<R> + Sync,
> Node<R, S, J, N, T> {
    /// Answers a call, of which the watch is told, and says whether another may follow.
    fn serve_call<W: Outlet, V: Watch<R>>(
        &self,
        serving: &Serving<'_, '_, R, V>,
        passes: &mut [Passes<J>],
        call: &Call,
        out: &mut W,
    ) -> bool
        requires { 0 < length passes.old }
        ensures { EndsCall S.Source J.honest self.now call.now (writes W.contents W.fails out.old out.new) result }
    {
        let begun = serving.watch.begin(serving.rt);
        let outcome = self.serve_one(serving.rt, serving.alloc, passes, call, out);
        serving
            .watch
            .report(serving.rt, begun, Some(call), &outcome);
        match outcome {
            Ok(_) => !call.close,
            Err(_) => false,
        }
    }

    /// Answers the next call of a connection, which is its `n`-th, or what ended it. Says whether more may follow.
    fn serve_next<I: Inlet + Drop, W: Outlet, V: Watch<R>>(
        &self,
        serving: &Serving<'_, '_, R, V>,
        passes: &mut [Passes<J>],
        heads: &mut Heads<I>,
        n: u32,
        out: &mut W,
    ) -> bool
        requires some { 0 < length passes.old }
        requires no_fault { heads.old.fault ≡ None }
        requires few { n ≤ 1000 }
        ensures next { ServesNext S.Source J.honest self.now n (reads I.remaining I.fails heads.old heads.new)
            (writes W.contents W.fails out.old out.new) result }
        ensures goes_on { result ≡ true → heads.new.fault ≡ None }
        ensures few { result ≡ true → n < 1000 }
    {
        let call = match heads.read_head() {
            Ok(Some(call)) => closing_call(call, n),
            Ok(None) => return false,
            Err(HeadFault::Bad | HeadFault::TooLong) => {
                let begun = serving.watch.begin(serving.rt);
                let outcome = close_for_head(serving.alloc, out);
                serving.watch.report(serving.rt, begun, None, &outcome);
                return false;
            }
            Err(HeadFault::NoMemory) => {
                let begun = serving.watch.begin(serving.rt);
                let outcome = close_for_memory(out);
                serving.watch.report(serving.rt, begun, None, &outcome);
                return false;
            }
            Err(HeadFault::Cut | HeadFault::Io) => return false,
        };
        self.serve_call(serving, passes, &call, out)
    }

    /// Answers the calls of a connection in order, until its input ends, a call closes it, its 1,000th call was answered, an
    /// answer is cut off, or a head is at fault. The watch is told of each answer once it ended, in order; `()` watches nothing.
    pub fn serve_stream<I: Inlet + Drop, W: Outlet, V: Watch<R>>(
        &self,
        serving: &Serving<'_, '_, R, V>,
        passes: &mut [Passes<J>],
        reader: I,
        out: &mut W,
    )
        requires { 0 < length passes.old }
        ensures serves { ServesKnown S.Source J.honest self.now I.fails (writes W.contents W.fails out.old out.new) (I.remaining reader) }
        ensures came { ServesCame S.Source J.honest self.now I.fails (writes W.contents W.fails out.old out.new) }
    {
        let Ok(mut heads) = Heads::new(serving.alloc, reader) else {
            let begun = serving.watch.begin(serving.rt);
            let outcome = close_for_memory(out);
            serving.watch.report(serving.rt, begun, None, &outcome);
            return;
        };
        let mut n = 1;
        'calls: while self.serve_next(serving, passes, &mut heads, n, out) {
            n += 1;
        }
    }
}
