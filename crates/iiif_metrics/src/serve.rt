//! The service of `/metrics` and `/health`.

ghost use Rattle.std.specs.Prelude.{◌≡◌, ◌∷◌, ◌++◌, [], ℕ, List, IfOk, IfSome, OnOk, bytes_eq, codes};
ghost use Rattle.std.specs.Io.KnownBytes.{Appends};
ghost use Rattle.iiif_http_front.specs.Methods.{method_text};
ghost use Rattle.iiif_http_front.specs.Statuses.{code_of};
ghost use Rattle.iiif_metrics.specs.declared.metrics.Telling.{Telling};
ghost use Rattle.iiif_metrics.specs.Serving.{IsExchange, Replies, Sends, answer_text, bad_text, health_answer, health_status};
ghost use Rattle.iiif_metrics.specs.Serving.{metrics_answer, refusal_text};

use crate::health::{Services, all_go_on, services_text};
use crate::metrics::{Metrics, PeerMetrics, Telling};
use crate::text::{NoMemory, metrics_text};
use iiif_http_front::{Call, Field, HeadFault, Heads, Method, Status, head_bytes};
use iiif_io::{Inlet, Outlet, send};
use std::alloc::Global;

const TEXT_FORMAT: Field<'static> = Field {
    name: "Content-Type",
    value: "text/plain; version=0.0.4",
};

const PLAIN: Field<'static> = Field {
    name: "Content-Type",
    value: "text/plain",
};

const ALLOW: Field<'static> = Field {
    name: "Allow",
    value: "GET",
};

/// Where the counters are read, as by a server of which they are told.
pub trait Measure<R> {
    /// Returns the counts so far.
    fn measure(&self, rt: &R) -> Metrics;

    /// Returns the counts so far of asks of other nodes. The only error is lack of memory.
    fn peers(&self, rt: &R, alloc: Global) -> Result<PeerMetrics, NoMemory>;

    /// Returns which services go on.
    fn services(&self, rt: &R) -> Services;
}

/// Joins a head and a body.
fn concat(mut head: Vec<u8>, body: &[u8]) -> Result<Vec<u8>, NoMemory>
    ensures { IfOk result (λ text. text.items ≡ head.items ++ body.now) }
{
    head.extend_from_slice(body)?;
    Ok(head)
}

/// Returns whether a call is a GET.
fn is_get(call: &Call) -> bool
    ensures { result ≡ bytes_eq (method_text call.now.method) (codes "GET") }
{
    match call.method {
        Method::Get => true,
        Method::Head => false,
        Method::Other(_) => false,
    }
}

/// Returns whether a target is that of the counters.
fn is_metrics(target: &[u8]) -> bool
    ensures { result ≡ bytes_eq target.now (codes "/metrics") }
{
    target == b"/metrics".as_slice()
}

/// Returns whether a target is that of the services.
fn is_health(target: &[u8]) -> bool
    ensures { result ≡ bytes_eq target.now (codes "/health") }
{
    target == b"/health".as_slice()
}

/// Makes an answer without a body to a call of another target.
fn other_target(alloc: Global) -> Result<Vec<u8>, NoMemory>
    ensures { IfOk result (λ text. text.items ≡ refusal_text 404 []) }
{
    head_bytes(alloc, Status::NotFound, &[PLAIN], 0, true)
}

/// Makes an answer without a body to a call of another method.
fn other_method(alloc: Global) -> Result<Vec<u8>, NoMemory>
    ensures { IfOk result (λ text. text.items ≡ refusal_text 405 ((codes "Allow", codes "GET") ∷ [])) }
{
    head_bytes(alloc, Status::MethodNotAllowed, &[PLAIN, ALLOW], 0, true)
}

/// Makes an answer without a body to bytes that are no head.
fn no_head(alloc: Global) -> Result<Vec<u8>, NoMemory>
    ensures { IfOk result (λ text. text.items ≡ bad_text) }
{
    head_bytes(alloc, Status::BadRequest, &[PLAIN], 0, true)
}

/// Makes the answer that tells the counters.
fn metrics_message(
    alloc: Global,
    metrics: &Metrics,
    peers: &PeerMetrics,
) -> Result<Vec<u8>, NoMemory>
    ensures { IfOk result (λ text. text.items ≡ metrics_answer metrics.now peers.now) }
{
    let body = metrics_text(alloc, metrics, peers)?;
    let text = body.as_slice();
    let head = head_bytes(alloc, Status::Ok, &[TEXT_FORMAT], text.len() as u64, true)?;
    concat(head, text)
}

/// Returns the status that says whether all services go on.
fn health_status(services: &Services) -> Status
    ensures { code_of result ≡ health_status services.now }
{
    if all_go_on(services) {
        Status::Ok
    } else {
        Status::ServiceUnavailable
    }
}

/// Makes the answer that tells which services go on.
fn health_message(alloc: Global, services: &Services) -> Result<Vec<u8>, NoMemory>
    ensures { IfOk result (λ text. text.items ≡ health_answer services.now) }
{
    let body = services_text(alloc, services)?;
    let text = body.as_slice();
    let head = head_bytes(
        alloc,
        health_status(services),
        &[PLAIN],
        text.len() as u64,
        true,
    )?;
    concat(head, text)
}

/// Makes the answer to a call: to GET of `/metrics` the counters, to GET of `/health` the services, 404 to GET of another target, 405 to
/// another method. The only error is lack of memory.
pub fn answer_bytes(alloc: Global, call: &Call, telling: &Telling) -> Result<Vec<u8>, NoMemory>
    ensures { IfOk result (λ text. text.items ≡ answer_text (method_text call.now.method) call.now.target.items telling.now) }
{
    if !is_get(call) {
        return other_method(alloc);
    }
    if is_metrics(&call.target) {
        return metrics_message(alloc, &telling.metrics, &telling.peers);
    }
    if is_health(&call.target) {
        return health_message(alloc, &telling.services);
    }
    other_target(alloc)
}

/// Sends a text.
fn send_text<W: Outlet>(out: &mut W, text: &[u8])
    ensures { (output : List ℕ) × Appends (W.contents out.old) (W.contents out.new) output ×
        Sends ((before : W) × W.fails before out.new) text.now output }
{
    let _ = send(out, text);
}

/// Answers what is no head.
fn send_bad<W: Outlet>(alloc: Global, out: &mut W) -> Result<(), NoMemory>
    ensures { OnOk result ((output : List ℕ) × Appends (W.contents out.old) (W.contents out.new) output ×
        Sends ((before : W) × W.fails before out.new) bad_text output) }
{
    let text = no_head(alloc)?;
    send_text(out, text.as_slice());
    Ok(())
}

/// Answers a call by what may be told now.
fn send_answer<R, M: Measure<R>, W: Outlet>(
    rt: &R,
    alloc: Global,
    source: &M,
    call: &Call,
    out: &mut W,
) -> Result<(), NoMemory>
    ensures { OnOk result ((output : List ℕ) × Appends (W.contents out.old) (W.contents out.new) output
        × ((t : Telling) × Sends ((before : W) × W.fails before out.new)
        (answer_text (method_text call.now.method) call.now.target.items t) output)) }
{
    let telling = Telling {
        metrics: source.measure(rt),
        peers: source.peers(rt, alloc)?,
        services: source.services(rt),
    };
    let text = answer_bytes(alloc, call, &telling)?;
    send_text(out, text.as_slice());
    Ok(())
}

/// Answers what was read at the front of a connection.
fn reply<R, M: Measure<R>, W: Outlet>(
    rt: &R,
    alloc: Global,
    source: &M,
    read: &Result<Option<Call>, HeadFault>,
    out: &mut W,
) -> Result<(), NoMemory>
    ensures { OnOk result ((output : List ℕ) × Appends (W.contents out.old) (W.contents out.new) output ×
        Replies ((before : W) × W.fails before out.new) read.now output) }
{
    match read {
        Ok(None) | Err(HeadFault::Cut | HeadFault::Io) => Ok(()),
        Err(HeadFault::NoMemory) => Err(NoMemory),
        Err(HeadFault::Bad | HeadFault::TooLong) => send_bad(alloc, out),
        Ok(Some(call)) => send_answer(rt, alloc, source, call, out),
    }
}

/// Answers the one call of a connection, which closes behind it. A head that is none is answered by 400. Where memory runs out, nothing
/// is answered.
pub fn serve_metrics<R, M: Measure<R>, I: Inlet + Drop, W: Outlet>(
    rt: &R,
    alloc: Global,
    source: &M,
    reader: I,
    out: &mut W,
) -> Result<(), NoMemory>
    // Where the bytes that the reader has left are known, the answer is that to all of them; where they are not, as at a socket, to
    // those that came.
    ensures known { IfSome (I.remaining reader)
        (λ input. OnOk result ((output : List ℕ) × Appends (W.contents out.old) (W.contents out.new) output
        × IsExchange ((before : W) × W.fails before out.new) input output)) }
    ensures came { OnOk result ((came : List ℕ) × (output : List ℕ) × Appends (W.contents out.old) (W.contents out.new) output
        × IsExchange ((before : W) × W.fails before out.new) came output) }
{
    let mut heads = Heads::new(alloc, reader)?;
    let read = heads.read_head();
    reply(rt, alloc, source, &read, out)
}
