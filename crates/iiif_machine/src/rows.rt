//! The rows of a world: requests, calls, flights, asks and replies. The part of a row that never changes is a record of its own.

use crate::keys::{Key, Value};
use crate::numbers::Numbers;
use iiif_canonical::Resolved;
use iiif_keys::Name;
use iiif_pixel::Raster;
use iiif_request::{Refusal, Request};
use iiif_source::ReadFault;
use iiif_tables::{Class, Place};

/// A fault that a source gave: at which node, and the source of which name.
#[derive(Drop)]
pub struct Given {
    pub node: usize,
    pub name: Name,
    pub fault: ReadFault,
}

/// The purpose for which a call is made.
#[derive(Clone, Copy)]
pub enum Purpose {
    /// An item of a request's plan.
    ForRequest(usize),
    /// A part of a flight's sum.
    ForPart(usize),
    /// The key of a wide flight that asked in vain.
    ForFallback(usize),
    /// The key that an ask names.
    ForAsk(usize),
}

/// The part of a call that never changes.
#[derive(Drop)]
pub struct Caller {
    pub node: usize,
    pub key: Key,
    pub class: Class,
    pub purpose: Purpose,
}

/// The progress of a call.
#[derive(Drop)]
pub enum CallState {
    /// It has not entered.
    Fresh,
    /// It found a value.
    Hit(Value),
    /// It leads or has joined a flight, and knows the outcome once that has ended.
    In(usize),
    /// It went with its node.
    Gone,
}

/// A node's call for the value of a key.
#[derive(Drop)]
pub struct Call {
    pub caller: Caller,
    pub state: CallState,
}

/// The part of a flight that never changes. Its ticket is that of the node's table.
#[derive(Drop)]
pub struct Lead {
    pub node: usize,
    pub key: Key,
    pub class: Class,
    pub ticket: u64,
}

/// The stage of a flight.
#[derive(Drop)]
pub enum Stage {
    New,
    /// Its leader looked again and found nothing.
    Looked,
    /// It asked the owner of the key.
    Asking,
    /// It asked in vain, and goes on by a local call of its own, once that is made.
    Fallback(Option<usize>),
    /// Its sum waits for the calls of its parts.
    Parts(Numbers),
    /// It has its outcome, and where a value is to be kept.
    Ready(Result<Value, ReadFault>, Place),
    /// It landed with an outcome, or ended without one, with its node.
    Ended(Option<Result<Value, ReadFault>>),
}

/// One fetching of a key's value, for all calls of a node and class that wait for it.
#[derive(Drop)]
pub struct Flight {
    pub lead: Lead,
    pub stage: Stage,
}

/// An ask of a flight for its key, at the node that owns the key. The version is that of its message.
#[derive(Drop)]
pub struct Ask {
    pub node: usize,
    pub key: Key,
    pub flight: usize,
    pub version: u8,
}

/// The outcome that a call knew which served an ask for the key.
#[derive(Drop)]
pub struct Reply {
    pub key: Key,
    pub outcome: Result<Value, ReadFault>,
}

/// The part of a request that never changes: its node, the image's name, and the words that ask for a part of it.
#[derive(Drop)]
pub struct RequestInfo {
    pub node: usize,
    pub name: Name,
    pub request: Request,
}

/// The answer to a request.
#[derive(Drop)]
pub enum Answer {
    Refused(Refusal),
    Image(Raster),
    /// The first fault of its plan's items.
    Failed(ReadFault),
}

/// The progress of a request.
#[derive(Drop)]
pub enum Progress {
    /// It waits for the calls of its plan's items.
    Waiting(Resolved, Numbers),
    Answered(Answer),
    /// It went with its node.
    Dropped,
}

/// A request, with its progress.
#[derive(Drop)]
pub struct RequestRow {
    pub info: RequestInfo,
    pub progress: Progress,
}
