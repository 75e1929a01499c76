//! The machine over events: nodes with their tables, requests, calls, flights, asks and replies, and what each event changes. Keys,
//! plans and images are functions of it. The definitions stand in `specs/`; the laws say what holds of every list of events. Beside
//! them stands what a world is made of in code, below the world itself: keys, tables and nodes as plain lists, and what is done to
//! rows one by one.
#![tactic(auto)]

pub use events::{Event, WorldFault};
pub use keys::{Key, Value};
pub use numbers::Numbers;
pub use rows::{
    Answer, Ask, Call, CallState, Caller, Flight, Given, Lead, Progress, Purpose, Reply,
    RequestInfo, RequestRow, Stage,
};
pub use short_request::ShortRequest;

pub mod caching;
pub mod calling;
pub mod events;
pub mod flights;
pub mod hearing;
pub mod keys;
pub mod laws;
pub mod listing;
pub mod making;
pub mod node;
pub mod numbers;
pub mod rows;
pub mod short_request;
pub mod stopping;
pub mod table;
