//! The messages between nodes, asks for tiles and sums and replies, and the connections on which asks are answered in order.
#![tactic(auto)]

pub use ask::{Ask, read_ask, write_ask};
pub use fault::WireFault;
pub use reply::{read_reply, write_reply};
pub use serve::{Answers, serve_peer};
pub use version::Version;

pub mod ask;
pub mod fault;
mod fields;
pub mod laws;
pub mod reply;
mod sending;
pub mod serve;
pub mod version;
