//! Ways to other nodes: one ask over any writer that turns into a reader; links over TCP that connect anew for each ask within a limit of
//! time, leave a node alone that fails, and tell so; and looks, by which a node that hangs is found before it is asked. What nodes answer
//! is said by the runtime that reaches them.
#![tactic(auto)]

pub use addresses::Addresses;
pub use ask::ask_over;
pub use exchange::Exchange;
pub use health::{AskSlot, Health};
pub use look::{Found, Look, leads_to};
pub use peer::{NoMemory, Peer, Stopwatch};
pub use reaches::Reaches;
pub use refusals::Refusals;
pub use tcp::TcpLink;
pub use timed::{Deadline, Timed};
pub use values::{ask_spelled_over, ask_value_over, spelled_key};
pub use versions::version_for;
pub use within::Within;

pub mod addresses;
pub mod ask;
mod connection;
pub mod ends;
pub mod exchange;
pub mod health;
pub mod lengths;
pub mod look;
pub mod peer;
pub mod reaches;
pub mod refusals;
mod system;
pub mod tcp;
pub mod timed;
pub mod values;
pub mod versions;
pub mod within;
