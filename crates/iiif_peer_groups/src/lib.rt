//! Replies of a node's groups to other nodes: the value of a key that names something, or why there is none, without another node.
#![tactic(auto)]

pub use peers::Peers;

mod keys;
pub mod peers;
mod replies;
