//! Answers, apart from the node that makes them: a server's settings, the outcomes of targets and calls, the answers as they are written,
//! and their laws.
#![tactic(auto)]

pub use answer::{Cause, Cut, Sent};
pub use base_url::is_base_url;
pub use config::{Config, ConfigFault};
pub use part::Part;

pub mod accepted;
pub mod answer;
mod base_url;
pub mod calls;
pub mod config;
pub mod images;
pub mod laws;
pub mod message;
pub mod outcome;
pub mod part;
pub mod sending;
