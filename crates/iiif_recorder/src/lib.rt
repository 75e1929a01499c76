//! The record of a node: the lines of its steps, in their order, in a file.
#![tactic(auto)]

pub use gate::RecordGate;
pub use recorder::Recorder;
pub use waiting::Waiting;
pub use words::{step_words, unread_words};

pub mod gate;
pub mod recorder;
pub mod waiting;
pub mod words;
