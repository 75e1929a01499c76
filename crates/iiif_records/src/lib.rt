//! Records of nodes: the lines that a node writes of its steps, and how they stand beside a replay, where the machine's node has to write
//! the same.
#![tactic(auto)]

pub use line::{Step, class_word, push_line, push_step};
pub use steps::{Verdict, judge};

pub mod line;
pub mod steps;
