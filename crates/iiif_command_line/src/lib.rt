//! The command line: what its words ask for, or the first thing that is wrong with them.
#![tactic(auto)]

pub use line::{
    Limits, LineFault, Listed, Mode, Options, Telling, matches, options_in, telling_in,
};

pub mod line;
