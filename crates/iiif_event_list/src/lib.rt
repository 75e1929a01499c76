//! Lists of events as text: what describes a world, events, their outcomes and answers.
#![tactic(auto)]

pub mod describing;
pub mod fault;
pub mod list;
pub mod reading;
pub mod replaying;
mod rows;
pub mod values;

pub use list::replay;
use std::io;
use std::io::ErrorKind;
use thiserror::Error;

/// Behaviour of a replay at an event that isn't allowed.
#[derive(Clone, Copy, Debug, PartialEq, Eq)]
pub enum Mode {
    /// It judges a run: such an event stops it.
    Judging,
    /// It explores: the event isn't done, and the next line is read.
    Exploring,
}

/// Why a replay ends early.
#[derive(Clone, Copy, Debug, PartialEq, Eq, Error)]
pub enum Stop {
    /// A line is bad, by its number: the first such line, where blank lines and comments count, from 1 on.
    #[error("line {0}")]
    Line(u64),
    /// The event of a line isn't allowed, by the line's number.
    #[error("line {0}: not now")]
    NotNow(u64),
    /// Memory was refused.
    #[error("memory")]
    Memory,
    /// A line could not be read.
    #[error("read")]
    Read,
    /// The outcome of a line could not be written.
    #[error("write")]
    Write,
}

impl From<io::Error> for Stop {
    ghost use Rattle.std.specs.Prelude.{◌≡◌, ◌⊎◌};
    ghost use Rattle.iiif_event_list.specs.declared.Stop.TheVariants.{Memory, Write};

    ghost from_gives = { λ _ stop. (stop ≡ Memory) ⊎ (stop ≡ Write) };

    fn from(error: io::Error) -> Stop {
        if error.kind() == ErrorKind::OutOfMemory {
            Stop::Memory
        } else {
            Stop::Write
        }
    }
}
