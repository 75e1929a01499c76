//! The starts of generations, as who asked for one hears of them.

ghost use Rattle.std.specs.Prelude.{◌≤◌};

use std::sync::{Mutex, Wait};

/// The outcome of a generation's start.
#[derive(Drop)]
pub struct Started {
    /// 0 where the generation serves, else the status of a program that fails to start so.
    pub status: u8,
    /// The number of images that it serves.
    pub images: u64,
    /// The lines to print of it.
    pub said: Vec<u8>,
    pub ghost within: { status ≤ 2 },
}

/// A slot for the outcome of the start at work.
#[derive(Drop)]
pub struct Starts {
    outcome: Mutex<Option<Started>>,
}

impl Starts {
    /// Makes an empty slot.
    pub fn new() -> Starts {
        Starts {
            outcome: Mutex::new(None),
        }
    }

    /// Stores the outcome of a start.
    pub fn tell<R: Wait>(&self, rt: &R, started: Started) {
        *self.outcome.lock(rt) = Some(started);
    }

    /// Takes the outcome, if there is one.
    pub fn take<R: Wait>(&self, rt: &R) -> Option<Started> {
        self.outcome.lock(rt).take()
    }
}
