//! The greatest of numbers that threads tell.

use std::sync::{Mutex, Wait};

/// The greatest number that was told so far, which threads share.
#[derive(Drop)]
pub(crate) struct Peak {
    most: Mutex<u64>,
}

impl Peak {
    /// Makes the peak of no number.
    pub(crate) fn new() -> Peak {
        Peak {
            most: Mutex::new(0),
        }
    }

    /// Takes in a number.
    pub(crate) fn raise<R: Wait>(&self, rt: &R, number: u64) {
        let mut most = self.most.lock(rt);
        *most = (*most).max(number);
    }

    /// Returns the greatest; 0 where none was told.
    pub(crate) fn most<R: Wait>(&self, rt: &R) -> u64 {
        *self.most.lock(rt)
    }
}
