//! Condition variables for callers that wait for numbers.

use std::sync::Condvar;

/// Sixteen condition variables, each for the numbers of one remainder: waking for a number wakes the callers of its stripe alone, so that
/// few wake in vain.
#[derive(Drop)]
pub struct StripedCondvar {
    stripes: [Condvar; 16],
}

impl StripedCondvar {
    /// Makes the condition variables, on which nobody waits.
    pub fn new() -> StripedCondvar {
        StripedCondvar {
            stripes: [
                Condvar::new(),
                Condvar::new(),
                Condvar::new(),
                Condvar::new(),
                Condvar::new(),
                Condvar::new(),
                Condvar::new(),
                Condvar::new(),
                Condvar::new(),
                Condvar::new(),
                Condvar::new(),
                Condvar::new(),
                Condvar::new(),
                Condvar::new(),
                Condvar::new(),
                Condvar::new(),
            ],
        }
    }

    /// Returns the condition variable of a number, to wait on.
    pub fn stripe(&self, number: u64) -> &Condvar {
        &self.stripes[(number % 16) as usize]
    }

    /// Wakes the callers that wait for a number.
    pub fn wake(&self, number: u64) {
        self.stripe(number).notify_all();
    }
}
