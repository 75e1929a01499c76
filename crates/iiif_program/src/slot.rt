//! A value on its way from one thread to another.

use std::sync::{Condvar, Mutex, Wait};

/// Slot for a value, which one thread gives, and another takes.
#[derive(Drop)]
pub(crate) struct Slot<T> {
    value: Mutex<Option<T>>,
    given: Condvar,
}

impl<T: Drop> Slot<T> {
    /// Makes an empty slot.
    pub(crate) fn new() -> Slot<T> {
        Slot {
            value: Mutex::new(None),
            given: Condvar::new(),
        }
    }

    /// Gives a value, unless there is one that nobody took yet.
    pub(crate) fn give<R: Wait>(&self, rt: &R, value: T) {
        let mut slot = self.value.lock(rt);
        if slot.is_none() {
            *slot = Some(value);
        }
        self.given.notify_all();
    }

    /// Takes the value out, for which it waits.
    pub(crate) fn take<R: Wait>(&self, rt: &R) -> T {
        let mut slot = self.value.lock(rt);
        for _ in rt.forever() {
            if let Some(value) = slot.take() {
                return value;
            }
            slot = self.given.wait(rt, slot);
        }
        unreachable!()
    }
}
