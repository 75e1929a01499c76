//! Idle workers.

ghost use Rattle.std.specs.Prelude.{◌≡◌, ◌-◌, ◌<◌, [], IfOk, IfSome, length, max, true};

use std::alloc::{AllocError, Global};
use std::sync::{Mutex, Wait};

/// An idle worker that was taken to help: it goes back to its place once it is dropped, so whoever takes one gives it back, once.
pub(crate) struct Worker<'x, 'a, P, R: Wait> {
    rt: &'x R,
    idle: &'x IdleWorkers<'a, P>,
    place: usize,
    pass: &'a mut P,
}

impl<'x, 'a, P, R: Wait> Worker<'x, 'a, P, R> {
    /// Returns the pass that the worker asks with.
    pub(crate) fn pass(&mut self) -> &mut P {
        self.pass
    }

    /// Counts the workers that were idle when this one was taken, with it, at most: those with places before its own were busy.
    pub(crate) fn idle_count(&self) -> usize
        ensures { result ≡ max (length self.now.idle.now.places.items - self.now.place) 1 }
    {
        self.idle.places.len().saturating_sub(self.place).max(1)
    }
}

impl<'x, 'a, P, R: Wait> Drop for Worker<'x, 'a, P, R> {
    /// Puts the worker back, which is idle again.
    fn drop(self) {
        let Worker {
            rt,
            idle,
            place,
            pass,
        } = self;
        if let Some(place) = idle.places.get(place) {
            *place.lock(rt) = Some(pass);
        }
    }
}

/// The idle workers of a job, by their passes. A busy worker takes one of them to share its work with. None waits for another. A pass's
/// value is unknown once it went through here.
#[derive(Drop)]
pub(crate) struct IdleWorkers<'a, P> {
    places: Vec<Mutex<Option<&'a mut P>>>,
}

impl<'a, P> IdleWorkers<'a, P> {
    /// Makes room for no worker.
    pub(crate) fn empty(alloc: Global) -> IdleWorkers<'a, P>
        ensures { result.places.items ≡ [] }
    {
        IdleWorkers {
            places: Vec::new(alloc),
        }
    }

    /// Makes a worker of each pass. The only error is lack of memory.
    pub(crate) fn new(alloc: Global, passes: &'a mut [P]) -> Result<IdleWorkers<'a, P>, AllocError>
        ensures all { IfOk result (λ i. length i.places.items ≡ length passes.old) }
    {
        let mut places = Vec::new(alloc);
        for pass in passes.iter_mut() {
            places.push(Mutex::new(Some(pass)))?;
        }
        Ok(IdleWorkers { places })
    }

    /// Says whether the job has no other worker, idle or busy. No lock is taken for this.
    pub(crate) fn is_empty(&self) -> bool
        ensures { result ≡ true → self.now.places.items ≡ [] }
    {
        self.places.is_empty()
    }

    /// Takes an idle worker, if there is one. It isn't waited for.
    pub(crate) fn take<'x, R: Wait>(&'x self, rt: &'x R) -> Option<Worker<'x, 'a, P, R>>
        ensures { IfSome result (λ w. w.place < length self.now.places.items) }
    {
        for place in 0..self.places.len() {
            if let Some(pass) = self.places[place].lock(rt).take() {
                return Some(Worker {
                    rt,
                    idle: self,
                    place,
                    pass,
                });
            }
        }
        None
    }
}
