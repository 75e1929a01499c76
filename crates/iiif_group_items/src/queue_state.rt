//! The state of a queue: the jobs that wait, and how many are at work.

ghost use Rattle.std.specs.Prelude.{◌≡◌, ℕ, ◌+◌, ◌^◌, ◌<◌, ◌≤◌, ◌⊎◌, [], IfNone, IfSome, None, false, true, vec_capacity, vec_len};
ghost use Rattle.iiif_group_items.specs.Turns.{HasRoom, IsAdmitted, IsNext, WaitsAt, WaitsNoLonger, WaitsNot, WaitsToo, rank_of, there};

use iiif_sum_group::StripedCondvar;
use std::alloc::Global;

/// By how many pixels of work less a job goes before one that came right before it. So a job is passed over by a bounded number of others.
const STEP: u64 = 4_194_304;

/// A job that waits: its number, and its place among the others, the least first.
#[derive(Clone, Copy, PartialEq, Eq)]
pub(crate) struct Waiting {
    number: u64,
    rank: u64,
}

/// A job that was admitted as another was released, and is still to be woken. It has no `Drop`, and `wake` alone consumes it: no such job
/// is left asleep.
pub(crate) struct Admitted {
    number: u64,
}

impl Admitted {
    /// Wakes the job.
    pub(crate) fn wake(self, waiting: &StripedCondvar) {
        let Admitted { number } = self;
        let _woken = waiting.wake(number);
    }
}

/// Returns the place of a job among those that wait. None where it isn't among them.
fn place_of(waiting: &[Waiting], number: u64) -> Option<usize>
    ensures some { IfSome result (λ place. WaitsAt waiting.now place number) }
    ensures none { IfNone result (WaitsNot waiting.now number) }
{
    for (place, one) in waiting.iter().enumerate() {
        if one.number == number {
            return Some(place);
        }
    }
    None
}

/// Returns the place of the job that is admitted next. None where none waits.
fn next_place(waiting: &[Waiting]) -> Option<usize>
    ensures some { IfSome result (λ place. IsNext waiting.now place) }
    ensures none { IfNone result (waiting.now ≡ []) }
{
    if waiting.is_empty() {
        return None;
    }
    let mut least = 0usize;
    for place in 1..waiting.len() {
        if waiting[place].rank < waiting[least].rank {
            least = place;
        }
    }
    Some(least)
}

/// State of a queue: its jobs, and how many are at work.
#[derive(Drop)]
pub(crate) struct QueueState {
    /// How many are at work at a time, where none of them is stuck.
    most: u64,
    /// How many were enqueued. It is the number of the next.
    came: u64,
    /// The jobs that wait, in the order in which they were enqueued.
    waiting: Vec<Waiting>,
    /// How many were admitted, and aren't released.
    at_work: u64,
}

impl QueueState {
    /// Makes an empty queue, of which so many jobs may be at work.
    pub(crate) fn new(alloc: Global, most: u32) -> QueueState
        ensures { there result ≡ 0 }
    {
        QueueState {
            most: u64::from(most),
            came: 0,
            waiting: Vec::new(alloc),
            at_work: 0,
        }
    }

    /// Returns whether a job waits.
    pub(crate) fn has(&self, number: u64) -> bool
        ensures waits { result ≡ true → (place : ℕ) × WaitsAt self.now.waiting.items place number }
        ensures waits_not { result ≡ false → WaitsNot self.now.waiting.items number }
    {
        place_of(&self.waiting, number).is_some()
    }

    /// Enqueues a job of so much work. Returns its number, and whether it is admitted at once: where there is room and none waits, or no
    /// memory to wait with.
    pub(crate) fn enqueue(&mut self, work: u64) -> (u64, bool)
        ensures number { result.0 ≡ self.old.came }
        ensures at_once { HasRoom self.old → result.1 ≡ true }
        ensures only { result.1 ≡ true → HasRoom self.old ⊎ (vec_capacity self.old.waiting ≤ vec_len self.old.waiting) }
        ensures stay { result.1 ≡ true → self.new.waiting.items ≡ self.old.waiting.items }
        ensures waits { result.1 ≡ false → WaitsToo self.old self.new result.0 (rank_of work result.0) }
        ensures counted { there self.old + 1 < 2 ^ 64 → there self.new ≡ there self.old + 1 }
    {
        let number = self.came;
        self.came = number.saturating_add(1);
        let rank = work.saturating_add(number.saturating_mul(STEP));
        let has_room = self.at_work < self.most && self.waiting.is_empty();
        if has_room || self.waiting.push(Waiting { number, rank }).is_err() {
            self.at_work = self.at_work.saturating_add(1);
            return (number, true);
        }
        (number, false)
    }

    /// Admits the next job, and returns its number. None where none waits.
    fn admit_next(&mut self) -> Option<u64>
        ensures next { IfSome result (λ n. IsAdmitted self.old self.new n) }
        ensures none { IfNone result ((self.old.waiting.items ≡ []) × (self.new ≡ self.old)) }
        ensures counted { there self.old + 1 < 2 ^ 64 → there self.new ≡ there self.old }
    {
        let place = next_place(&self.waiting)?;
        let next = self.waiting.remove(place);
        self.at_work = self.at_work.saturating_add(1);
        Some(next.number)
    }

    /// Admits a job where it is the next, though there may be no room. Returns whether it was admitted.
    pub(crate) fn admit_if_next(&mut self, number: u64) -> bool
        ensures next { result ≡ true → IsAdmitted self.old self.new number }
        ensures same { result ≡ false → self.new ≡ self.old }
        ensures counted { there self.old + 1 < 2 ^ 64 → there self.new ≡ there self.old }
    {
        match next_place(&self.waiting) {
            Some(place) if self.waiting[place].number == number => {
                self.waiting.remove(place);
                self.at_work = self.at_work.saturating_add(1);
                true
            }
            _ => false,
        }
    }

    /// Takes a job out of those that wait. Returns whether it waited.
    fn withdraw(&mut self, number: u64) -> bool
        ensures gone { result ≡ true → WaitsNoLonger self.old self.new number × (self.new.at_work ≡ self.old.at_work) }
        ensures same { result ≡ false → (self.new ≡ self.old) × WaitsNot self.old.waiting.items number }
        ensures counted { result ≡ true → there self.new + 1 ≡ there self.old }
    {
        match place_of(&self.waiting, number) {
            Some(place) => {
                self.waiting.remove(place);
                true
            }
            None => false,
        }
    }

    /// Releases a job: one that is done, and the next is admitted, which is to be woken; or one that waits no longer, and none is admitted.
    pub(crate) fn release(&mut self, number: u64) -> Option<Admitted>
        ensures next { IfSome result (λ c. WaitsNot self.old.waiting.items number × IsAdmitted self.old self.new c.number) }
        ensures none { IfNone result (WaitsNoLonger self.old self.new number
            ⊎ ((self.old.waiting.items ≡ []) × (self.new.waiting.items ≡ []))) }
        ensures counted { there self.old + 1 < 2 ^ 64 → 0 < self.old.at_work → there self.new + 1 ≡ there self.old }
    {
        if self.withdraw(number) {
            return None;
        }
        self.at_work = self.at_work.saturating_sub(1);
        match self.admit_next() {
            Some(number) => Some(Admitted { number }),
            None => None,
        }
    }
}
