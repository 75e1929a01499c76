//! Queues of jobs, which admit so many of them at a time.

ghost use Rattle.std.specs.Prelude.{◌≡◌};

use crate::queue_state::QueueState;
use iiif_sum_group::StripedCondvar;
use std::alloc::Global;
use std::sync::{CondvarTimeouts, Mutex, Wait};
use std::time::{Clock, Duration, Instant};

/// For how many milliseconds a queue admits no job before it admits one more, beside those at work: reads of these may have stalled.
const PATIENCE: u64 = 500;

/// From how many pixels of work on a job is a heavy one. So many take a worker some 50 milliseconds.
const HEAVY: u64 = 16_777_216;

/// A job in a queue, which waits or is admitted: its work, and its number among those of its queue. It has no `Drop`, and
/// `JobQueue::release` alone consumes it.
pub struct Queued {
    work: u64,
    number: u64,
}

/// The state of a queue, and when it last admitted a job.
#[derive(Drop)]
struct Line {
    state: QueueState,
    changed: Option<Instant>,
}

impl Line {
    /// Notes that a job is admitted now.
    fn change<R: Clock>(&mut self, rt: &R) {
        self.changed = Instant::now(rt).ok();
    }

    /// Returns whether none was admitted for so long that one more may be. Without a clock it is so.
    fn is_stuck<R: Clock>(&self, rt: &R) -> bool {
        let Some(changed) = self.changed else {
            return true;
        };
        match changed.elapsed(rt) {
            Ok(passed) => passed >= Duration::from_millis(PATIENCE),
            Err(_) => true,
        }
    }
}

/// A queue that admits so many jobs at a time. Those that wait are admitted one by one, those of less work before those that were enqueued
/// a little earlier.
#[derive(Drop)]
struct Queue {
    line: Mutex<Line>,
    waiting: StripedCondvar,
}

impl Queue {
    fn new(alloc: Global, most: u32) -> Queue {
        Queue {
            line: Mutex::new(Line {
                state: QueueState::new(alloc, most),
                changed: None,
            }),
            waiting: StripedCondvar::new(),
        }
    }

    /// Enqueues a job, and returns its number.
    fn enqueue<R: Wait + Clock>(&self, rt: &R, work: u64) -> u64 {
        let mut line = self.line.lock(rt);
        let (number, is_admitted) = line.state.enqueue(work);
        if is_admitted {
            line.change(rt);
        }
        number
    }

    /// Waits until a job is admitted, for so long at most, and says whether it is.
    fn wait<R: Wait + Clock>(&self, rt: &R, number: u64, limit: Duration) -> bool {
        let line = self.line.lock(rt);
        let (mut line, _) = self
            .waiting
            .stripe(number)
            .wait_timeout_while(rt, line, limit, |line| line.state.has(number));
        if line.is_stuck(rt) && line.state.admit_if_next(number) {
            line.change(rt);
        }
        !line.state.has(number)
    }

    /// Releases a job, which is done, and admits the next; or which waits no longer. So where one more was admitted, as others were stuck,
    /// there is room for it until none waits.
    fn release<R: Wait + Clock>(&self, rt: &R, number: u64) {
        let mut line = self.line.lock(rt);
        match line.state.release(number) {
            Some(admitted) => {
                line.change(rt);
                drop(line);
                admitted.wake(&self.waiting);
            }
            None => drop(line),
        }
    }
}

/// Admission of images to the making of their blocks. Without it each of 64 viewers has its workers, which take the processors from one
/// another. Heavy jobs have a queue of their own: light ones don't wait for them, and of many whose viewers go away few are begun.
#[derive(Drop)]
pub struct JobQueue {
    light: Queue,
    heavy: Queue,
}

impl JobQueue {
    /// Makes empty queues with room for so many light jobs at a time, and for so many heavy ones.
    pub fn new(alloc: Global, light: u32, heavy: u32) -> JobQueue {
        JobQueue {
            light: Queue::new(alloc, light),
            heavy: Queue::new(alloc, heavy),
        }
    }

    /// Returns the queue of a job of so much work.
    fn queue(&self, work: u64) -> &Queue {
        if work < HEAVY {
            &self.light
        } else {
            &self.heavy
        }
    }

    /// Enqueues a job of so much work. Where there is room and none waits it is admitted at once.
    pub fn enqueue<R: Wait + Clock>(&self, rt: &R, work: u64) -> Queued
        ensures { result.work ≡ work }
    {
        let number = self.queue(work).enqueue(rt, work);
        Queued { work, number }
    }

    /// Waits until a job is admitted, for so long at most, and says whether it is. One is in each half second, however many are at work.
    pub fn wait<R: Wait + Clock>(&self, rt: &R, job: &Queued, limit: Duration) -> bool {
        self.queue(job.work).wait(rt, job.number, limit)
    }

    /// Takes a job out of its queue, which is done or waits no longer.
    pub fn release<R: Wait + Clock>(&self, rt: &R, job: Queued) {
        let Queued { work, number } = job;
        self.queue(work).release(rt, number);
    }
}
