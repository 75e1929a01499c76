//! Reads of files that failed, until they are told.

ghost use Rattle.std.specs.Prelude.{◌≡◌};
ghost use Rattle.iiif_open_files.specs.Failures.{reason_text};

use std::alloc::Global;
use std::collections::VecDeque;
use std::io::{Error, ErrorKind};
use std::sync::atomic::{AtomicU64, Ordering};
use std::sync::{Arc, Mutex, Wait};

/// The most failures that wait to be told.
const MOST: usize = 64;

/// The errors of Linux that have no kind: the system, and the process, have as many open files as they may.
const ENFILE: i32 = 23;

const EMFILE: i32 = 24;

/// Why a read of a file failed.
#[derive(Clone, Copy, Debug, PartialEq, Eq)]
pub enum FailureReason {
    /// There is nothing of the path any more.
    Missing,
    /// The process may not open it.
    Denied,
    /// The process, or the system, has as many open files as it may.
    TooManyFiles,
    /// The system doesn't open it, for another reason.
    Unopened,
    /// It was changed, or something else has its path.
    Changed,
    /// It became shorter.
    Shorter,
    /// The system refused the read, as of a device that fails.
    Refused,
}

impl FailureReason {
    /// Finds the reason for which a file wasn't opened.
    pub fn new(error: &Error) -> FailureReason {
        match error.kind() {
            ErrorKind::NotFound => FailureReason::Missing,
            ErrorKind::PermissionDenied => FailureReason::Denied,
            ErrorKind::InvalidInput => FailureReason::Changed,
            _ => reason_of_code(error.raw_os_error()),
        }
    }

    /// Returns the word for it.
    pub fn text(self) -> &'static str
        ensures { result.now ≡ reason_text self }
    {
        match self {
            FailureReason::Missing => "missing",
            FailureReason::Denied => "denied",
            FailureReason::TooManyFiles => "too-many-files",
            FailureReason::Unopened => "unopened",
            FailureReason::Changed => "changed",
            FailureReason::Shorter => "shorter",
            FailureReason::Refused => "refused",
        }
    }
}

/// Finds the reason of an error that has no kind, by its code.
fn reason_of_code(code: Option<i32>) -> FailureReason {
    match code {
        Some(ENFILE) => FailureReason::TooManyFiles,
        Some(EMFILE) => FailureReason::TooManyFiles,
        _ => FailureReason::Unopened,
    }
}

/// A read that failed: the file's path, the offset where the read began, and why.
#[derive(Drop)]
pub struct ReadFailure {
    pub path: Arc<String>,
    pub place: u64,
    pub reason: FailureReason,
}

/// The reads that failed: how many there were, and the first of those that weren't told yet.
#[derive(Drop)]
pub struct ReadFailures {
    waiting: Mutex<VecDeque<ReadFailure>>,
    count: AtomicU64,
}

impl ReadFailures {
    /// Begins with no failure.
    pub fn new(alloc: Global) -> ReadFailures {
        ReadFailures {
            waiting: Mutex::new(VecDeque::new(alloc)),
            count: AtomicU64::new(0),
        }
    }

    /// Returns how many reads failed so far.
    pub fn count(&self) -> u64 {
        self.count.load(Ordering::SeqCst)
    }

    /// Counts a failed read, and keeps it until it is told. Where 64 wait, or memory runs out, it is counted alone.
    pub(crate) fn note<R: Wait>(
        &self,
        rt: &R,
        path: &Arc<String>,
        place: u64,
        reason: FailureReason,
    ) {
        self.count.fetch_add(1, Ordering::SeqCst);
        let Ok(path) = path.clone() else {
            return;
        };
        let mut waiting = self.waiting.lock(rt);
        if waiting.len() < MOST {
            let _ = waiting.push_back(ReadFailure {
                path,
                place,
                reason,
            });
        }
    }

    /// Takes the failure that waits longest, if one does.
    pub fn take<R: Wait>(&self, rt: &R) -> Option<ReadFailure> {
        self.waiting.lock(rt).pop_front()
    }
}
