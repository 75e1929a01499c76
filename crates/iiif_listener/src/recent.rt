//! How fast a connection took what it was sent of late.

ghost use Rattle.std.specs.Prelude.{◌≡◌};
ghost use Rattle.iiif_listener.specs.Recent.{slow_rate, taken_late, unknown};

/// The milliseconds of waiting until a connection's rate is known.
const PERIOD: u64 = 10_000;

/// The milliseconds for which the rate counts.
const COUNTS_FOR: u64 = 20_000;

/// The bytes a second below which a rate is slow.
const LEAST: u64 = 64_000;

/// The rate at which a connection took what it was sent, over the last ten seconds in which it was waited for.
#[derive(Clone, Copy, PartialEq, Eq)]
pub struct Recent {
    /// The milliseconds of waiting since the rate was last known, and the bytes that were taken in them.
    pub(crate) waited: u64,
    pub(crate) taken: u64,
    /// The rate, in bytes a second. The greatest number where none is known yet.
    pub(crate) rate: u64,
    /// The time at which the rate was known, in milliseconds.
    pub(crate) ended: u64,
}

/// The rate of a connection to which nothing was sent yet.
pub(crate) const UNKNOWN: Recent = Recent {
    waited: 0,
    taken: 0,
    rate: u64::MAX,
    ended: 0,
};

impl Recent {
    /// Makes the rate of a connection to which nothing was sent yet.
    pub fn new() -> Recent
        ensures { result ≡ unknown }
    {
        UNKNOWN
    }

    /// Counts a write that ended now, and took so many milliseconds and bytes.
    pub fn take(&mut self, now: u64, waited: u64, bytes: u64)
        ensures { self.new ≡ taken_late self.old now waited bytes }
    {
        let waited = self.waited.saturating_add(waited);
        let taken = self.taken.saturating_add(bytes);
        if waited < PERIOD {
            self.waited = waited;
            self.taken = taken;
            return;
        }
        *self = Recent {
            waited: 0,
            taken: 0,
            rate: taken.saturating_mul(1_000) / waited,
            ended: now,
        };
    }

    /// Returns the rate, where it is slow and still counts.
    pub fn slow_rate(&self, now: u64) -> Option<u64>
        ensures { result ≡ slow_rate self.now now }
    {
        if self.rate < LEAST && now.saturating_sub(self.ended) <= COUNTS_FOR {
            return Some(self.rate);
        }
        None
    }
}
