//! The least rate at which an answer is to be taken.

ghost use Rattle.std.specs.Prelude.{◌≡◌};
ghost use Rattle.iiif_listener.specs.Flow.{begun, goes_on, taken_by, waited_for as waited_in};

/// The milliseconds of a write from which on it says something of its reader.
const AT_ONCE: u64 = 50;

/// Returns how long a write waited for its reader, of the milliseconds that it took: 0 where it took less than 50. The system's buffers took
/// its bytes then, and a busy machine its time.
pub fn waited_for(millis: u64) -> u64
    ensures { result ≡ waited_in millis }
{
    if millis < AT_ONCE { 0 } else { millis }
}

/// The least rate of a reader: so many bytes a second, over each period of so many milliseconds of waiting. At 0 bytes it may be as slow as
/// it likes.
#[derive(Clone, Copy, PartialEq, Eq)]
pub struct Rate {
    pub bytes: u64,
    pub period: u32,
}

/// The rate of an answer so far: the bytes written, and the time waited for that, since the rate was last looked at.
#[derive(Clone, Copy, PartialEq, Eq, Drop)]
pub struct Flow {
    rate: Rate,
    waited: u64,
    taken: u64,
}

impl Flow {
    /// Makes the flow of a connection to which nothing was written yet.
    pub fn new(rate: Rate) -> Flow
        ensures { result ≡ begun rate }
    {
        Flow {
            rate,
            waited: 0,
            taken: 0,
        }
    }

    /// Counts a write that waited so many milliseconds, and returns whether the answer goes on. Bytes of one that didn't wait were taken by
    /// the system's buffers, and say nothing of the reader: they count for neither. Once the waits add up to the period, the rate is looked
    /// at, and all begins anew.
    pub fn take(&mut self, waited: u64, bytes: u64) -> bool
        ensures value { result ≡ goes_on self.old waited bytes }
        ensures state { self.new ≡ taken_by self.old waited bytes }
    {
        if waited == 0 {
            return true;
        }
        let waited = self.waited.saturating_add(waited);
        let taken = self.taken.saturating_add(bytes);
        if waited < u64::from(self.rate.period) {
            self.waited = waited;
            self.taken = taken;
            return true;
        }
        self.waited = 0;
        self.taken = 0;
        u128::from(self.rate.bytes) * u128::from(waited) <= 1000 * u128::from(taken)
    }
}
