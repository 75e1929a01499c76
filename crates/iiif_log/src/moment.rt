//! Instants of UTC.

ghost use Rattle.std.specs.Prelude.{◌≡◌, ◌<◌, ◌-◌, ◌++◌, ℕ, List, min, OnOk, string_bytes};
ghost use Rattle.iiif_log.specs.Moments.{IsMomentText};

use jiff::civil::DateTime;
pub use std::alloc::AllocError as NoMemory;
use std::fmt::Write;
use std::time::{Clock, SystemTime, UNIX_EPOCH};

/// The last millisecond that a line can tell: the last one of the year 9999.
pub const LAST: u64 = 253_402_300_799_999;

/// An instant of UTC from 1970 to the year 9999.
#[derive(Clone, Copy, PartialEq, Eq)]
pub struct Moment {
    /// The milliseconds since 1970.
    pub millis: u64,
    pub ghost within: { millis < 253_402_300_800_000 },
}

impl Moment {
    /// So many milliseconds after the beginning of 1970, or the last instant of the year 9999.
    pub fn of_millis(millis: u64) -> Moment
        ensures { result.millis ≡ min millis 253_402_300_799_999 }
    {
        Moment {
            millis: millis.min(LAST),
        }
    }

    /// The moment that the clock reads. Where it can't be read, or stands before 1970, that is the beginning of 1970.
    pub fn now<R: Clock>(rt: &R) -> Moment {
        let Ok(now) = SystemTime::now(rt) else {
            return Moment::of_millis(0);
        };
        let Ok(since) = now.duration_since(UNIX_EPOCH) else {
            return Moment::of_millis(0);
        };
        Moment::of_millis(u64::try_from(since.as_millis()).unwrap_or(LAST))
    }
}

/// Writes an instant as RFC 3339 does (section 5.6), with three places of a second.
pub fn push_moment(text: &mut String, moment: Moment) -> Result<(), NoMemory>
    ensures { OnOk result ((added : List ℕ) × (string_bytes text.new ≡ string_bytes text.old ++ added) × IsMomentText moment.millis added) }
{
    let seconds = moment.millis / 1000;
    let millis = moment.millis % 1000;
    let nanos = seconds as i128 * 1_000_000_000;
    let second = DateTime::from_plain(jiff_core::civil::DateTime::from_nanosecond_in_range(nanos));
    let (hundreds, tens, ones) = (millis / 100, millis / 10 % 10, millis % 10);
    write!(text, "{second}.{hundreds}{tens}{ones}Z")
}
