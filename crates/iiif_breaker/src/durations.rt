//! How long asks took.

ghost use Rattle.std.specs.Prelude.{◌≡◌};
ghost use Rattle.iiif_breaker.specs.Durations.{grown, lasted, no_time};

/// How long asks of all links took. A count stays at the greatest number of 64 bits.
#[derive(Clone, Copy, PartialEq, Eq)]
pub struct Durations {
    /// How many took at most 1, 5, 10, 50, 100 and 500 milliseconds, 1 second and 10 seconds.
    pub within: [u64; 8],
    /// How many there were.
    pub all: u64,
    /// How long they took together, in microseconds.
    pub micros: u64,
}

/// One more where an ask took at most so many microseconds.
fn grown(count: u64, micros: u64, most: u64) -> u64
    ensures { result ≡ grown count micros most }
{
    if micros <= most {
        count.saturating_add(1)
    } else {
        count
    }
}

impl Durations {
    /// Of no ask.
    pub fn new() -> Durations
        ensures { result ≡ no_time }
    {
        Durations {
            within: [0; 8],
            all: 0,
            micros: 0,
        }
    }

    /// One more ask took so many microseconds.
    pub fn count(&mut self, micros: u64)
        ensures { self.new ≡ lasted self.old micros }
    {
        let within = self.within;
        self.within = [
            grown(within[0], micros, 1_000),
            grown(within[1], micros, 5_000),
            grown(within[2], micros, 10_000),
            grown(within[3], micros, 50_000),
            grown(within[4], micros, 100_000),
            grown(within[5], micros, 500_000),
            grown(within[6], micros, 1_000_000),
            grown(within[7], micros, 10_000_000),
        ];
        self.all = self.all.saturating_add(1);
        self.micros = self.micros.saturating_add(micros);
    }
}
