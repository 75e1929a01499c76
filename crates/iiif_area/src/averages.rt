//! Averages of sums, rounded to samples.

ghost use Rattle.std.specs.Prelude.{◌≡◌, ◌+◌, ◌*◌, ◌/◌, ◌<◌, ◌≤◌, ◌^◌, ◌++◌, map, min, length, IfSome, vec_len, vec_capacity};
ghost use Rattle.iiif_pixel.specs.Geometry.{top_of};
ghost use Rattle.iiif_pixel.specs.Depths.{values_of, depth_of, capacity_of};
ghost use Rattle.iiif_area.specs.Grid.{average_within};

use iiif_pixel::Samples;
use std::marker::Model;
use std::mem::replace;

/// The largest area, in places, whose averages of 8 bits need no correction: 256 times its square is below 2^55.
const SMALL_AREA: u64 = 8_388_608;

/// Averages over a region's area, by the reciprocal of the area in place of a division.
#[derive(Drop)]
pub struct Averager {
    area: u64,
    reciprocal: u64,
}

impl Model for Averager {
    ghost use Rattle.std.specs.Prelude.{◌≡◌, ℕ, ◌/◌, ◌<◌, ◌≤◌, ◌^◌};

    ghost Value = { ℕ };

    ghost view = { λ a. a.area };

    ghost invariant = { λ a. (0 < a.area) × (a.area ≤ 2 ^ 32) × (a.reciprocal ≡ 2 ^ 48 / a.area) };
}

impl Averager {
    /// Prepares averages over an area, a number of places.
    #[inline]
    pub fn new(area: u64) -> Averager
        requires { (0 < area) × (area ≤ 2 ^ 32) }
        ensures { result ≡ area }
    {
        Averager {
            area,
            reciprocal: (1 << 48) / area,
        }
    }

    /// Returns the average of a sum over the area, rounded to the nearest whole number, a half up, and `top` for any above it.
    #[inline]
    pub fn average(&self, sum: u64, top: u16) -> u16
        ensures { result ≡ average_within self.now top sum }
    {
        let above = (u64::from(top) + 1) * self.area;
        let parts = sum.saturating_add(self.area / 2).min(above - 1);
        self.quotient(parts) as u16
    }

    /// Divides `parts` by the area. Since the reciprocal was rounded down, its quotient may be one too low.
    #[inline]
    fn quotient(&self, parts: u64) -> u64
        requires { parts < 65536 * self.now }
        ensures { result ≡ parts / self.now }
    {
        let low = (parts * self.reciprocal) >> 48;
        let rest = parts - low * self.area;
        if rest < self.area { low } else { low + 1 }
    }
}

/// Appends the averages of sums over an area, in the samples' depth.
pub(crate) fn push_averages(samples: &mut Samples, sums: &[u64], area: u64)
    requires area { (0 < area) × (area ≤ 2 ^ 32) }
    requires room { length (values_of samples.old) + length sums.now ≤ capacity_of samples.old }
    ensures values { values_of samples.new ≡ values_of samples.old ++ map (average_within area (top_of (depth_of samples.old))) sums.now }
    ensures depth { depth_of samples.new ≡ depth_of samples.old }
    ensures capacity { capacity_of samples.new ≡ capacity_of samples.old }
{
    match samples {
        Samples::Eight(samples) => push_eight(samples, sums, area),
        Samples::Sixteen(samples) => push_sixteen(samples, sums, area),
    }
}

fn push_eight(samples: &mut Vec<u8>, sums: &[u64], area: u64)
    requires area { (0 < area) × (area ≤ 2 ^ 32) }
    requires room { vec_len samples.old + length sums.now ≤ vec_capacity samples.old }
    ensures values { samples.new.items ≡ samples.old.items ++ map (average_within area 255) sums.now }
    ensures capacity { vec_capacity samples.new ≡ vec_capacity samples.old }
{
    if let Some(bits) = half_power(area) {
        // Behind a reference, its length would be written to memory at each push, and no two sums be averaged at once.
        let empty = Vec::new(*samples.allocator());
        let filled = replace(samples, empty);
        *samples = with_halves_eight(filled, sums, bits);
        return;
    }
    if area <= SMALL_AREA {
        push_small_eight(samples, sums, area);
        return;
    }
    let averager = Averager::new(area);
    for sum in sums {
        samples.push_reserved(averager.average(*sum, 255) as u8);
    }
}

fn push_sixteen(samples: &mut Vec<u16>, sums: &[u64], area: u64)
    requires area { (0 < area) × (area ≤ 2 ^ 32) }
    requires room { vec_len samples.old + length sums.now ≤ vec_capacity samples.old }
    ensures values { samples.new.items ≡ samples.old.items ++ map (average_within area 65535) sums.now }
    ensures capacity { vec_capacity samples.new ≡ vec_capacity samples.old }
{
    if let Some(bits) = half_power(area) {
        let empty = Vec::new(*samples.allocator());
        let filled = replace(samples, empty);
        *samples = with_halves_sixteen(filled, sums, bits);
        return;
    }
    let averager = Averager::new(area);
    for sum in sums {
        samples.push_reserved(averager.average(*sum, 65_535));
    }
}

fn push_small_eight(samples: &mut Vec<u8>, sums: &[u64], area: u64)
    requires area { (0 < area) × (area ≤ 2 ^ 23) }
    requires room { vec_len samples.old + length sums.now ≤ vec_capacity samples.old }
    ensures values { samples.new.items ≡ samples.old.items ++ map (average_within area 255) sums.now }
    ensures capacity { vec_capacity samples.new ≡ vec_capacity samples.old }
{
    let reciprocal = (1 << 55) / area + 1;
    for sum in sums {
        samples.push_reserved(small_average(*sum, area, reciprocal) as u8);
    }
}

/// Returns the average of a sum in 8 bits, by a reciprocal that was rounded up: over a small area the excess never makes up a whole one.
#[inline]
fn small_average(sum: u64, area: u64, reciprocal: u64) -> u64
    requires area { (0 < area) × (area ≤ 2 ^ 23) }
    requires reciprocal { reciprocal ≡ 2 ^ 55 / area + 1 }
    ensures { result ≡ average_within area 255 sum }
{
    let parts = sum.saturating_add(area / 2).min(256 * area - 1);
    (parts * reciprocal) >> 55
}

/// Returns the exponent of the power of two that is half of an area, if there is one.
fn half_power(area: u64) -> Option<u32>
    requires { 0 < area }
    ensures half { IfSome result (λ bits. area ≡ 2 * 2 ^ bits) }
    ensures bits { IfSome result (λ bits. bits < 64) }
{
    let bits = area.trailing_zeros().saturating_sub(1);
    if area == 2 << bits { Some(bits) } else { None }
}

/// Returns the average of a sum over twice 2^`bits` places, by shifts alone, so that several sums are averaged at once.
#[inline]
fn average_of_halves(sum: u64, bits: u32, top: u64) -> u64
    requires { bits < 64 }
    ensures { result ≡ average_within (2 * 2 ^ bits) top sum }
{
    let halves = sum >> bits;
    (halves / 2 + halves % 2).min(top)
}

fn with_halves_eight(mut samples: Vec<u8>, sums: &[u64], bits: u32) -> Vec<u8>
    requires bits { bits < 64 }
    requires room { vec_len samples + length sums.now ≤ vec_capacity samples }
    ensures values { result.items ≡ samples.items ++ map (average_within (2 * 2 ^ bits) 255) sums.now }
    ensures capacity { vec_capacity result ≡ vec_capacity samples }
{
    for sum in sums {
        samples.push_reserved(average_of_halves(*sum, bits, 255) as u8);
    }
    samples
}

fn with_halves_sixteen(mut samples: Vec<u16>, sums: &[u64], bits: u32) -> Vec<u16>
    requires bits { bits < 64 }
    requires room { vec_len samples + length sums.now ≤ vec_capacity samples }
    ensures values { result.items ≡ samples.items ++ map (average_within (2 * 2 ^ bits) 65535) sums.now }
    ensures capacity { vec_capacity result ≡ vec_capacity samples }
{
    for sum in sums {
        samples.push_reserved(average_of_halves(*sum, bits, 65_535) as u16);
    }
    samples
}
