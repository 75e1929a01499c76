//! Samples of stored bytes.

ghost use Rattle.std.specs.Prelude.{◌≡◌, ◌-◌, ◌*◌, ◌/◌, ◌%◌, ◌<◌, ℕ, length, slice_index, IfOk};
ghost use Rattle.std.specs.Int.{w16};
ghost use Rattle.iiif_tiff.specs.Tiff.{number, sample_of};
ghost use Rattle.iiif_tiff_read.specs.Code.{endian};

use crate::byte_order::ByteOrder;
use std::alloc::{AllocError, Global};

/// Inverts samples, which turns white into black.
fn invert(samples: &mut [u8])
    ensures { (i : ℕ) → i < length samples.old → slice_index samples.new i ≡ 255 - slice_index samples.old i }
{
    for v in samples.iter_mut() {
        *v = 255 - *v;
    }
}

/// Turns stored samples into those that they stand for, in place.
fn interpret_bytes(white_is_zero: bool, samples: &mut [u8])
    ensures { (i : ℕ) → i < length samples.old → slice_index samples.new i ≡ sample_of white_is_zero 255 (slice_index samples.old i) }
{
    if white_is_zero {
        invert(samples);
    }
}

/// Decodes the sample of a stored pair of bytes.
fn sample_of_pair(order: ByteOrder, white_is_zero: bool, pair: [u8; 2]) -> u16
    ensures { result ≡ sample_of white_is_zero 65535 (number (endian order) w16 pair 0) }
{
    let sample = order.short(pair);
    if white_is_zero {
        u16::MAX - sample
    } else {
        sample
    }
}

/// Decodes the samples of stored pairs of bytes.
fn interpret_pairs(order: ByteOrder, white_is_zero: bool, bytes: &[u8], samples: &mut [u16])
    requires { length bytes.now ≡ 2 * length samples.old }
    ensures length { length samples.new ≡ length samples.old }
    ensures samples { (i : ℕ) → i < length samples.old →
        slice_index samples.new i ≡ sample_of white_is_zero 65535 (number (endian order) w16 bytes.now (2 * i)) }
{
    for i in 0..samples.len() {
        let pair = [bytes[2 * i], bytes[2 * i + 1]];
        samples[i] = sample_of_pair(order, white_is_zero, pair);
    }
}

/// Turns stored samples of 8 bits into those that they stand for.
pub fn to_samples(white_is_zero: bool, mut stored: Vec<u8>) -> Vec<u8>
    ensures length { length result.items ≡ length stored.items }
    ensures samples { (i : ℕ) → i < length stored.items →
        slice_index result.items i ≡ sample_of white_is_zero 255 (slice_index stored.items i) }
{
    interpret_bytes(white_is_zero, &mut stored);
    stored
}

/// Decodes the samples of stored pairs of bytes into a new vector.
pub fn pairs_to_samples(
    alloc: Global,
    order: ByteOrder,
    white_is_zero: bool,
    stored: &[u8],
) -> Result<Vec<u16>, AllocError>
    requires { length stored.now % 2 ≡ 0 }
    ensures length { IfOk result (λ v. length v.items ≡ length stored.now / 2) }
    ensures samples { IfOk result (λ v. (i : ℕ) → i < length v.items →
        slice_index v.items i ≡ sample_of white_is_zero 65535 (number (endian order) w16 stored.now (2 * i))) }
{
    let mut samples = vec![in alloc; 0u16; stored.len() / 2]?;
    interpret_pairs(order, white_is_zero, stored, &mut samples);
    Ok(samples)
}
