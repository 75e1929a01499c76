//! Hashes and points.

ghost use Rattle.std.specs.Prelude.{◌≡◌, ◌<◌, ◌^◌, IfOk};
ghost use Rattle.iiif_ring.specs.Owner.{hash, point};

use sha2::{Digest, Sha256};
use std::alloc::{AllocError, Global};

/// The first eight bytes of the digest, high first.
#[tactic(auto, unfolding(crate::specs::Owner::hash))]
pub fn hash_of(bytes: &[u8]) -> u64
    ensures value { result ≡ hash bytes.now }
    ensures fits { result < 2 ^ 64 }
{
    let digest = Sha256::digest(bytes);
    let mut first = [0u8; 8];
    first.copy_from_slice(&digest[..8]);
    u64::from_be_bytes(first)
}

/// The point of a name's replica.
#[tactic(auto, unfolding(crate::specs::Owner::point))]
pub fn point_of(alloc: Global, name: &str, replica: u8) -> Result<u64, AllocError>
    ensures value { IfOk result (λ here. here ≡ point name.now replica) }
    ensures fits { IfOk result (λ here. here < 2 ^ 64) }
{
    let text = format!(in alloc; "{replica}{name}")?;
    Ok(hash_of(text.as_bytes()))
}
