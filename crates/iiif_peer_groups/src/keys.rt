//! Keys read from the bytes of asks.

ghost use Rattle.std.specs.Prelude.{◌≡◌, IfErr, IfOk};
ghost use Rattle.iiif_peer_groups.specs.Code.{IsUnread};

use iiif_keys::{CacheKey, Fault, KeyFault};
use std::alloc::Global;

/// The key that these bytes spell.
pub(crate) fn key_of<K: CacheKey>(alloc: Global, bytes: &[u8]) -> Result<K, Fault>
    ensures spelled { IfOk result (λ k. K.is_key k × (bytes.now ≡ K.key_bytes k)) }
    ensures refused { IfErr result (IsUnread (K.key_refusal bytes.now)) }
{
    match K::from_bytes(alloc, bytes) {
        Ok(key) => Ok(key),
        Err(KeyFault::NoMemory) => Err(Fault::NoMemory),
        Err(_) => Err(Fault::BadKey),
    }
}
