//! Replies made of the outcomes of flights.

ghost use Rattle.std.specs.Prelude.{◌≡◌, ◌≤◌, [], IfErr, IfOk, IfSome, IsTrue, MatchResult, length};
ghost use Rattle.std.specs.Arc.{arc_value};
ghost use Rattle.iiif_keys.specs.Faults.{fault_number};
ghost use Rattle.iiif_keys.specs.Shapes.{HasPicture};
ghost use Rattle.iiif_outcome.specs.Outcomes.{is_given};
ghost use Rattle.iiif_outcome.specs.Views.{receipt_known};
ghost use Rattle.iiif_peer_wire.specs.Messages.{value_limit};

use iiif_fault::Numbered;
use iiif_keys::{CacheKey, Fault, Shape, System};
use iiif_singleflight::Receipt;
use iiif_sum_group::take_outcome;
use std::alloc::Global;
use std::sync::ledger::Ledger;

/// Status 0 and the value, or the number of a fault and none.
pub(crate) fn reply_of(alloc: Global, outcome: Result<Vec<u8>, Fault>) -> (u8, Vec<u8>)
    ensures { MatchResult outcome (λ v. (result.0 ≡ 0) × (result.1.items ≡ v.items))
        (λ f. (result.0 ≡ fault_number f) × (result.1.items ≡ [])) }
{
    match outcome {
        Ok(value) => (0, value),
        Err(fault) => (fault.number(), Vec::new(alloc)),
    }
}

/// The bytes of the value that a flight of this key ended with, which are few enough to be sent.
pub(crate) fn value_bytes<K: CacheKey, J: System, L: Ledger>(
    alloc: Global,
    key: &K,
    shape: &Shape,
    receipt: Receipt<K, J, L>,
) -> Result<Vec<u8>, Fault>
    requires known { HasPicture J.pictures (K.name_of key.now) shape.now }
    requires fits { K.fits_in shape.now key.now }
    requires key { IfSome (receipt_known receipt) (λ x. arc_value x.key ≡ key.now) }
    ensures value { IfOk result (λ bytes. (v : K.Value) × (bytes.items ≡ K.val_bytes v) × IsTrue (K.is_shaped J.pictures key.now v)
        × (J.stable (K.name_of key.now) → IsTrue J.honest → v ≡ K.meaning J.pictures key.now)) }
    ensures within { IfOk result (λ bytes. length bytes.items ≤ value_limit) }
    ensures given { IfErr result (λ f. IsTrue (is_given (J.gave (K.name_of key.now)) f)) }
{
    // Laws of keys.
    K::laws();
    let value = take_outcome(receipt, key)?;
    // Compared, so that the value is known to be one that can be sent.
    let _shaped = key.shaped(shape, &*value);
    match K::value_bytes(alloc, &*value) {
        Ok(bytes) => Ok(bytes),
        Err(_) => Err(Fault::NoMemory),
    }
}
