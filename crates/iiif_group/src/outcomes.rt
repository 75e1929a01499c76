//! Shares of outcomes, and the values of replies.

ghost use Rattle.std.specs.Prelude.{◌≡◌, Ok, IfNone, IfOk, IfSome, IsFalse, IsTrue};
ghost use Rattle.std.specs.Result.{ForErr, ForOk};
ghost use Rattle.std.specs.Arc.{arc_value};
ghost use Rattle.iiif_keys.specs.declared.fault.Fault.{Fault};
ghost use Rattle.iiif_outcome.specs.Outcomes.{OutcomeFor};
ghost use Rattle.iiif_singleflight.specs.Handles.{IsOf};
ghost use Rattle.iiif_group.specs.Beginning.{IsPartOf, Shares};

use crate::link::LinkFault;
use iiif_keys::{CacheKey, Fault, Shape, System};
use iiif_singleflight::Receipt;
use std::alloc::Global;
use std::sync::Arc;
use std::sync::ledger::Ledger;

/// Shares an outcome, and returns whether the share is exact: it is lack of memory where the value refuses another share. A fault is always
/// told as it is.
pub fn share_outcome<V: Drop>(outcome: &Result<Arc<V>, Fault>) -> (Result<Arc<V>, Fault>, bool)
    ensures { Shares outcome.now result.0 result.1 }
{
    match outcome {
        Ok(value) => match Arc::try_clone(value) {
            Ok(value) => (Ok(value), true),
            Err(_) => (Err(Fault::NoMemory), false),
        },
        Err(fault) => (Err(*fault), true),
    }
}

/// Boxes a value that many may share. The only fault is lack of memory.
pub fn share<V: Drop>(alloc: Global, value: V) -> Result<Arc<V>, Fault>
    ensures ok { ForOk result (λ v. arc_value v ≡ value) }
    ensures err { ForErr result (λ f. f ≡ Fault.NoMemory) }
{
    match Arc::new(alloc, value) {
        Ok(value) => Ok(value),
        Err(_) => Err(Fault::NoMemory),
    }
}

/// Takes a share of the outcome of a receipt of this key, or lack of memory.
pub fn take_outcome<K: CacheKey, J: System, L: Ledger>(
    mut receipt: Receipt<K, J, L>,
    key: &K,
) -> Result<Arc<K::Value>, Fault>
    requires { IsOf key.now receipt }
    ensures { OutcomeFor K.CacheKey.own J.System key.now result }
{
    share_outcome(receipt.outcome()).0
}

/// Returns the value of a reply, if it has one of the key's shape.
pub(crate) fn value_in<K: CacheKey, J: System>(
    key: &K,
    shape: &Shape,
    reply: Result<K::Value, LinkFault>,
) -> Option<K::Value>
    requires { IsPartOf K.CacheKey.own J.System key.now shape.now }
    ensures some { IfSome result (λ v. (reply ≡ Ok v) × IsTrue (K.is_shaped J.pictures key.now v)) }
    ensures none { IfNone result (IfOk reply (λ v. IsFalse (K.is_shaped J.pictures key.now v))) }
{
    match reply {
        Ok(value) if key.shaped(shape, &value) => Some(value),
        _ => None,
    }
}
