//! Outcomes as they stand in a flight's cell.

ghost use Rattle.std.specs.Prelude.{◌≡◌, IsTrue};
ghost use Rattle.std.specs.Result.{ForOk, ForErr};
ghost use Rattle.std.specs.Arc.{arc_value};
ghost use Rattle.iiif_outcome.specs.Outcomes.{is_given};

use iiif_keys::{CacheKey, Fault, System};
use std::marker::PhantomData;
use std::sync::Arc;

/// Outcome of a flight: a value of its key, or a fault. A value is its key's meaning, where the bytes of the image are stable and the
/// other nodes are honest; its shape is the meaning's in any case. A fault is one that the image's source gave, or lack of memory.
#[derive(Drop)]
pub struct Landed<K: CacheKey, J: System> {
    /// The key of the flight.
    pub key: Arc<K>,
    /// The number of the flight.
    pub ticket: u64,
    /// The value or the fault.
    pub outcome: Result<Arc<K::Value>, Fault>,
    pub(crate) of: PhantomData<J>,
    pub ghost meant: { J.stable (K.name_of (arc_value key)) → IsTrue J.honest →
        ForOk outcome (λ v. arc_value v ≡ K.meaning J.pictures (arc_value key)) },
    pub ghost shaped: { ForOk outcome (λ v. IsTrue (K.is_shaped J.pictures (arc_value key) (arc_value v))) },
    pub ghost given: { ForErr outcome (λ f. IsTrue (is_given (J.gave (K.name_of (arc_value key))) f)) },
}

impl<K: CacheKey, J: System> Landed<K, J> {
    ghost use Rattle.std.specs.Prelude.{◌≢◌, ◌⊎◌, IsFalse};

    /// Returns whether the outcome is of the flight with this key and ticket.
    pub(crate) fn is_of(&self, key: &K, ticket: u64) -> bool
        ensures yes { IsTrue result → (arc_value self.now.key ≡ key.now) × (self.now.ticket ≡ ticket) }
        ensures no { IsFalse result → (self.now.ticket ≢ ticket) ⊎ IsFalse (K.eq (arc_value self.now.key) key.now) }
    {
        self.ticket == ticket && *self.key == *key
    }
}
