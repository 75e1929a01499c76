//! Beginning and end of a load, as a caller of a group holds them.

ghost use Rattle.std.specs.Prelude.{◌≡◌};
ghost use Rattle.std.specs.Option.{ForSome};
ghost use Rattle.iiif_tables.specs.declared.table.Class.TheVariants.{Local};
ghost use Rattle.iiif_singleflight.specs.Handles.{checked_class, checked_key};
ghost use Rattle.iiif_group.specs.Leads.{asked_lead};

use crate::asked::Asked;
use iiif_keys::{CacheKey, System};
use iiif_outcome::Landed;
use iiif_singleflight::{CheckedLead, Receipt};
use std::sync::ledger::Ledger;

/// Duty to load a key's value and to complete the load. It can't be dropped. It leads the key's local flight; and its wide one too where
/// another node owns the key, which gave no value when it was asked.
pub struct Open<K: CacheKey, J: System, L: Ledger> {
    pub(crate) local: CheckedLead<K, J, L>,
    pub(crate) wide: Option<Asked<K, J, L>>,
    pub ghost local_is: { checked_class local ≡ Local },
    pub ghost one_key: { ForSome wide (λ w. checked_key (asked_lead w) ≡ checked_key local) },
}

/// Answer to a call for a key.
pub enum Begun<K: CacheKey, J: System, L: Ledger> {
    /// The outcome of a flight of the key.
    Known(Receipt<K, J, L>),
    /// A miss: the caller loads the value and completes the load.
    Load(Open<K, J, L>),
}

/// End of a load.
#[derive(Drop)]
pub struct Completed<K: CacheKey, J: System, L: Ledger> {
    /// The receipt of the flight that the call entered first: of the wide one where the owner was asked, else of the local one.
    pub receipt: Receipt<K, J, L>,
    /// The receipt of the local flight where the other is of the wide one. It has the load's outcome.
    pub loaded: Option<Receipt<K, J, L>>,
    /// Whether the first receipt has the load's outcome. Else the value refused the wide flight a share, and it has lack of memory.
    pub exact: bool,
    /// The outcome that a cell refused because another of the same flight stands in it.
    pub refused: Option<Box<Landed<K, J>>>,
}
