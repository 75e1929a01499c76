//! Answers to calls that enter a table, and to those that enter a group.

use crate::checked::CheckedLead;
use crate::follower::Follower;
use iiif_keys::{CacheKey, System};
use iiif_outcome::{Flight, Lead, Receipt};
use std::sync::ledger::Ledger;

/// Answer to a call that enters.
pub enum Entered<K: CacheKey, J: System, L> {
    /// A hit: the receipt of the flight that landed with the value.
    Hit(Receipt<K, J, L>),
    /// An open flight, which the call joined.
    Joined(Flight<K, J, L>),
    /// Neither: the call leads a new flight, and must land it.
    Lead(Lead<K, J, L>),
}

/// Answer to a call that enters, and looks again where it leads.
pub enum Lookup<K: CacheKey, J: System, L: Ledger> {
    /// A hit: the receipt of the flight that landed with the value.
    Hit(Receipt<K, J, L>),
    /// The key is in flight, and the call joined.
    Joined(Follower<K, J, L>),
    /// A miss: the call leads a new flight.
    Leads(CheckedLead<K, J, L>),
}
