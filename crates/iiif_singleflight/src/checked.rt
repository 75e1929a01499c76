//! Leads behind a look again.

ghost use Rattle.std.specs.Prelude.{◌≡◌};

use crate::table::Table;
use iiif_keys::{CacheKey, System};
use iiif_outcome::Lead;
use iiif_tables::Class;
use std::sync::Arc;
use std::sync::ledger::Ledger;

/// Duty to land a flight whose leader looked again and found nothing. It can't be dropped, and `Table::look_again` alone makes it.
pub struct CheckedLead<K: CacheKey, J: System, L: Ledger> {
    lead: Lead<K, J, L>,
}

/// Result of a leader's look again. A lead that found something is handed back.
pub enum Again<K: CacheKey, J: System, L: Ledger> {
    /// Nothing is kept for the key.
    Nothing(CheckedLead<K, J, L>),
    /// A value is kept by now.
    Found(Lead<K, J, L>, Arc<K::Value>),
    /// A value is kept, and refuses another share.
    Refused(Lead<K, J, L>),
}

impl<K: CacheKey, J: System, L: Ledger> CheckedLead<K, J, L> {
    ghost use Rattle.iiif_singleflight.specs.Handles.{checked_class, checked_key, checked_lead, checked_ticket};

    /// Returns the flight's key.
    pub fn key(&self) -> &K
        ensures { result.now ≡ checked_key self.now }
    {
        self.lead.key()
    }

    /// Returns the flight's number.
    pub fn ticket(&self) -> u64
        ensures { result ≡ checked_ticket self.now }
    {
        self.lead.ticket()
    }

    /// Returns the flight's class.
    pub fn class(&self) -> Class
        ensures { result ≡ checked_class self.now }
    {
        self.lead.class()
    }

    /// Returns the lead, to land the flight.
    pub(crate) fn into_lead(self) -> Lead<K, J, L>
        ensures { result ≡ checked_lead self }
    {
        let CheckedLead { lead } = self;
        lead
    }
}

impl<K: CacheKey, J: System, L: Ledger> Table<K, J, L> {
    ghost use Rattle.iiif_singleflight.specs.Calls.{LooksAgain};

    /// Looks again, for the leader of a flight, as `again` does, and takes the lead: so nobody goes on who didn't look.
    pub fn look_again(&mut self, lead: Lead<K, J, L>) -> Again<K, J, L>
        ensures { LooksAgain lead self.old self.new result }
    {
        match self.again(&lead) {
            Ok(None) => Again::Nothing(CheckedLead { lead }),
            Ok(Some(value)) => Again::Found(lead, value),
            Err(_) => Again::Refused(lead),
        }
    }
}
