//! Owners of keys, asking them, and landing flights. The links stand in this module alone, and one call of it asks.

ghost use Rattle.std.specs.Prelude.{◌≡◌, length, vec_len};
ghost use Rattle.iiif_tables.specs.declared.table.Class.TheVariants.{Wide};
ghost use Rattle.iiif_singleflight.specs.Handles.{checked_class};

use crate::group::Cluster;
use crate::link::Link;
use crate::outcomes::{share, value_in};
use iiif_keys::{CacheKey, Fault, Shape, System};
use iiif_singleflight::{CheckedLead, Completion, GroupState};
use iiif_tables::Place;
use std::alloc::Global;
use std::sync::Arc;
use std::sync::ledger::Ledger;

/// Nodes of a group's cluster. Their links are private to this module, where `Peer::ask` alone calls one.
#[derive(Drop)]
pub struct Nodes<N> {
    cluster: Cluster<N>,
    pub ghost one_a_place: { vec_len cluster.links ≡ length cluster.ring },
}

/// Another node as the owner of the key with these bytes. `Nodes::owner` alone makes it.
#[derive(Drop)]
pub(crate) struct Peer<'a, N> {
    link: &'a N,
    key: &'a [u8],
}

/// Wide flight whose owner was asked and gave no value. `Peer::ask` alone makes it, so nobody loads in place of an owner without having
/// asked it.
pub struct Asked<K: CacheKey, J: System, L: Ledger> {
    lead: CheckedLead<K, J, L>,
    pub ghost wide: { checked_class lead ≡ Wide },
}

/// Wide flight whose owner was asked and gave this value. `Peer::ask` alone makes it. It can't be asked for again: landing spends it.
pub(crate) struct Answered<K: CacheKey, J: System, L: Ledger> {
    lead: CheckedLead<K, J, L>,
    value: K::Value,
    pub ghost wide: { checked_class lead ≡ Wide },
}

/// Answer of a key's owner.
pub(crate) enum Answer<K: CacheKey, J: System, L: Ledger> {
    /// A value of the key's shape.
    Value(Answered<K, J, L>),
    /// None: the leader falls back to a load of its own.
    Nothing(Asked<K, J, L>),
}

/// Flight whose outcome is settled, and which hasn't landed yet: its lead, its outcome, and the place for its value. It can't be dropped,
/// and `land` spends it.
pub(crate) struct SettledFlight<K: CacheKey, J: System, L: Ledger> {
    lead: CheckedLead<K, J, L>,
    outcome: Result<Arc<K::Value>, Fault>,
    place: Place,
}

impl<N> Nodes<N> {
    ghost use Rattle.std.specs.Prelude.{◌<◌, IfSome};
    ghost use Rattle.iiif_group.specs.Owners.{cluster_in, IsPeer};

    /// Takes the nodes of a cluster.
    pub(crate) fn new(cluster: Cluster<N>) -> Nodes<N>
        requires links { vec_len cluster.links ≡ length cluster.ring }
        ensures { cluster_in result ≡ cluster }
    {
        Nodes { cluster }
    }

    /// Returns the node that owns a key, or None where this node owns it.
    pub(crate) fn owner<'a>(&'a self, key: &'a [u8]) -> Option<Peer<'a, N>>
        ensures { IsPeer self.now key.now result }
    {
        let place = self.cluster.ring.owner(key);
        if self.cluster.own == Some(place) {
            return None;
        }
        let link = &self.cluster.links[place];
        Some(Peer { link, key })
    }
}

impl<'a, N> Peer<'a, N> {
    ghost use Rattle.iiif_group.specs.Beginning.{IsPartOf};
    ghost use Rattle.iiif_group.specs.Code.{AnswersFor};
    ghost use Rattle.iiif_group.specs.Leads.{peer_link};
    ghost use Rattle.iiif_group.specs.Owners.{GivesNothing};
    ghost use Rattle.iiif_singleflight.specs.Handles.{checked_key};

    /// Asks the owner of a wide flight's key for the value, once, and checks its shape. No lock is held.
    pub(crate) fn ask<K: CacheKey, J: System, L: Ledger, R>(
        &self,
        rt: &R,
        wide: CheckedLead<K, J, L>,
        shape: &Shape,
    ) -> Answer<K, J, L>
    where
        N: Link<K, J, R>,
        requires owner { K.key_bytes (checked_key wide) ≡ self.now.key.now }
        requires class { checked_class wide ≡ Wide }
        requires part { IsPartOf K.CacheKey.own J.System (checked_key wide) shape.now }
        ensures { AnswersFor (GivesNothing N.replied (K.is_shaped J.pictures (checked_key wide)) (checked_key wide) (peer_link self.now))
            wide result }
    {
        let reply = self.link.ask(rt, wide.key(), shape);
        match value_in::<K, J>(wide.key(), shape, reply) {
            Some(value) => Answer::Value(Answered { lead: wide, value }),
            None => Answer::Nothing(Asked { lead: wide }),
        }
    }
}

impl<K: CacheKey, J: System, L: Ledger> Asked<K, J, L> {
    ghost use Rattle.iiif_group.specs.Code.{CanLand, IsSettled, OutcomeOf};
    ghost use Rattle.iiif_group.specs.Leads.{asked_lead};
    ghost use Rattle.iiif_tables.specs.declared.table.Place.TheVariants.{Nowhere};

    /// Settles the flight with an outcome of this node's own. It keeps nothing: the local flight did.
    pub(crate) fn settle(self, outcome: Result<Arc<K::Value>, Fault>) -> SettledFlight<K, J, L>
        requires { OutcomeOf (asked_lead self) outcome }
        ensures settled { IsSettled (asked_lead self) outcome Nowhere result }
        ensures fits { CanLand result }
    {
        let Asked { lead } = self;
        SettledFlight {
            lead,
            outcome,
            place: Place::Nowhere,
        }
    }
}

impl<K: CacheKey, J: System, L: Ledger> Answered<K, J, L> {
    ghost use Rattle.iiif_group.specs.Code.{CanLand, IsAnswer};
    ghost use Rattle.iiif_group.specs.Leads.{answered_lead, answered_value, settled_lead, settled_place};
    ghost use Rattle.iiif_tables.specs.declared.table.Place.{Place};

    /// Settles the flight with its owner's value, of which each tenth is kept.
    pub(crate) fn settle(self, alloc: Global) -> SettledFlight<K, J, L>
        requires { IsAnswer (answered_lead self) (answered_value self) }
        ensures lead { settled_lead result ≡ answered_lead self }
        ensures place { settled_place result ≡ Place.Peer }
        ensures fits { CanLand result }
    {
        let Answered { lead, value } = self;
        SettledFlight {
            lead,
            outcome: share(alloc, value),
            place: Place::Peer,
        }
    }
}

impl<K: CacheKey, J: System, L: Ledger> SettledFlight<K, J, L> {
    ghost use Rattle.iiif_group.specs.Code.{CanLand, ComesOf, IsSettled, OutcomeOf};
    ghost use Rattle.iiif_group.specs.Leads.{settled_lead, settled_outcome};
    ghost use Rattle.iiif_tables.specs.declared.table.Class.TheVariants.{Local};
    ghost use Rattle.iiif_tables.specs.declared.table.Place.TheVariants.{Main};

    /// Settles a local flight with the outcome of its load, whose value this node keeps as its own.
    pub(crate) fn from_load(
        local: CheckedLead<K, J, L>,
        outcome: Result<Arc<K::Value>, Fault>,
    ) -> SettledFlight<K, J, L>
        requires class { checked_class local ≡ Local }
        requires outcome { OutcomeOf local outcome }
        ensures settled { IsSettled local outcome Main result }
        ensures fits { CanLand result }
    {
        SettledFlight {
            lead: local,
            outcome,
            place: Place::Main,
        }
    }

    /// Returns the flight's lead.
    pub(crate) fn lead(&self) -> &CheckedLead<K, J, L> {
        &self.lead
    }

    /// Returns the outcome.
    pub(crate) fn outcome(&self) -> &Result<Arc<K::Value>, Fault> {
        &self.outcome
    }

    /// Returns the place for the value.
    pub(crate) fn place(&self) -> Place {
        self.place
    }

    /// Lands the flight. The group's lock is held.
    pub(crate) fn land(self, state: &mut GroupState<K, J, L>) -> Completion<K, J, L>
        requires { CanLand self }
        ensures { ComesOf (settled_lead self) (settled_outcome self) result }
    {
        let SettledFlight {
            lead,
            outcome,
            place,
        } = self;
        state.land(lead, outcome, place)
    }
}
