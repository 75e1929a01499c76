//! The events of nodes: a leader looks again, an owner is asked, values are evicted, a node stops.

ghost use Rattle.std.specs.Prelude.{◌≡◌, map, position, slice_get, Some, None, IfErr, IfOk, MatchOption, OnErr, OnOk};
ghost use Rattle.std.specs.Str.{bytes_eq};
ghost use Rattle.iiif_machine.specs.Steps.{stage_found, step};
ghost use Rattle.iiif_machine.specs.declared.events.Event.{Event};
ghost use Rattle.iiif_machine.specs.declared.events.WorldFault.{WorldFault};
ghost use Rattle.iiif_machine.specs.declared.rows.Lead.{Lead};
ghost use Rattle.iiif_machine.specs.declared.rows.Stage.{Stage};
ghost use Rattle.iiif_machine.specs.Rows as rows;
ghost use Rattle.iiif_machine.specs.Tables.{again as looked_again};
ghost use Rattle.iiif_machine.specs.Worlds.{put_table, table_at, with_node};
ghost use Rattle.iiif_tables.specs.declared.table.Class.{Class};
ghost use Rattle.iiif_world.specs.Code.{world_of, IsSoundWorld};
ghost use Rattle.iiif_world.specs.Entering.{HasFlight};

use crate::contents::Contents;
use iiif_machine::node::Node;
use iiif_machine::stopping::{stop_calls, stop_flights, stop_requests};
use iiif_machine::{Ask, Key, Lead, Stage, Value, WorldFault};
use iiif_pixel::NoMemory;
use iiif_tables::{Class, Place};

/// The place of the first node with a name.
fn place_of(nodes: &[Node], name: &str) -> Option<usize>
    ensures { result ≡ position (λ n. bytes_eq n.name name.now) nodes.now }
{
    nodes.iter().position(|n| n.name.as_str() == name)
}

/// The stage of a flight whose leader has looked again.
fn stage_found(found: Option<Value>) -> Stage
    ensures { result ≡ stage_found found }
{
    match found {
        None => Stage::Looked,
        Some(value) => Stage::Ready(Ok(value), Place::Nowhere),
    }
}

impl Contents {
    /// The lead of a new flight.
    fn new_lead(&self, flight: usize) -> Option<&Lead>
        ensures { MatchOption result (step (world_of self.now) (Event.Again flight) ≡ None)
            (λ l. slice_get (world_of self.now).flights flight ≡ Some (record { lead = l.now; stage = Stage.New })) }
    {
        let Some(row) = self.flight_at(flight) else {
            return None;
        };
        let Stage::New = row.stage else {
            return None;
        };
        Some(&row.lead)
    }

    /// The lead of a wide flight that has looked again.
    fn wide_lead(&self, flight: usize) -> Option<&Lead>
        ensures { MatchOption result (step (world_of self.now) (Event.AskPeer flight) ≡ None)
            (λ l. (slice_get (world_of self.now).flights flight ≡ Some (record { lead = l.now; stage = Stage.Looked })) ×
            (l.now.class ≡ Class.Wide)) }
    {
        let Some(row) = self.flight_at(flight) else {
            return None;
        };
        let Stage::Looked = row.stage else {
            return None;
        };
        let Class::Wide = row.lead.class else {
            return None;
        };
        Some(&row.lead)
    }

    /// The table of a flight's node has its leader look again. After an error all is as before.
    fn look(&mut self, flight: usize) -> Result<Option<Value>, NoMemory>
        requires { (l : Lead) × (n : rows.Node) × HasFlight (world_of self.old) flight l n }
        ensures found { IfOk result (λ r. (l : Lead) (n : rows.Node) → HasFlight (world_of self.old) flight l n
            → r ≡ (looked_again (table_at n l.key) l.key l.class l.ticket).0) }
        ensures node { OnOk result ((l : Lead) (n : rows.Node) → HasFlight (world_of self.old) flight l n
            → world_of self.new ≡ with_node (world_of self.old) l.node
            (put_table n l.key (looked_again (table_at n l.key) l.key l.class l.ticket).1)) }
        ensures err { OnErr result (world_of self.new ≡ world_of self.old) }
    {
        let lead = &self.flights[flight].lead;
        let found = self.nodes[lead.node].again(&lead.key, lead.class, lead.ticket)?;
        Ok(found)
    }

    /// The leader of a new flight looks in its node's table again.
    pub(crate) fn again(&mut self, flight: usize) -> Result<(), WorldFault>
        ensures ok { OnOk result (step (world_of self.old) (Event.Again flight) ≡ Some (world_of self.new)) }
        ensures not_now { IfErr result (λ f. f ≡ WorldFault.NotNow → step (world_of self.old) (Event.Again flight) ≡ None) }
        ensures no_memory { IfErr result (λ f. f ≡ WorldFault.NoMemory → ¬ (step (world_of self.old) (Event.Again flight) ≡ None)) }
        ensures same { OnErr result (world_of self.new ≡ world_of self.old) }
    {
        let Some(lead) = self.new_lead(flight) else {
            return Err(WorldFault::NotNow);
        };
        let Some(_node) = self.node_at(lead.node) else {
            return Err(WorldFault::NotNow);
        };
        let found = self.look(flight)?;
        self.set_stage(flight, stage_found(found));
        Ok(())
    }

    /// A wide flight asks the node that owns its key.
    pub(crate) fn ask_peer(&mut self, flight: usize) -> Result<(), WorldFault>
        requires sound { IsSoundWorld (world_of self.old) }
        ensures ok { OnOk result (step (world_of self.old) (Event.AskPeer flight) ≡ Some (world_of self.new)) }
        ensures not_now { IfErr result (λ f. f ≡ WorldFault.NotNow → step (world_of self.old) (Event.AskPeer flight) ≡ None) }
        ensures no_memory { IfErr result (λ f. f ≡ WorldFault.NoMemory → ¬ (step (world_of self.old) (Event.AskPeer flight) ≡ None)) }
        ensures same { OnErr result (world_of self.new ≡ world_of self.old) }
    {
        let Some(lead) = self.wide_lead(flight) else {
            return Err(WorldFault::NotNow);
        };
        let Some(node) = self.node_at(lead.node) else {
            return Err(WorldFault::NotNow);
        };
        let owner = node.owner(*self.calls.allocator(), &lead.key)?;
        let Some(asked) = place_of(&self.nodes, owner) else {
            return Err(WorldFault::NotNow);
        };
        let version = self.version(&lead.key);
        let key = lead.key.copy()?;
        self.add_ask(Ask {
            node: asked,
            key,
            flight,
            version,
        })?;
        self.set_stage(flight, Stage::Asking);
        Ok(())
    }

    /// A node loses kept values.
    pub(crate) fn evict(&mut self, node: usize, keys: &Vec<Key>) -> Result<(), WorldFault>
        ensures ok { OnOk result (step (world_of self.old) (Event.Evict node keys.now) ≡ Some (world_of self.new)) }
        ensures not_now { IfErr result (λ f. f ≡ WorldFault.NotNow → step (world_of self.old) (Event.Evict node keys.now) ≡ None) }
        ensures no_memory { IfErr result (λ f. f ≡ WorldFault.NoMemory → ¬ (step (world_of self.old) (Event.Evict node keys.now) ≡ None)) }
        ensures same { OnErr result (world_of self.new ≡ world_of self.old) }
    {
        if node >= self.nodes.len() {
            return Err(WorldFault::NotNow);
        }
        self.nodes[node].lose(keys);
        Ok(())
    }

    /// A node ends, with all that it had, and begins anew.
    pub(crate) fn stop(&mut self, node: usize) -> Result<(), WorldFault>
        ensures ok { OnOk result (step (world_of self.old) (Event.Stop node) ≡ Some (world_of self.new)) }
        ensures not_now { IfErr result (λ f. f ≡ WorldFault.NotNow → step (world_of self.old) (Event.Stop node) ≡ None) }
        ensures no_memory { IfErr result (λ f. f ≡ WorldFault.NoMemory → ¬ (step (world_of self.old) (Event.Stop node) ≡ None)) }
        ensures same { OnErr result (world_of self.new ≡ world_of self.old) }
    {
        if node >= self.nodes.len() {
            return Err(WorldFault::NotNow);
        }
        self.nodes[node].empty();
        stop_flights(&mut self.flights, node);
        stop_calls(&mut self.calls, node);
        stop_requests(&mut self.requests, node);
        Ok(())
    }
}
