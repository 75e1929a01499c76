//! The contents of a world.

ghost use Rattle.std.specs.Prelude.{[], ◌∷◌, ◌++◌, ◌≡◌, ◌<◌, length, slice_get, Some, None, OnErr, OnOk, MatchOption, position};
ghost use Rattle.iiif_machine.specs.declared.rows.Lead.{Lead};
ghost use Rattle.iiif_machine.specs.declared.rows.Caller.{Caller};
ghost use Rattle.iiif_machine.specs.declared.rows.CallState.{CallState};
ghost use Rattle.iiif_machine.specs.declared.rows.Stage.{Stage};
ghost use Rattle.iiif_machine.specs.Worlds.{version_at, version_shown, with_ask, with_calls, with_given, with_reply, with_stage};
ghost use Rattle.iiif_machine.specs.Worlds.{with_state};
ghost use Rattle.iiif_machine.specs.Nodes.{node_of};
ghost use Rattle.iiif_world.specs.Code.{has_name, world_of};

use iiif_canonical::Limits;
use iiif_keys::Name;
use iiif_machine::keys::name_of;
use iiif_machine::node::Node;
use iiif_machine::{Ask, Call, CallState, Caller, Flight, Given, Key, Reply, RequestRow, Stage};
use iiif_pixel::{Depth, NoMemory, Raster};

/// An image of the catalogue.
#[derive(Drop)]
pub struct Item {
    pub name: Name,
    pub picture: Raster,
}

/// The contents of a world: pictures and limits, whether faults are early, nodes, the faults that sources gave, and rows. A row's number
/// is its place.
#[derive(Drop)]
pub struct Contents {
    pub catalogue: Vec<Item>,
    pub edge: u32,
    pub limits: Limits,
    pub room: u64,
    pub faults_early: bool,
    pub nodes: Vec<Node>,
    pub given: Vec<Given>,
    pub requests: Vec<RequestRow>,
    pub calls: Vec<Call>,
    pub flights: Vec<Flight>,
    pub asks: Vec<Ask>,
    pub replies: Vec<Reply>,
}

/// The version of the messages that carry parts of a picture.
pub(crate) fn version_shown(picture: &Raster) -> u8
    ensures { result ≡ version_shown picture.now }
{
    match picture.depth() {
        Depth::Eight => 1,
        Depth::Sixteen => 2,
    }
}

/// The place of the first item with a name.
fn place_of(items: &[Item], name: &Name) -> Option<usize>
    ensures { result ≡ position (has_name name.now) items.now }
{
    items.iter().position(|item| item.name == *name)
}

/// The node at a place.
fn row_of(nodes: &[Node], node: usize) -> Option<&Node>
    ensures { MatchOption result (slice_get nodes.now node ≡ None) (λ n. slice_get nodes.now node ≡ Some n.now) }
{
    nodes.get(node)
}

impl Contents {
    /// The picture of a name.
    pub(crate) fn picture(&self, name: &Name) -> Option<&Raster>
        ensures { MatchOption result ((world_of self.now).scene.shows name.now ≡ None)
            (λ r. (world_of self.now).scene.shows name.now ≡ Some r.now) }
    {
        match place_of(&self.catalogue, name) {
            Some(place) => Some(&self.catalogue[place].picture),
            None => None,
        }
    }

    /// The version of the messages that carry a key.
    #[tactic(auto, unfolding(iiif_machine::specs::Worlds::version_at))]
    pub(crate) fn version(&self, key: &Key) -> u8
        ensures { result ≡ version_at (world_of self.now).scene key.now }
    {
        match self.picture(name_of(key)) {
            Some(picture) => version_shown(picture),
            None => 1,
        }
    }

    /// The node of a number.
    pub(crate) fn node_at(&self, node: usize) -> Option<&Node>
        ensures { MatchOption result (slice_get (world_of self.now).nodes node ≡ None)
            (λ n. slice_get (world_of self.now).nodes node ≡ Some (node_of n.now)) }
    {
        match row_of(&self.nodes, node) {
            Some(found) => Some(found),
            None => None,
        }
    }

    /// The flight of a number.
    pub(crate) fn flight_at(&self, flight: usize) -> Option<&Flight>
        ensures { MatchOption result (slice_get (world_of self.now).flights flight ≡ None)
            (λ f. slice_get (world_of self.now).flights flight ≡ Some f.now) }
    {
        self.flights.get(flight)
    }

    /// The call of a number.
    pub(crate) fn call_at(&self, call: usize) -> Option<&Call>
        ensures { MatchOption result (slice_get (world_of self.now).calls call ≡ None)
            (λ c. slice_get (world_of self.now).calls call ≡ Some c.now) }
    {
        self.calls.get(call)
    }

    /// The ask of a number.
    pub(crate) fn ask_at(&self, ask: usize) -> Option<&Ask>
        ensures { MatchOption result (slice_get (world_of self.now).asks ask ≡ None)
            (λ a. slice_get (world_of self.now).asks ask ≡ Some a.now) }
    {
        self.asks.get(ask)
    }

    /// The reply of a number.
    pub(crate) fn reply_at(&self, reply: usize) -> Option<&Reply>
        ensures { MatchOption result (slice_get (world_of self.now).replies reply ≡ None)
            (λ r. slice_get (world_of self.now).replies reply ≡ Some r.now) }
    {
        self.replies.get(reply)
    }

    /// A flight goes on to another stage.
    pub(crate) fn set_stage(&mut self, flight: usize, stage: Stage)
        requires { flight < length (world_of self.old).flights }
        ensures { (l : Lead) (x : Stage) → slice_get (world_of self.old).flights flight ≡ Some (record { lead = l; stage = x })
            → world_of self.new ≡ with_stage (world_of self.old) flight l stage }
    {
        self.flights[flight].stage = stage;
    }

    /// A call is in another state.
    pub(crate) fn set_state(&mut self, call: usize, state: CallState)
        requires { call < length (world_of self.old).calls }
        ensures { (who : Caller) (x : CallState) → slice_get (world_of self.old).calls call ≡ Some (record { caller = who; state = x })
            → world_of self.new ≡ with_state (world_of self.old) call who state }
    {
        self.calls[call].state = state;
    }

    /// A call that is made.
    pub(crate) fn add_call(&mut self, caller: Caller) -> Result<(), NoMemory>
        ensures ok { OnOk result (world_of self.new ≡ with_calls (world_of self.old) (caller ∷ [])) }
        ensures err { OnErr result (world_of self.new ≡ world_of self.old) }
    {
        self.calls.push(Call {
            caller,
            state: CallState::Fresh,
        })?;
        Ok(())
    }

    /// Calls more. After an error all is as before.
    pub(crate) fn add_calls(&mut self, calls: Vec<Call>) -> Result<(), NoMemory>
        ensures ok { OnOk result (world_of self.new ≡ record (world_of self.old) { calls = (world_of self.old).calls ++ calls.items }) }
        ensures err { OnErr result (world_of self.new ≡ world_of self.old) }
    {
        let mut calls = calls;
        self.calls.append(&mut calls)
    }

    /// An ask that is made.
    pub(crate) fn add_ask(&mut self, ask: Ask) -> Result<(), NoMemory>
        ensures ok { OnOk result (world_of self.new ≡ with_ask (world_of self.old) ask) }
        ensures err { OnErr result (world_of self.new ≡ world_of self.old) }
    {
        self.asks.push(ask)?;
        Ok(())
    }

    /// A reply that is sent.
    pub(crate) fn add_reply(&mut self, reply: Reply) -> Result<(), NoMemory>
        ensures ok { OnOk result (world_of self.new ≡ with_reply (world_of self.old) reply) }
        ensures err { OnErr result (world_of self.new ≡ world_of self.old) }
    {
        self.replies.push(reply)?;
        Ok(())
    }

    /// A fault that is given.
    pub(crate) fn add_given(&mut self, given: Given) -> Result<(), NoMemory>
        ensures ok { OnOk result (world_of self.new ≡ with_given (world_of self.old) given) }
        ensures err { OnErr result (world_of self.new ≡ world_of self.old) }
    {
        self.given.push(given)?;
        Ok(())
    }
}
