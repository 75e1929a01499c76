//! The events of asks and replies.

ghost use Rattle.std.specs.Prelude.{◌≡◌, Some, None, IfErr, IfOk, OnErr, OnOk};
ghost use Rattle.iiif_machine.specs.Steps.{caller_serving, stage_taken, step};
ghost use Rattle.iiif_machine.specs.declared.events.Event.{Event};
ghost use Rattle.iiif_machine.specs.declared.events.WorldFault.{WorldFault};
ghost use Rattle.iiif_world.specs.Code.{world_of};
ghost use Rattle.iiif_world.specs.Entering.{takes};

use crate::contents::Contents;
use iiif_machine::keys::{copy_value, same};
use iiif_machine::{Ask, Caller, Key, Purpose, Reply, Stage, WorldFault};
use iiif_pixel::NoMemory;
use iiif_tables::{Class, Place};
use std::alloc::Global;

/// The stage of a flight for a key that asked, by the reply that it takes.
fn taken(alloc: Global, key: &Key, reply: &Reply) -> Result<Stage, NoMemory>
    ensures { IfOk result (λ s. s ≡ stage_taken key.now reply.now.key reply.now.outcome) }
{
    match &reply.outcome {
        Err(_) => Ok(Stage::Fallback(None)),
        Ok(value) => {
            if same(&reply.key, key) {
                Ok(Stage::Ready(Ok(copy_value(alloc, value)?), Place::Peer))
            } else {
                Ok(Stage::Fallback(None))
            }
        }
    }
}

/// Whether a flight at a stage takes what a reply brings: `true` while it asks; `false` once it has ended, where a reply changes
/// nothing; none at another stage, where no reply may come.
fn takes(stage: &Stage) -> Option<bool>
    ensures { result ≡ takes stage.now }
{
    match stage {
        Stage::Asking => Some(true),
        Stage::Ended(_) => Some(false),
        _ => None,
    }
}

/// The call by which a node serves an ask. It is of the local class, which asks no other node.
fn caller_serving(ask: usize, asked: &Ask) -> Result<Caller, NoMemory>
    ensures { IfOk result (λ who. who ≡ caller_serving ask asked.now) }
{
    let class = Class::Local;
    Ok(Caller {
        node: asked.node,
        key: asked.key.copy()?,
        class,
        purpose: Purpose::ForAsk(ask),
    })
}

impl Contents {
    /// The asked node, where it speaks the ask's version, serves it by a local call.
    pub(crate) fn serve(&mut self, ask: usize) -> Result<(), WorldFault>
        ensures ok { OnOk result (step (world_of self.old) (Event.Serve ask) ≡ Some (world_of self.new)) }
        ensures not_now { IfErr result (λ f. f ≡ WorldFault.NotNow → step (world_of self.old) (Event.Serve ask) ≡ None) }
        ensures no_memory { IfErr result (λ f. f ≡ WorldFault.NoMemory → ¬ (step (world_of self.old) (Event.Serve ask) ≡ None)) }
        ensures same { OnErr result (world_of self.new ≡ world_of self.old) }
    {
        let Some(asked) = self.ask_at(ask) else {
            return Err(WorldFault::NotNow);
        };
        let Some(node) = self.node_at(asked.node) else {
            return Err(WorldFault::NotNow);
        };
        if !node.speaks(asked.version) {
            return Err(WorldFault::NotNow);
        }
        let caller = caller_serving(ask, asked)?;
        self.add_call(caller)?;
        Ok(())
    }

    /// A call that serves an ask replies what it knows.
    pub(crate) fn reply(&mut self, call: usize) -> Result<(), WorldFault>
        ensures ok { OnOk result (step (world_of self.old) (Event.Reply call) ≡ Some (world_of self.new)) }
        ensures not_now { IfErr result (λ f. f ≡ WorldFault.NotNow → step (world_of self.old) (Event.Reply call) ≡ None) }
        ensures no_memory { IfErr result (λ f. f ≡ WorldFault.NoMemory → ¬ (step (world_of self.old) (Event.Reply call) ≡ None)) }
        ensures same { OnErr result (world_of self.new ≡ world_of self.old) }
    {
        let Some(row) = self.call_at(call) else {
            return Err(WorldFault::NotNow);
        };
        let Purpose::ForAsk(_) = row.caller.purpose else {
            return Err(WorldFault::NotNow);
        };
        let Some(outcome) = self.learned(call)? else {
            return Err(WorldFault::NotNow);
        };
        let key = row.caller.key.copy()?;
        self.add_reply(Reply { key, outcome })?;
        Ok(())
    }

    /// Gives a reply to a flight.
    pub(crate) fn take(&mut self, flight: usize, reply: usize) -> Result<(), WorldFault>
        ensures ok { OnOk result (step (world_of self.old) (Event.Take flight reply) ≡ Some (world_of self.new)) }
        ensures not_now { IfErr result (λ f. f ≡ WorldFault.NotNow → step (world_of self.old) (Event.Take flight reply) ≡ None) }
        ensures no_memory { IfErr result (λ f. f ≡ WorldFault.NoMemory → ¬ (step (world_of self.old) (Event.Take flight reply) ≡ None)) }
        ensures same { OnErr result (world_of self.new ≡ world_of self.old) }
    {
        let Some(row) = self.flight_at(flight) else {
            return Err(WorldFault::NotNow);
        };
        let Some(sent) = self.reply_at(reply) else {
            return Err(WorldFault::NotNow);
        };
        let Some(asks) = takes(&row.stage) else {
            return Err(WorldFault::NotNow);
        };
        if !asks {
            return Ok(());
        }
        let stage = taken(*self.calls.allocator(), &row.lead.key, sent)?;
        self.set_stage(flight, stage);
        Ok(())
    }

    /// An ask gets no reply.
    pub(crate) fn lose(&mut self, flight: usize) -> Result<(), WorldFault>
        ensures ok { OnOk result (step (world_of self.old) (Event.Lose flight) ≡ Some (world_of self.new)) }
        ensures not_now { IfErr result (λ f. f ≡ WorldFault.NotNow → step (world_of self.old) (Event.Lose flight) ≡ None) }
        ensures no_memory { IfErr result (λ f. f ≡ WorldFault.NoMemory → ¬ (step (world_of self.old) (Event.Lose flight) ≡ None)) }
        ensures same { OnErr result (world_of self.new ≡ world_of self.old) }
    {
        let Some(row) = self.flight_at(flight) else {
            return Err(WorldFault::NotNow);
        };
        let Stage::Asking = row.stage else {
            return Err(WorldFault::NotNow);
        };
        self.set_stage(flight, Stage::Fallback(None));
        Ok(())
    }

    /// A flight that asked in vain makes a local call of its own key.
    pub(crate) fn go_local(&mut self, flight: usize) -> Result<(), WorldFault>
        ensures ok { OnOk result (step (world_of self.old) (Event.GoLocal flight) ≡ Some (world_of self.new)) }
        ensures not_now { IfErr result (λ f. f ≡ WorldFault.NotNow → step (world_of self.old) (Event.GoLocal flight) ≡ None) }
        ensures no_memory { IfErr result (λ f. f ≡ WorldFault.NoMemory → ¬ (step (world_of self.old) (Event.GoLocal flight) ≡ None)) }
        ensures same { OnErr result (world_of self.new ≡ world_of self.old) }
    {
        let Some(row) = self.flight_at(flight) else {
            return Err(WorldFault::NotNow);
        };
        let Stage::Fallback(asked) = row.stage else {
            return Err(WorldFault::NotNow);
        };
        let None = asked else {
            return Err(WorldFault::NotNow);
        };
        let caller = Caller {
            node: row.lead.node,
            key: row.lead.key.copy()?,
            class: Class::Local,
            purpose: Purpose::ForFallback(flight),
        };
        let call = self.calls.len();
        self.add_call(caller)?;
        self.set_stage(flight, Stage::Fallback(Some(call)));
        Ok(())
    }
}
