//! The events of reads, and of sums that are made of their parts.

ghost use Rattle.std.specs.Prelude.{◌≡◌, ◌<◌, List, Some, None, IfErr, IfOk, OnErr, OnOk, length, map, slice_get};
ghost use Rattle.iiif_machine.specs.Keys.{meaning, parts_of};
ghost use Rattle.iiif_machine.specs.Scenes.{IsProper};
ghost use Rattle.iiif_machine.specs.declared.keys.Key.{Key};
ghost use Rattle.iiif_machine.specs.Sound.{IsHonestWorld};
ghost use Rattle.iiif_machine.specs.Steps.{step};
ghost use Rattle.iiif_machine.specs.Worlds.{call_for, fresh, numbers};
ghost use Rattle.iiif_machine.specs.declared.events.Event.{Event};
ghost use Rattle.iiif_machine.specs.declared.events.WorldFault.{WorldFault};
ghost use Rattle.iiif_machine.specs.declared.rows.Flight.{Flight};
ghost use Rattle.iiif_machine.specs.declared.rows.Purpose.{Purpose};
ghost use Rattle.iiif_machine.specs.declared.rows.Stage.{Stage};
ghost use Rattle.iiif_world.specs.Code.{world_of, IsSoundWorld};
ghost use Rattle.iiif_world.specs.Loads.{IsLoading, IsLocalAt};
ghost use Rattle.iiif_machine.specs.declared.hearing.Heard.{Heard};

use crate::contents::Contents;
use iiif_machine::calling::{calls_of, numbers_of, parts_in};
use iiif_machine::hearing::Heard;
use iiif_machine::keys::name_of;
use iiif_machine::{Call, Given, Key, Numbers, Purpose, Stage, Value, WorldFault};
use iiif_pixel::NoMemory;
use iiif_source::ReadFault;
use iiif_tables::{Class, Place};

/// The next step of a local flight.
#[derive(Clone, Copy)]
pub enum Loading {
    /// Nothing.
    Refused,
    /// It reads its tile.
    Read,
    /// It asks the parts of its sum.
    Split,
    /// It has heard this of its parts.
    Merge(Heard),
}

impl Contents {
    /// The read of a local flight's tile fails.
    pub(crate) fn source_fault(&mut self, flight: usize, fault: ReadFault) -> Result<(), WorldFault>
        ensures ok { OnOk result (step (world_of self.old) (Event.SourceFault flight fault) ≡ Some (world_of self.new)) }
        ensures not_now { IfErr result (λ f. f ≡ WorldFault.NotNow → step (world_of self.old) (Event.SourceFault flight fault) ≡ None) }
        ensures no_memory { IfErr result (λ f. f ≡ WorldFault.NoMemory →
            ¬ (step (world_of self.old) (Event.SourceFault flight fault) ≡ None)) }
        ensures same { OnErr result (world_of self.new ≡ world_of self.old) }
    {
        let Some(row) = self.flight_at(flight) else {
            return Err(WorldFault::NotNow);
        };
        let Stage::Looked = row.stage else {
            return Err(WorldFault::NotNow);
        };
        let lead = &row.lead;
        let Class::Local = lead.class else {
            return Err(WorldFault::NotNow);
        };
        let Key::Tile(_) = &lead.key else {
            return Err(WorldFault::NotNow);
        };
        let given = Given {
            node: lead.node,
            name: name_of(&lead.key).copy()?,
            fault,
        };
        self.add_given(given)?;
        self.set_stage(flight, Stage::Ready(Err(fault), Place::Main));
        Ok(())
    }

    /// The next step of a flight, where it is a local one.
    #[tactic(auto, unfolding(iiif_machine::specs::Steps::step, iiif_machine::specs::Keys::parts_of))]
    fn loading(&self, flight: usize) -> Loading
        ensures { IsLoading (world_of self.now) flight result }
    {
        let Some(row) = self.flight_at(flight) else {
            return Loading::Refused;
        };
        let Class::Local = row.lead.class else {
            return Loading::Refused;
        };
        let Some(_node) = self.node_at(row.lead.node) else {
            return Loading::Refused;
        };
        match (&row.stage, &row.lead.key) {
            (Stage::Looked, Key::Tile(_)) => Loading::Read,
            (Stage::Looked, Key::Sum(_)) => Loading::Split,
            (Stage::Parts(calls), _) => Loading::Merge(self.gathered(calls.items())),
            _ => Loading::Refused,
        }
    }

    /// The value that a flight's key names.
    fn value_of(&self, flight: usize) -> Result<Value, NoMemory>
        requires proper { IsProper (world_of self.now).scene }
        requires honest { IsHonestWorld (world_of self.now) }
        requires there { flight < length (world_of self.now).flights }
        ensures { IfOk result (λ v. (f : Flight) → slice_get (world_of self.now).flights flight ≡ Some f →
            v ≡ meaning (world_of self.now).scene f.lead.key) }
    {
        let value = self.meaning(&self.flights[flight].lead.key)?;
        Ok(value)
    }

    /// A flight has its outcome.
    fn read(&mut self, flight: usize) -> Result<(), WorldFault>
        requires sound { IsSoundWorld (world_of self.old) }
        requires loading { IsLoading (world_of self.old) flight Loading.Read }
        ensures ok { OnOk result (step (world_of self.old) (Event.Load flight) ≡ Some (world_of self.new)) }
        ensures not_now { IfErr result (λ f. f ≡ WorldFault.NoMemory) }
        ensures same { OnErr result (world_of self.new ≡ world_of self.old) }
    {
        let value = self.value_of(flight)?;
        self.set_stage(flight, Stage::Ready(Ok(value), Place::Main));
        Ok(())
    }

    /// The calls of the parts of a flight's sum, and their numbers. The only error is lack of memory.
    fn calls_for(&self, flight: usize) -> Result<(Vec<Call>, Vec<usize>), NoMemory>
        requires proper { IsProper (world_of self.now).scene }
        requires honest { IsHonestWorld (world_of self.now) }
        requires loading { IsLoading (world_of self.now) flight Loading.Split }
        ensures { IfOk result (λ r. (a : IsLocalAt (world_of self.now) flight Stage.Looked) → (keys : List Key) ×
            (parts_of a.lead.key ≡ Some keys)
            × (r.0.items ≡ map fresh (map (call_for a.lead.node a.node (Purpose.ForPart flight)) keys))
            × (r.1.items ≡ numbers (length (world_of self.now).calls) keys)) }
    {
        let alloc = *self.calls.allocator();
        let lead = &self.flights[flight].lead;
        let Key::Sum(key) = &lead.key else {
            unreachable!();
        };
        let Some(node) = self.node_at(lead.node) else {
            unreachable!();
        };
        let keys = parts_in(alloc, key)?;
        let numbers = numbers_of(alloc, self.calls.len(), keys.len())?;
        let calls = calls_of(alloc, lead.node, node, Purpose::ForPart(flight), keys)?;
        Ok((calls, numbers))
    }

    /// A flight asks the parts of its sum.
    fn split(&mut self, flight: usize) -> Result<(), WorldFault>
        requires sound { IsSoundWorld (world_of self.old) }
        requires loading { IsLoading (world_of self.old) flight Loading.Split }
        ensures ok { OnOk result (step (world_of self.old) (Event.Load flight) ≡ Some (world_of self.new)) }
        ensures not_now { IfErr result (λ f. f ≡ WorldFault.NoMemory) }
        ensures same { OnErr result (world_of self.new ≡ world_of self.old) }
    {
        let (calls, numbers) = self.calls_for(flight)?;
        self.add_calls(calls)?;
        self.set_stage(flight, Stage::Parts(Numbers::new(numbers)));
        Ok(())
    }

    /// A flight has its sum.
    fn merge(&mut self, flight: usize) -> Result<(), WorldFault>
        requires sound { IsSoundWorld (world_of self.old) }
        requires loading { IsLoading (world_of self.old) flight (Loading.Merge Heard.Value) }
        ensures ok { OnOk result (step (world_of self.old) (Event.Load flight) ≡ Some (world_of self.new)) }
        ensures not_now { IfErr result (λ f. f ≡ WorldFault.NoMemory) }
        ensures same { OnErr result (world_of self.new ≡ world_of self.old) }
    {
        let value = self.value_of(flight)?;
        self.set_stage(flight, Stage::Ready(Ok(value), Place::Main));
        Ok(())
    }

    /// A flight has the first fault of its parts.
    fn fail(&mut self, flight: usize, fault: ReadFault)
        requires { IsLoading (world_of self.old) flight (Loading.Merge (Heard.Fault fault)) }
        ensures { step (world_of self.old) (Event.Load flight) ≡ Some (world_of self.new) }
    {
        self.set_stage(flight, Stage::Ready(Err(fault), Place::Main));
    }

    /// A local flight reads its tile; or asks the parts of its sum, and then merges them. In a sound world what the parts' values
    /// make is what the key names, and so it is made of the whole picture.
    pub(crate) fn load(&mut self, flight: usize) -> Result<(), WorldFault>
        requires sound { IsSoundWorld (world_of self.old) }
        ensures ok { OnOk result (step (world_of self.old) (Event.Load flight) ≡ Some (world_of self.new)) }
        ensures not_now { IfErr result (λ f. f ≡ WorldFault.NotNow → step (world_of self.old) (Event.Load flight) ≡ None) }
        ensures no_memory { IfErr result (λ f. f ≡ WorldFault.NoMemory → ¬ (step (world_of self.old) (Event.Load flight) ≡ None)) }
        ensures same { OnErr result (world_of self.new ≡ world_of self.old) }
    {
        match self.loading(flight) {
            Loading::Refused => Err(WorldFault::NotNow),
            Loading::Read => self.read(flight),
            Loading::Split => self.split(flight),
            Loading::Merge(Heard::Nothing) => Err(WorldFault::NotNow),
            Loading::Merge(Heard::Value) => self.merge(flight),
            Loading::Merge(Heard::Fault(fault)) => {
                self.fail(flight, fault);
                Ok(())
            }
        }
    }
}
