//! The event of a landing.

ghost use Rattle.std.specs.Prelude.{◌≡◌, ◌<◌, Bool, length, slice_get, Some, None, IfErr, IfOk, MatchOption, OnErr, OnOk};
ghost use Rattle.iiif_machine.specs.Scenes.{IsProper};
ghost use Rattle.iiif_machine.specs.Sound.{IsHonestWorld};
ghost use Rattle.iiif_machine.specs.Steps.{step};
ghost use Rattle.iiif_machine.specs.Tables.{Outcome, land as landed, value_of};
ghost use Rattle.iiif_machine.specs.Rows.{Node};
ghost use Rattle.iiif_machine.specs.Worlds.{put_table, settled, table_at, with_node, with_stage};
ghost use Rattle.iiif_machine.specs.declared.events.Event.{Event};
ghost use Rattle.iiif_machine.specs.declared.events.WorldFault.{WorldFault};
ghost use Rattle.iiif_machine.specs.declared.rows.Lead.{Lead};
ghost use Rattle.iiif_machine.specs.declared.rows.Stage.{Stage};
ghost use Rattle.iiif_tables.specs.declared.table.Place.{Place};
ghost use Rattle.iiif_world.specs.Code.{world_of, IsSoundWorld};
ghost use Rattle.iiif_world.specs.Entering.{HasFlight};

use crate::contents::Contents;
use iiif_machine::caching::Retention;
use iiif_machine::flights::{end_flight, reopen_flight, value_in};
use iiif_machine::{Lead, Stage, Value, WorldFault};
use iiif_pixel::NoMemory;
use iiif_source::ReadFault;
use iiif_tables::Place;

impl Contents {
    /// The outcome and the place of a flight that is ready.
    fn ready(&self, flight: usize) -> Option<(&Lead, &Result<Value, ReadFault>, Place)>
        ensures { MatchOption result ((keep : Bool) → step (world_of self.now) (Event.Land flight keep) ≡ None)
            (λ r. slice_get (world_of self.now).flights flight ≡ Some (record { lead = r.0.now; stage = Stage.Ready r.1.now r.2 })) }
    {
        let Some(row) = self.flight_at(flight) else {
            return None;
        };
        let Stage::Ready(outcome, place) = &row.stage else {
            return None;
        };
        Some((&row.lead, outcome, *place))
    }

    /// A flight that is ready ends.
    fn end(&mut self, flight: usize)
        requires { flight < length (world_of self.old).flights }
        ensures { (l : Lead) (o : Outcome) (p : Place) →
            slice_get (world_of self.old).flights flight ≡ Some (record { lead = l; stage = Stage.Ready o p })
            → world_of self.new ≡ with_stage (world_of self.old) flight l (Stage.Ended (Some o)) }
    {
        end_flight(&mut self.flights[flight]);
    }

    /// A flight that ended with an outcome is ready again.
    fn reopen(&mut self, flight: usize, place: Place)
        requires { flight < length (world_of self.old).flights }
        ensures { (l : Lead) (o : Outcome) → slice_get (world_of self.old).flights flight ≡ Some
            (record { lead = l; stage = Stage.Ended (Some o) })
            → world_of self.new ≡ with_stage (world_of self.old) flight l (Stage.Ready o place) }
    {
        reopen_flight(&mut self.flights[flight], place);
    }

    /// A flight lands in the table of its node, with a value or with a fault. After an error all is as before.
    fn land_at(
        &mut self,
        flight: usize,
        value: Option<Value>,
        place: Place,
        keep: bool,
    ) -> Result<(), NoMemory>
        requires { (l : Lead) × (n : Node) × HasFlight (world_of self.old) flight l n }
        ensures ok { OnOk result ((l : Lead) (n : Node) (o : Outcome) → HasFlight (world_of self.old) flight l n → value_of o ≡ value
            → world_of self.new ≡ with_node (world_of self.old) l.node
            (put_table n l.key (landed (table_at n l.key) l.key l.class l.ticket o place keep))) }
        ensures err { OnErr result (world_of self.new ≡ world_of self.old) }
    {
        let lead = &self.flights[flight].lead;
        let retention = Retention { place, keep };
        self.nodes[lead.node].land(&lead.key, lead.class, lead.ticket, value, retention)?;
        Ok(())
    }

    /// The table of an ended flight's node has it landed, and all see what its calls know. After an error all is as before.
    fn settle_landed(
        &mut self,
        flight: usize,
        value: Option<Value>,
        place: Place,
        keep: bool,
    ) -> Result<(), NoMemory>
        requires proper { IsProper (world_of self.old).scene }
        requires honest { IsHonestWorld (world_of self.old) }
        requires there { (l : Lead) × (n : Node) × HasFlight (world_of self.old) flight l n }
        ensures ok { OnOk result ((l : Lead) (n : Node) (o : Outcome) → HasFlight (world_of self.old) flight l n → value_of o ≡ value
            → world_of self.new ≡ settled (with_node (world_of self.old) l.node
            (put_table n l.key (landed (table_at n l.key) l.key l.class l.ticket o place keep)))) }
        ensures err { OnErr result (world_of self.new ≡ world_of self.old) }
    {
        let settling = self.settling()?;
        self.land_at(flight, value, place, keep)?;
        self.settle(settling);
        Ok(())
    }

    /// A flight that is ready ends, and its calls know.
    pub(crate) fn land(&mut self, flight: usize, keep: bool) -> Result<(), WorldFault>
        requires sound { IsSoundWorld (world_of self.old) }
        ensures ok { OnOk result (step (world_of self.old) (Event.Land flight keep) ≡ Some (world_of self.new)) }
        ensures not_now { IfErr result (λ f. f ≡ WorldFault.NotNow → step (world_of self.old) (Event.Land flight keep) ≡ None) }
        ensures no_memory { IfErr result (λ f. f ≡ WorldFault.NoMemory → ¬ (step (world_of self.old) (Event.Land flight keep) ≡ None)) }
        ensures same { OnErr result (world_of self.new ≡ world_of self.old) }
    {
        let Some((lead, outcome, place)) = self.ready(flight) else {
            return Err(WorldFault::NotNow);
        };
        let Some(_node) = self.node_at(lead.node) else {
            return Err(WorldFault::NotNow);
        };
        let value = value_in(*self.calls.allocator(), outcome)?;
        self.end(flight);
        match self.settle_landed(flight, value, place, keep) {
            Ok(()) => Ok(()),
            Err(_) => {
                self.reopen(flight, place);
                Err(WorldFault::NoMemory)
            }
        }
    }
}
