//! The event of a call that enters.

ghost use Rattle.std.specs.Prelude.{◌≡◌, ◌<◌, length, position, slice_get, vec_capacity, vec_len, Some, None, IfErr, IfOk, MatchOption};
ghost use Rattle.std.specs.Prelude.{OnErr, OnOk};
ghost use Rattle.iiif_tables.specs.Flights.{enter as entering};
ghost use Rattle.iiif_machine.specs.Keys.{key_eq};
ghost use Rattle.iiif_machine.specs.Scenes.{IsProper};
ghost use Rattle.iiif_machine.specs.Sound.{IsHonestWorld};
ghost use Rattle.iiif_machine.specs.Steps.{step};
ghost use Rattle.iiif_machine.specs.Rows.{Node};
ghost use Rattle.iiif_machine.specs.Worlds.{put_table, settled, table_at, with_flight, with_node, with_state};
ghost use Rattle.iiif_machine.specs.declared.events.Event.{Event};
ghost use Rattle.iiif_machine.specs.declared.events.WorldFault.{WorldFault};
ghost use Rattle.iiif_machine.specs.declared.rows.Caller.{Caller};
ghost use Rattle.iiif_machine.specs.declared.rows.CallState.{CallState};
ghost use Rattle.iiif_machine.specs.Nodes.{entered_of};
ghost use Rattle.iiif_world.specs.Code.{world_of, IsSoundWorld};
ghost use Rattle.iiif_world.specs.Entering.{HasCall, IsFresh};

use crate::contents::Contents;
use iiif_machine::flights::open_for;
use iiif_machine::table::Entered;
use iiif_machine::{CallState, Caller, Flight, Lead, Stage, Value, WorldFault};
use iiif_pixel::NoMemory;

impl Contents {
    /// A call enters the table of its node. After an error all is as before.
    fn enter_at(&mut self, call: usize) -> Result<Entered, NoMemory>
        requires { (who : Caller) × (n : Node) × HasCall (world_of self.old) call who n }
        ensures met { IfOk result (λ r. (who : Caller) (n : Node) → HasCall (world_of self.old) call who n
            → entered_of r ≡ (entering key_eq who.class who.key (table_at n who.key)).0) }
        ensures node { OnOk result ((who : Caller) (n : Node) → HasCall (world_of self.old) call who n
            → world_of self.new ≡ with_node (world_of self.old) who.node
            (put_table n who.key (entering key_eq who.class who.key (table_at n who.key)).1)) }
        ensures flights { self.new.flights ≡ self.old.flights }
        ensures err { OnErr result (world_of self.new ≡ world_of self.old) }
    {
        let caller = &self.calls[call].caller;
        let met = self.nodes[caller.node].enter(&caller.key, caller.class)?;
        Ok(met)
    }

    /// The table of a call's node has it entered, and all see what calls know by now. After an error all is as before.
    fn settle_entered(&mut self, call: usize) -> Result<(), NoMemory>
        requires proper { IsProper (world_of self.old).scene }
        requires honest { IsHonestWorld (world_of self.old) }
        requires there { (who : Caller) × (n : Node) × HasCall (world_of self.old) call who n }
        ensures ok { OnOk result ((who : Caller) (n : Node) → HasCall (world_of self.old) call who n
            → world_of self.new ≡ settled (with_node (world_of self.old) who.node
            (put_table n who.key (entering key_eq who.class who.key (table_at n who.key)).1))) }
        ensures err { OnErr result (world_of self.new ≡ world_of self.old) }
    {
        let settling = self.settling()?;
        let _met = self.enter_at(call)?;
        self.settle(settling);
        Ok(())
    }

    /// A fresh call whose key is kept finds its value.
    fn find(&mut self, call: usize, value: Value, ticket: u64) -> Result<(), WorldFault>
        requires sound { IsSoundWorld (world_of self.old) }
        requires fresh { IsFresh (world_of self.old) call (Some (record { value = value; ticket = ticket })) }
        ensures ok { OnOk result (step (world_of self.old) (Event.Enter call) ≡ Some (world_of self.new)) }
        ensures not_now { IfErr result (λ f. f ≡ WorldFault.NoMemory) }
        ensures same { OnErr result (world_of self.new ≡ world_of self.old) }
    {
        self.set_state(call, CallState::Hit(value));
        match self.settle_entered(call) {
            Ok(()) => Ok(()),
            Err(_) => {
                self.set_state(call, CallState::Fresh);
                Err(WorldFault::NoMemory)
            }
        }
    }

    /// There is room for a flight more.
    fn reserve_flight(&mut self) -> Result<(), NoMemory>
        ensures room { OnOk result (vec_len self.new.flights < vec_capacity self.new.flights) }
        ensures same { world_of self.new ≡ world_of self.old }
    {
        self.flights.reserve(1)?;
        Ok(())
    }

    /// A new flight, for which there is room.
    fn add_flight(&mut self, lead: Lead)
        requires { vec_len self.old.flights < vec_capacity self.old.flights }
        ensures { world_of self.new ≡ with_flight (world_of self.old) lead }
    {
        let flight = Flight {
            lead,
            stage: Stage::New,
        };
        match self.flights.push(flight) {
            Ok(()) => {}
            Err(_) => unreachable!(),
        }
    }

    /// A call leads a new flight, for which there is room.
    fn begin_flight(&mut self, call: usize, lead: Lead)
        requires room { vec_len self.old.flights < vec_capacity self.old.flights }
        requires there { call < length (world_of self.old).calls }
        ensures { (who : Caller) (s : CallState) → slice_get (world_of self.old).calls call ≡ Some (record { caller = who; state = s })
            → world_of self.new ≡ with_state (with_flight (world_of self.old) lead) call who
            (CallState.In (length (world_of self.old).flights)) }
    {
        let number = self.flights.len();
        self.add_flight(lead);
        self.set_state(call, CallState::In(number));
    }

    /// A fresh call whose key isn't kept joins the open flight of its node, key and class, or leads a new one.
    #[tactic(auto, unfolding(iiif_machine::specs::Tables::enter, iiif_tables::specs::Flights::enter))]
    fn fly(&mut self, call: usize) -> Result<(), WorldFault>
        requires sound { IsSoundWorld (world_of self.old) }
        requires fresh { IsFresh (world_of self.old) call None }
        ensures ok { OnOk result (step (world_of self.old) (Event.Enter call) ≡ Some (world_of self.new)) }
        ensures not_now { IfErr result (λ f. f ≡ WorldFault.NoMemory) }
        ensures same { OnErr result (world_of self.new ≡ world_of self.old) }
    {
        let caller = &self.calls[call].caller;
        let open = open_for(&self.flights, caller);
        let key = caller.key.copy()?;
        let (node, class) = (caller.node, caller.class);
        self.reserve_flight()?;
        let met = self.enter_at(call)?;
        match (met, open) {
            (Entered::Led(ticket), _) => {
                self.begin_flight(
                    call,
                    Lead {
                        node,
                        key,
                        class,
                        ticket,
                    },
                );
                Ok(())
            }
            (Entered::Joined(_), Some(flight)) => {
                self.set_state(call, CallState::In(flight));
                Ok(())
            }
            (Entered::Joined(_), None) => unreachable!(),
            (Entered::Hit(_), _) => unreachable!(),
        }
    }

    /// The caller of a fresh call.
    fn fresh_caller(&self, call: usize) -> Option<&Caller>
        ensures { MatchOption result (step (world_of self.now) (Event.Enter call) ≡ None)
            (λ who. slice_get (world_of self.now).calls call ≡ Some (record { caller = who.now; state = CallState.Fresh })) }
    {
        let Some(row) = self.call_at(call) else {
            return None;
        };
        let CallState::Fresh = row.state else {
            return None;
        };
        Some(&row.caller)
    }

    /// A call enters its node's table.
    pub(crate) fn enter(&mut self, call: usize) -> Result<(), WorldFault>
        requires sound { IsSoundWorld (world_of self.old) }
        ensures ok { OnOk result (step (world_of self.old) (Event.Enter call) ≡ Some (world_of self.new)) }
        ensures not_now { IfErr result (λ f. f ≡ WorldFault.NotNow → step (world_of self.old) (Event.Enter call) ≡ None) }
        ensures no_memory { IfErr result (λ f. f ≡ WorldFault.NoMemory → ¬ (step (world_of self.old) (Event.Enter call) ≡ None)) }
        ensures same { OnErr result (world_of self.new ≡ world_of self.old) }
    {
        let Some(caller) = self.fresh_caller(call) else {
            return Err(WorldFault::NotNow);
        };
        let Some(node) = self.node_at(caller.node) else {
            return Err(WorldFault::NotNow);
        };
        let kept = node.kept(&caller.key)?;
        match kept {
            Some(found) => self.find(call, found.value, found.ticket),
            None => self.fly(call),
        }
    }
}
