//! Lookup of a key's value: begin, wait, complete.
//!
//! `begin` asks the ring for the key's owner, before any cache is looked at. Then it enters the call under the group's lock: in the local
//! class for a key of this node, in the wide one for another node's. A hit is answered at once, and a call that joins a flight waits for
//! it. A miss leads a flight. The leader of a wide flight asks the owner; where the owner gives no value, the leader enters again, in the
//! local class. The leader of a local flight loads the value and calls `complete`, which keeps it, lands the flights and wakes their
//! followers.
//!
//! A key is loaded once. As two steps, a lookup and then a flight might load it twice:
//!
//! 1. Caller 1 looks the key up and misses.
//! 2. Caller 2 looks the key up and misses.
//! 3. Caller 1 opens a flight, loads, keeps the value and closes the flight.
//! 4. Caller 2 finds no flight, opens one, and loads again.
//!
//! groupcache has these two steps, so its leader looks again behind step 4. Here `enter` holds one lock for both, and so does `land` while
//! it keeps the value and closes the flight: caller 2 joins at step 2, or hits. A leader still looks again, under the lock by which it
//! entered, and finds nothing.
//!
//! Nobody sleeps past a landing:
//!
//! 1. The joiner takes the lock and reads the flight's cell, which is empty.
//! 2. The joiner falls asleep on the stripe of the flight's ticket, which lets go of the lock in the same step.
//! 3. The leader takes the lock, sets the cell, and lets go.
//! 4. The leader wakes that stripe. The joiner takes the lock and reads the cell.
//!
//! The leader can't set the cell between 1 and 2, since the joiner holds the lock: as a `Sleeper`, which a look under it makes. If the
//! leader does so before 1, the joiner doesn't sleep.

ghost use Rattle.std.specs.Prelude.{◌≡◌, IfOk};
ghost use Rattle.iiif_tables.specs.declared.table.Class.TheVariants.{Local, Wide};
ghost use Rattle.iiif_outcome.specs.Outcomes.{OutcomeFor};
ghost use Rattle.iiif_singleflight.specs.Calls.{Counts};
ghost use Rattle.iiif_singleflight.specs.Handles.{checked_class, checked_key, entered_of, followed, Ends, IsOf, MeetsFor};
ghost use Rattle.iiif_group.specs.Beginning.{gate_of, open_key, AsksOwner, BegunOf, CountsOnce, CountsTwiceAtMost, HasAsked, IsAlone};
ghost use Rattle.iiif_group.specs.Beginning.{cluster_of, FallsBackIf, HasNoOthers, IsPartOf, LoadsIf};
ghost use Rattle.iiif_group.specs.Code.{AnswersFor, CanLand, ComesOf, CountsOnceAtMost, Finishes, IsAnswer, IsToldBy, Joins};
ghost use Rattle.iiif_group.specs.Code.{OutcomeOf, Relays, Tells};
ghost use Rattle.iiif_group.specs.Ending.{Completes};
ghost use Rattle.iiif_group.specs.Leads.{answered_lead, answered_value, asked_lead, peer_key, peer_link, settled_lead, settled_outcome};
ghost use Rattle.iiif_group.specs.Owners.{GivesNothing, OwnerGivesNothing};

use crate::asked::{Answer, Answered, Asked, Peer, SettledFlight};
use crate::begun::{Begun, Completed, Open};
use crate::gate::{Ending, Gate, Note, Step};
use crate::group::Group;
use crate::link::Link;
use crate::outcomes::share_outcome;
use iiif_keys::{CacheKey, Fault, Shape, System};
use iiif_outcome::Landed;
use iiif_pixel::NoMemory;
use iiif_singleflight::{CheckedLead, Completion, Follower, Look, Lookup, Pass, Receipt};
use iiif_tables::Class;
use std::sync::ledger::Ledger;
use std::sync::{Arc, Condvar, Wait};

/// End of a flight, as its leader is told it.
#[derive(Drop)]
pub struct FlightEnd<K: CacheKey, J: System, L: Ledger> {
    /// The receipt of the flight's cell.
    pub(crate) receipt: Receipt<K, J, L>,
    /// The leader's outcome, where the cell refused it.
    pub(crate) refused: Option<Box<Landed<K, J>>>,
}

impl<K: CacheKey, J: System, L: Ledger, N, T> Group<K, J, L, N, T> {
    /// Looks up a key that fits an image of this shape: returns the outcome of a flight, or the duty to load the value, once the key passed
    /// the gate. The owner of another node's key is asked first. The only error is lack of memory for entering; any later one is the
    /// outcome of the flight.
    pub fn begin<R: Wait>(
        &self,
        rt: &R,
        pass: &mut Pass<L>,
        key: &K,
        shape: &Shape,
    ) -> Result<Begun<K, J, L>, NoMemory>
    where
        N: Link<K, J, R>,
        T: Gate<R>,
        requires { IsPartOf K.CacheKey.own J.System key.now shape.now }
        ensures begun { IfOk result (BegunOf key.now) }
        ensures counts { CountsTwiceAtMost pass.old pass.new result }
        // A key of this node's own is counted once.
        ensures once { HasNoOthers self.now (K.key_bytes key.now) → CountsOnce pass.old pass.new result }
        ensures gated { IfOk result (LoadsIf (T.passed (gate_of self.now) (K.key_bytes key.now))) }
        // A load is owed once the owner was asked, if that is another node.
        ensures asked { IfOk result (AsksOwner self.now (K.key_bytes key.now)) }
        // It enters again, and owes a load in place of an owner, only where the owner's reply has no value of the key's shape.
        ensures falls_back { IfOk result (FallsBackIf (OwnerGivesNothing N.replied (K.is_shaped J.pictures key.now) key.now
            (cluster_of self.now) (K.key_bytes key.now)) pass.old pass.new) }
    {
        let bytes = key.bytes(self.alloc)?;
        match self.nodes.owner(&bytes) {
            None => self.begin_local_class(rt, pass, key, &bytes),
            Some(owner) => self.begin_others(rt, pass, key, shape, &bytes, &owner),
        }
    }

    /// Looks up a key that another node owns, whose wide flight asks it.
    fn begin_others<R: Wait>(
        &self,
        rt: &R,
        pass: &mut Pass<L>,
        key: &K,
        shape: &Shape,
        bytes: &[u8],
        owner: &Peer<'_, N>,
    ) -> Result<Begun<K, J, L>, NoMemory>
    where
        N: Link<K, J, R>,
        T: Gate<R>,
        requires part { IsPartOf K.CacheKey.own J.System key.now shape.now }
        requires bytes { K.key_bytes key.now ≡ bytes.now }
        requires owner { peer_key owner.now ≡ bytes.now }
        ensures begun { IfOk result (BegunOf key.now) }
        ensures counts { CountsTwiceAtMost pass.old pass.new result }
        ensures gated { IfOk result (LoadsIf (T.passed (gate_of self.now) bytes.now)) }
        ensures asked { IfOk result HasAsked }
        ensures falls_back { IfOk result (FallsBackIf (GivesNothing N.replied (K.is_shaped J.pictures key.now) key.now
            (peer_link owner.now)) pass.old pass.new) }
    {
        match self.enter(rt, pass, key, bytes, Class::Wide)? {
            Lookup::Hit(receipt) => Ok(Begun::Known(receipt)),
            Lookup::Joined(follower) => Ok(Begun::Known(self.wait(rt, follower))),
            Lookup::Leads(wide) => match self.ask(rt, pass.id, wide, shape, bytes, owner) {
                Answer::Value(answered) => Ok(Begun::Known(self.keep_answer(rt, answered))),
                Answer::Nothing(asked) => Ok(self.fall_back(rt, pass, key, bytes, asked)),
            },
        }
    }

    /// Looks up a key for which no other node may be asked, whoever owns it. So are other nodes' asks served.
    pub fn begin_local<R: Wait>(
        &self,
        rt: &R,
        pass: &mut Pass<L>,
        key: &K,
        _shape: &Shape,
    ) -> Result<Begun<K, J, L>, NoMemory>
    where
        T: Gate<R>,
        requires { IsPartOf K.CacheKey.own J.System key.now _shape.now }
        ensures begun { IfOk result (BegunOf key.now) }
        ensures counts { CountsOnce pass.old pass.new result }
        ensures gated { IfOk result (LoadsIf (T.passed (gate_of self.now) (K.key_bytes key.now))) }
        ensures alone { IfOk result IsAlone }
    {
        let bytes = key.bytes(self.alloc)?;
        self.begin_local_class(rt, pass, key, &bytes)
    }

    /// Looks up a key in the local class.
    fn begin_local_class<R: Wait>(
        &self,
        rt: &R,
        pass: &mut Pass<L>,
        key: &K,
        bytes: &[u8],
    ) -> Result<Begun<K, J, L>, NoMemory>
    where
        T: Gate<R>,
        ensures begun { IfOk result (BegunOf key.now) }
        ensures counts { CountsOnce pass.old pass.new result }
        ensures gated { IfOk result (LoadsIf (T.passed (gate_of self.now) bytes.now)) }
        ensures alone { IfOk result IsAlone }
    {
        match self.enter(rt, pass, key, bytes, Class::Local)? {
            Lookup::Hit(receipt) => Ok(Begun::Known(receipt)),
            Lookup::Joined(follower) => Ok(Begun::Known(self.wait(rt, follower))),
            Lookup::Leads(local) => {
                self.gate.pass(rt, bytes);
                Ok(Begun::Load(Open { local, wide: None }))
            }
        }
    }

    /// Falls back from an owner that gave no value: enters the local class, and lands the wide flight with what a local flight ended with
    /// already. Lack of memory for entering is the outcome of the wide flight.
    fn fall_back<R: Wait>(
        &self,
        rt: &R,
        pass: &mut Pass<L>,
        key: &K,
        bytes: &[u8],
        asked: Asked<K, J, L>,
    ) -> Begun<K, J, L>
    where
        T: Gate<R>,
        requires { checked_key (asked_lead asked) ≡ key.now }
        ensures begun { BegunOf key.now result }
        ensures told { IsToldBy (asked_lead asked) result }
        ensures counts { CountsOnceAtMost pass.old pass.new }
        ensures gated { LoadsIf (T.passed (gate_of self.now) bytes.now) result }
        ensures asked { HasAsked result }
    {
        let receipt = match self.enter(rt, pass, key, bytes, Class::Local) {
            Ok(Lookup::Hit(receipt)) => receipt,
            Ok(Lookup::Joined(follower)) => self.wait(rt, follower),
            Ok(Lookup::Leads(local)) => {
                self.gate.pass(rt, bytes);
                let wide = Some(asked);
                return Begun::Load(Open { local, wide });
            }
            Err(_) => {
                let told = self.finish_asked(rt, asked, Err(Fault::NoMemory));
                return Begun::Known(told.receipt);
            }
        };
        Begun::Known(self.relay(rt, asked, receipt).0.receipt)
    }

    /// Asks the owner of a wide flight's key, and records the ask and what came of it. No lock is held.
    fn ask<R>(
        &self,
        rt: &R,
        pass: u64,
        wide: CheckedLead<K, J, L>,
        shape: &Shape,
        bytes: &[u8],
        owner: &Peer<'_, N>,
    ) -> Answer<K, J, L>
    where
        N: Link<K, J, R>,
        T: Gate<R>,
        requires owner { K.key_bytes (checked_key wide) ≡ peer_key owner.now }
        requires class { checked_class wide ≡ Wide }
        requires part { IsPartOf K.CacheKey.own J.System (checked_key wide) shape.now }
        ensures { AnswersFor (GivesNothing N.replied (K.is_shaped J.pictures (checked_key wide)) (checked_key wide)
            (peer_link owner.now)) wide result }
    {
        let (rank, ticket) = (wide.key().rank(), wide.ticket());
        self.note_ask(rt, (pass, rank, ticket), bytes, Step::Asked);
        let answer = owner.ask(rt, wide, shape);
        let step = match &answer {
            Answer::Value(_) => Step::Answered,
            Answer::Nothing(_) => Step::Failed,
        };
        self.note_ask(rt, (pass, rank, ticket), bytes, step);
        answer
    }

    /// Records a step of an ask: of which pass, of a key of which rank, and for which flight.
    fn note_ask<R>(&self, rt: &R, ask: (u64, u32, u64), key: &[u8], step: Step)
    where
        T: Gate<R>,
    {
        if !self.gate.records() {
            return;
        }
        let (pass, rank, ticket) = ask;
        let note = Note {
            step,
            class: Class::Wide,
            rank,
            pass,
            ticket,
            key,
        };
        self.gate.note(rt, &note);
    }

    /// Enters a call: looks the key up, joins its flight or opens one, and looks again, all under one lock.
    fn enter<R: Wait>(
        &self,
        rt: &R,
        pass: &mut Pass<L>,
        key: &K,
        bytes: &[u8],
        class: Class,
    ) -> Result<Lookup<K, J, L>, NoMemory>
    where
        T: Gate<R>,
        ensures met { IfOk result (MeetsFor class key.now) }
        ensures counts { Counts entered_of class pass.old pass.new result }
    {
        let mut state = self.state.lock(rt);
        let entered = state.enter(pass, key, class);
        if self.gate.records() {
            let (step, ticket) = step_of(&entered);
            let note = Note {
                step,
                class,
                rank: key.rank(),
                pass: pass.id,
                ticket,
                key: bytes,
            };
            self.gate.note(rt, &note);
        }
        entered
    }

    /// Waits until a flight has landed. The receipt is of this flight: of its ticket, and of the cell by which all learn who joined it.
    fn wait<R: Wait>(&self, rt: &R, joined: Follower<K, J, L>) -> Receipt<K, J, L>
        ensures { Ends (followed joined) result }
    {
        let mut follower = joined;
        let mut state = self.state.lock(rt);
        for _ in rt.forever() {
            match follower.look(state) {
                Look::Landed(receipt) => return receipt,
                Look::Pending(sleeper) => {
                    let (woken, locked) = sleeper.sleep(rt, &self.sleepers);
                    follower = woken;
                    state = locked;
                }
            }
        }
        unreachable!()
    }

    /// Ends a load with a value that is its key's meaning, or with a fault that its source gave or lack of memory, and wakes who waits.
    /// The local flight has that outcome. So has the wide one, if the load has one; but it has lack of memory where the value refuses it a
    /// share. Each receipt is that of its flight's own cell, by which all who joined it learn the same. Where a cell refused its
    /// outcome, which no run meets, the receipt has the one that stands there.
    pub fn complete<R: Wait>(
        &self,
        rt: &R,
        load: Open<K, J, L>,
        outcome: Result<Arc<K::Value>, Fault>,
    ) -> Completed<K, J, L>
    where
        T: Gate<R>,
        requires outcome { OutcomeFor K.CacheKey.own J.System (open_key load) outcome }
        ensures { Completes load outcome result }
    {
        let Open { local, wide } = load;
        match wide {
            None => {
                let FlightEnd { receipt, refused } = self.finish_load(rt, local, outcome);
                Completed {
                    receipt,
                    loaded: None,
                    exact: refused.is_none(),
                    refused,
                }
            }
            Some(asked) => {
                let (second, same) = share_outcome(&outcome);
                let local = self.finish_load(rt, local, outcome);
                let wide = self.finish_asked(rt, asked, second);
                join(local, wide, same)
            }
        }
    }

    /// Lands a wide flight with its owner's value.
    fn keep_answer<R: Wait>(&self, rt: &R, answered: Answered<K, J, L>) -> Receipt<K, J, L>
    where
        T: Gate<R>,
        requires { IsAnswer (answered_lead answered) (answered_value answered) }
        ensures { IsOf (checked_key (answered_lead answered)) result }
    {
        let settled = answered.settle(self.alloc);
        self.finish(rt, settled).receipt
    }

    /// Lands a wide flight with the outcome of a local one of its key, and returns whether it has that outcome: it has lack of memory where
    /// the value refuses it a share. A fault is told as it is.
    fn relay<R: Wait>(
        &self,
        rt: &R,
        asked: Asked<K, J, L>,
        mut receipt: Receipt<K, J, L>,
    ) -> (FlightEnd<K, J, L>, bool)
    where
        T: Gate<R>,
        requires { IsOf (checked_key (asked_lead asked)) receipt }
        ensures { Relays (asked_lead asked) receipt result.0 result.1 }
    {
        let (outcome, exact) = share_outcome(receipt.outcome());
        (self.finish_asked(rt, asked, outcome), exact)
    }

    /// Lands a local flight with the outcome of its load.
    fn finish_load<R: Wait>(
        &self,
        rt: &R,
        local: CheckedLead<K, J, L>,
        outcome: Result<Arc<K::Value>, Fault>,
    ) -> FlightEnd<K, J, L>
    where
        T: Gate<R>,
        requires class { checked_class local ≡ Local }
        requires outcome { OutcomeOf local outcome }
        ensures { Finishes local outcome result }
    {
        self.finish(rt, SettledFlight::from_load(local, outcome))
    }

    /// Lands a wide flight whose owner gave no value with an outcome of this node's own.
    fn finish_asked<R: Wait>(
        &self,
        rt: &R,
        asked: Asked<K, J, L>,
        outcome: Result<Arc<K::Value>, Fault>,
    ) -> FlightEnd<K, J, L>
    where
        T: Gate<R>,
        requires { OutcomeOf (asked_lead asked) outcome }
        ensures { Finishes (asked_lead asked) outcome result }
    {
        self.finish(rt, asked.settle(outcome))
    }

    /// Lands a flight and wakes who waits.
    fn finish<R: Wait>(&self, rt: &R, settled: SettledFlight<K, J, L>) -> FlightEnd<K, J, L>
    where
        T: Gate<R>,
        requires { CanLand settled }
        ensures { Finishes (settled_lead settled) (settled_outcome settled) result }
    {
        let landed = if self.gate.records() {
            self.land_noted(rt, settled)
        } else {
            self.land(rt, settled)
        };
        self.tell(rt, landed)
    }

    /// Lands a flight under the lock. Nobody is woken yet.
    fn land<R: Wait>(&self, rt: &R, settled: SettledFlight<K, J, L>) -> Completion<K, J, L>
        requires { CanLand settled }
        ensures { ComesOf (settled_lead settled) (settled_outcome settled) result }
    {
        let mut state = self.state.lock(rt);
        settled.land(&mut *state)
    }

    /// Lands a flight and records it, both under one lock.
    fn land_noted<R: Wait>(&self, rt: &R, settled: SettledFlight<K, J, L>) -> Completion<K, J, L>
    where
        T: Gate<R>,
        requires { CanLand settled }
        ensures { ComesOf (settled_lead settled) (settled_outcome settled) result }
    {
        let lead = settled.lead();
        let (bytes, key) = (lead.key().bytes(self.alloc), lead.key().copy());
        let (class, rank, ticket) = (lead.class(), lead.key().rank(), lead.ticket());
        let (ending, place) = (ending_of(settled.outcome()), settled.place());
        let mut state = self.state.lock(rt);
        let landed = settled.land(&mut *state);
        // A value that is put into the cache may be evicted at once.
        let is_kept = match &key {
            Ok(key) => landed.kept() && state.holds(key),
            Err(_) => false,
        };
        let note = Note {
            step: Step::Landed(ending, place, is_kept),
            class,
            rank,
            pass: 0,
            ticket,
            key: match &bytes {
                Ok(bytes) => bytes.as_slice(),
                Err(_) => &[],
            },
        };
        self.gate.note(rt, &note);
        landed
    }

    /// Wakes the followers of a flight that landed, and tells its leader how it ended. Where the cell refused the leader's outcome, which
    /// no run meets, another of this flight stands in it, which those who joined learn too. A cell with none of this flight tells nobody:
    /// the leader then waits for good, as they do. Entries that were evicted are dropped here, behind the lock.
    fn tell<R: Wait>(&self, rt: &R, landed: Completion<K, J, L>) -> FlightEnd<K, J, L>
        ensures { Tells landed result }
    {
        let is_own = landed.is_own();
        let woken = landed.wake(&self.sleepers);
        let (receipt, refused) = landed.into_receipt(woken);
        if is_own {
            return FlightEnd { receipt, refused };
        }
        let unwoken = Condvar::new();
        let mut state = self.state.lock(rt);
        for _ in rt.forever() {
            state = unwoken.wait(rt, state);
        }
        unreachable!()
    }
}

/// Joins the ends of a local and a wide flight of one load: whether the wide one was given the same outcome is known.
fn join<K: CacheKey, J: System, L: Ledger>(
    local: FlightEnd<K, J, L>,
    wide: FlightEnd<K, J, L>,
    same: bool,
) -> Completed<K, J, L>
    ensures { Joins local wide same result }
{
    let FlightEnd { receipt, refused } = wide;
    Completed {
        receipt,
        loaded: Some(local.receipt),
        exact: same && refused.is_none(),
        refused: refused.or(local.refused),
    }
}

/// Returns the step of a call that entered or was refused, and the number of its flight.
fn step_of<K: CacheKey, J: System, L: Ledger>(
    entered: &Result<Lookup<K, J, L>, NoMemory>,
) -> (Step, u64) {
    match entered {
        Ok(Lookup::Hit(receipt)) => (Step::Hit, receipt.ticket()),
        Ok(Lookup::Joined(follower)) => (Step::Joined, follower.ticket()),
        Ok(Lookup::Leads(lead)) => (Step::Led, lead.ticket()),
        Err(_) => (Step::Refused, 0),
    }
}

/// Returns the ending of a flight with this outcome.
fn ending_of<V>(outcome: &Result<V, Fault>) -> Ending {
    match outcome {
        Ok(_) => Ending::Value,
        Err(Fault::NoMemory) => Ending::NoMemory,
        Err(_) => Ending::Fault,
    }
}
