//! Health of a node: what its asks and its health checks told.

use crate::addresses::Addresses;
use crate::look::Look;
use iiif_breaker::{Asks, Change, LinkRecord, Outcome, State};
use std::alloc::Global;
use std::net::SocketAddr;
use std::sync::{Mutex, Wait};
use std::time::{Clock, Instant};

/// When the node was first asked or looked at, its addresses, whether they are to be looked up, whether a look found it there so far,
/// whether the last one that found anybody found the node that looks, and how its asks ended.
#[derive(Drop)]
struct Memory {
    start: Option<Instant>,
    addresses: Addresses,
    is_to_look_up: bool,
    was_met: bool,
    is_itself: bool,
    record: LinkRecord,
}

/// Leave to ask a node once. [`Health::begin`] alone gives it, where the link's breaker allows an ask. It can't be dropped: whoever has it
/// reports how the ask ended, or releases it where nothing is known of that.
pub struct AskSlot {
    number: u64,
    /// Whether the node was left alone until now, and this is the one ask that tries it.
    is_probe: bool,
    /// Whether the node's name is to be looked up first.
    is_to_look_up: bool,
    /// The place of its address, and the address, where one is known.
    place: usize,
    address: Option<SocketAddr>,
}

impl AskSlot {
    /// Returns whether the node's name is to be looked up first.
    pub fn is_to_look_up(&self) -> bool {
        self.is_to_look_up
    }

    /// Returns the address that is to be asked, where one is known.
    pub fn address(&self) -> Option<SocketAddr> {
        self.address
    }
}

/// Health of a node. Each ask that is made begins with its slot and ends with a report, and each look ends with what it found. All is done
/// under a lock, as [`LinkRecord`] and [`Addresses`] say.
#[derive(Drop)]
pub struct Health {
    memory: Mutex<Memory>,
}

impl Memory {
    /// Returns the milliseconds since the node was first asked or looked at, which is now where it wasn't yet. The last moment of all where
    /// there is no clock.
    fn moment<R: Clock>(&mut self, rt: &R) -> u64 {
        let Ok(now) = Instant::now(rt) else {
            return u64::MAX;
        };
        let start = *self.start.get_or_insert(now);
        u64::try_from(now.duration_since(start).as_millis()).unwrap_or(u64::MAX)
    }

    /// Returns whether not all ask the node, since it failed.
    fn is_left_alone(&self) -> bool {
        !matches!(self.record.state(), State::Closed { .. })
    }

    /// Makes a look.
    fn look(&self) -> Look {
        let is_left_alone = self.is_left_alone();
        Look {
            before: self.record.asks(),
            is_left_alone,
            is_to_look_up: is_left_alone && self.is_to_look_up,
            place: self.addresses.place(),
            address: self.addresses.asked(),
        }
    }

    /// Makes the slot of an ask of this number.
    fn slot(&self, number: u64) -> AskSlot {
        let is_probe = self.is_left_alone();
        AskSlot {
            number,
            is_probe,
            is_to_look_up: is_probe && self.is_to_look_up,
            place: self.addresses.place(),
            address: self.addresses.asked(),
        }
    }
}

impl Health {
    /// Makes the health of a node that wasn't asked yet, whose name is to be looked up.
    pub fn new(alloc: Global) -> Health {
        Health {
            memory: Mutex::new(Memory {
                start: None,
                addresses: Addresses::unknown(alloc),
                is_to_look_up: true,
                was_met: false,
                is_itself: false,
                record: LinkRecord::new(),
            }),
        }
    }

    /// Begins an ask, which is made now. None where the node is left alone, or is the one that asks.
    pub fn begin<R: Clock + Wait>(&self, rt: &R) -> Option<AskSlot> {
        let mut guard = self.memory.lock(rt);
        let memory = &mut *guard;
        if memory.is_itself {
            return None;
        }
        let now = memory.moment(rt);
        let number = memory.record.may_ask(now)?;
        Some(memory.slot(number))
    }

    /// Returns the slot with the address that is known by now.
    pub fn renew<R: Wait>(&self, rt: &R, slot: AskSlot) -> AskSlot {
        let AskSlot {
            number,
            is_probe,
            is_to_look_up,
            place: _place,
            address: _address,
        } = slot;
        let guard = self.memory.lock(rt);
        AskSlot {
            number,
            is_probe,
            is_to_look_up,
            place: guard.addresses.place(),
            address: guard.addresses.asked(),
        }
    }

    /// Takes a slot back of which nothing is known: its ask wasn't made, or ended for want of memory here.
    pub fn release(&self, slot: AskSlot) {
        let AskSlot {
            number: _number,
            is_probe: _is_probe,
            is_to_look_up: _is_to_look_up,
            place: _place,
            address: _address,
        } = slot;
    }

    /// Takes in what a look-up found, unless that is nothing.
    pub fn keep_found<R: Wait>(&self, rt: &R, found: Vec<SocketAddr>) {
        if found.is_empty() {
            return;
        }
        let mut guard = self.memory.lock(rt);
        let memory = &mut *guard;
        memory.is_to_look_up = false;
        memory.addresses.renew(found);
    }

    /// Takes in how the ask of a slot ended, and says what becomes of the link. After a fault the next address is asked; after one of an
    /// ask that was to try the node the next of these looks its name up.
    pub fn report<R: Clock + Wait>(
        &self,
        rt: &R,
        slot: AskSlot,
        outcome: Outcome,
    ) -> Option<Change> {
        let AskSlot {
            number,
            is_probe,
            is_to_look_up: _is_to_look_up,
            place,
            address: _address,
        } = slot;
        let mut guard = self.memory.lock(rt);
        let memory = &mut *guard;
        let now = memory.moment(rt);
        if matches!(outcome, Outcome::Failed | Outcome::TimedOut) {
            memory.addresses.leave(place);
            memory.is_to_look_up = memory.is_to_look_up || is_probe;
        }
        memory.record.report(now, number, outcome)
    }

    /// Begins a look, which is made now. None where none is due.
    pub fn begin_look<R: Clock + Wait>(&self, rt: &R) -> Option<Look> {
        let mut guard = self.memory.lock(rt);
        let memory = &mut *guard;
        let now = memory.moment(rt);
        if memory.record.is_due(now) {
            Some(memory.look())
        } else {
            None
        }
    }

    /// Returns the look with the address that is known by now.
    pub fn look_again<R: Wait>(&self, rt: &R, look: &Look) -> Look {
        let guard = self.memory.lock(rt);
        let mut again = *look;
        again.place = guard.addresses.place();
        again.address = guard.addresses.asked();
        again
    }

    /// Takes in that a look found the node there.
    pub fn report_met<R: Wait>(&self, rt: &R) {
        let mut memory = self.memory.lock(rt);
        memory.was_met = true;
        memory.is_itself = false;
    }

    /// Takes in that a look found the node that looks, and says whether that is new.
    pub fn report_itself<R: Wait>(&self, rt: &R) -> bool {
        let mut memory = self.memory.lock(rt);
        let is_new = !memory.is_itself;
        memory.is_itself = true;
        is_new
    }

    /// Returns whether the last look that found anybody found the node that looks.
    pub fn is_itself<R: Wait>(&self, rt: &R) -> bool {
        self.memory.lock(rt).is_itself
    }

    /// Takes in that a look was in vain, and says what becomes of the link: where an ask was answered since the look began, nothing does.
    /// Then the next address is asked; where the node was left alone already, the next look or ask that tries it looks its name up. One
    /// that no look found there yet may be about to begin: it is left to the asks.
    pub fn report_missed<R: Clock + Wait>(&self, rt: &R, look: &Look) -> Option<Change> {
        let mut guard = self.memory.lock(rt);
        let memory = &mut *guard;
        if !memory.was_met {
            return None;
        }
        let now = memory.moment(rt);
        let change = memory.record.report_silent(now, &look.before);
        if memory.is_left_alone() {
            memory.addresses.leave(look.place);
            memory.is_to_look_up = memory.is_to_look_up || look.is_left_alone;
        }
        change
    }

    /// Returns its address that is asked, where one is known.
    pub fn address<R: Wait>(&self, rt: &R) -> Option<SocketAddr> {
        self.memory.lock(rt).addresses.asked()
    }

    /// Returns how its asks ended so far.
    pub fn asks<R: Wait>(&self, rt: &R) -> Asks {
        self.memory.lock(rt).record.asks()
    }

    /// Returns whether it is asked.
    pub fn state<R: Wait>(&self, rt: &R) -> State {
        self.memory.lock(rt).record.state()
    }
}
