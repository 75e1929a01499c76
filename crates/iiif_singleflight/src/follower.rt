//! Followers of flights: a look under the group's lock, then a sleep, in turn.

ghost use Rattle.std.specs.Prelude.{◌≡◌};

use crate::flight_condvar::FlightCondvar;
use crate::group_state::GroupState;
use iiif_keys::{CacheKey, System};
use iiif_outcome::{Flight, Receipt};
use std::sync::ledger::Ledger;
use std::sync::{MutexGuard, Wait};

/// Follower of a flight: a call that joined it. It can't be dropped, and `look` alone spends it, whose receipt is its only way out.
/// `GroupState::enter` makes it.
pub struct Follower<K: CacheKey, J: System, L: Ledger> {
    flight: Flight<K, J, L>,
}

/// Follower that looked in vain, with the lock under which it did: so nothing lands between its look and its sleep. It can't be dropped
/// either, and has to sleep before it may look again, so nobody spins.
pub struct Sleeper<'a, K: CacheKey, J: System, L: Ledger> {
    flight: Flight<K, J, L>,
    state: MutexGuard<'a, GroupState<K, J, L>>,
}

/// Result of a follower's look.
pub enum Look<'a, K: CacheKey, J: System, L: Ledger> {
    /// The flight landed.
    Landed(Receipt<K, J, L>),
    /// The flight is still open.
    Pending(Sleeper<'a, K, J, L>),
}

impl<K: CacheKey, J: System, L: Ledger> Follower<K, J, L> {
    ghost use Rattle.iiif_singleflight.specs.Handles.{followed, Finds};

    /// Makes the follower of a flight.
    pub(crate) fn new(flight: Flight<K, J, L>) -> Follower<K, J, L>
        ensures { followed result ≡ flight }
    {
        Follower { flight }
    }

    /// Returns the flight's number.
    pub fn ticket(&self) -> u64 {
        self.flight.ticket()
    }

    /// Looks whether the flight landed, under the group's lock, which is let go of where it did.
    pub fn look<'a>(self, state: MutexGuard<'a, GroupState<K, J, L>>) -> Look<'a, K, J, L>
        ensures { Finds (followed self) result }
    {
        let Follower { flight } = self;
        match flight.learn() {
            Ok(receipt) => Look::Landed(receipt),
            Err(flight) => Look::Pending(Sleeper { flight, state }),
        }
    }
}

impl<'a, K: CacheKey, J: System, L: Ledger> Sleeper<'a, K, J, L> {
    ghost use Rattle.iiif_singleflight.specs.Handles.{followed, slept};

    /// Sleeps until flights of its stripe have landed. It lets go of the lock as it falls asleep, and takes it again.
    pub fn sleep<R: Wait>(
        self,
        rt: &R,
        condvar: &FlightCondvar<L>,
    ) -> (Follower<K, J, L>, MutexGuard<'a, GroupState<K, J, L>>)
        ensures { followed result.0 ≡ slept self.entry }
    {
        let Sleeper { flight, state } = self;
        let state = condvar.stripe(flight.ticket()).wait(rt, state);
        (Follower { flight }, state)
    }
}
