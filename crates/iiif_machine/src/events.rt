//! The events.

use crate::keys::Key;
use crate::short_request::ShortRequest;
use iiif_keys::Name;
use iiif_pixel::NoMemory;
use iiif_source::ReadFault;
use thiserror::Error;

/// An event, which may happen to a world next. Nodes, calls, flights, asks and replies are named by their numbers, each kind from 0 in
/// the order in
/// which they were made.
#[derive(Drop)]
pub enum Event {
    /// A request comes to a node, for the image of a name: it is refused, or makes a call for each item of its plan.
    Want(usize, Name, ShortRequest),
    /// A call enters its node's table: it finds a value, joins an open flight, or leads a new one.
    Enter(usize),
    /// A flight's leader looks whether the value is kept by now.
    Again(usize),
    /// A wide flight asks the key's owner.
    AskPeer(usize),
    /// An ask comes to the asked node, perhaps once more: a local call serves it.
    Serve(usize),
    /// A call that serves an ask sends what it knows.
    Reply(usize),
    /// A flight gets a reply, perhaps late, or another flight's.
    Take(usize, usize),
    /// A flight's ask gets no reply.
    Lose(usize),
    /// A wide flight that asked in vain makes a local call of its own.
    GoLocal(usize),
    /// A local flight reads its tile; or asks the parts of its sum, and then merges them.
    Load(usize),
    /// The read of a local flight's tile fails.
    SourceFault(usize, ReadFault),
    /// A flight ends with its outcome, whose value is kept, or not.
    Land(usize, bool),
    /// Entries of these keys go from a node's tables.
    Evict(usize, Vec<Key>),
    /// A node ends, with all that it had, and begins anew.
    Stop(usize),
}

/// Why an event did nothing.
#[derive(Clone, Copy, Debug, PartialEq, Eq, Error)]
pub enum WorldFault {
    /// The event isn't allowed now, or names what isn't there.
    #[error("not now")]
    NotNow,
    /// Memory was refused.
    #[error("out of memory")]
    NoMemory,
}

impl WorldFault {
    ghost use Rattle.std.specs.Prelude.{◌≡◌};
    ghost use Rattle.iiif_machine.specs.Faults.{number_of};

    /// The number by which the fault is known outside, 1 to 2.
    pub const fn number(self) -> u8
        ensures { result ≡ number_of self }
    {
        match self {
            WorldFault::NotNow => 1,
            WorldFault::NoMemory => 2,
        }
    }
}

impl From<NoMemory> for WorldFault {
    ghost use Rattle.std.specs.Prelude.{◌≡◌};
    ghost use Rattle.iiif_machine.specs.declared.events.WorldFault.TheVariants.{NoMemory};

    ghost from_gives = { λ _ f. f ≡ NoMemory };

    fn from(_error: NoMemory) -> WorldFault {
        WorldFault::NoMemory
    }
}
