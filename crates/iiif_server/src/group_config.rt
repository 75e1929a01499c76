//! Settings of a node's groups.

ghost use Rattle.std.specs.Prelude.{◌≡◌, IfOk, length};
ghost use Rattle.iiif_server.specs.GroupConfigs.{HasGroupConfig, HasGroupConfigs, IsGroupConfig};

use crate::room::Room;
use iiif_keys::{CacheKey, System};
use iiif_pixel::NoMemory;
use iiif_ring::Ring;
use iiif_sum_group::{Cluster, Group, NoLink};
use std::alloc::{AllocError, Global};
use std::sync::ledger::{Blank, Ledger};

/// The name of a node that has no others beside it.
const OWN_NAME: &str = "self";

/// Settings of a group of a node: its room, its way to other nodes, and the ledger of its calls.
#[derive(Drop)]
pub struct GroupConfig<N, T> {
    /// The room of its cache.
    pub room: Room,
    /// The gate that each load passes.
    pub gate: T,
    /// The ring of the nodes, at which place of it this one stands, if at any, and a link for each place.
    pub ring: Ring,
    pub own: Option<usize>,
    pub links: Vec<N>,
    /// A ledger that no other has.
    pub blank: Blank,
}

impl<N: Drop, T: Drop> GroupConfig<N, T> {
    /// Makes the group. The only error is lack of memory.
    pub(crate) fn group<K: CacheKey, J: System, L: Ledger>(
        self,
        alloc: Global,
    ) -> Result<Group<K, J, L, N, T>, NoMemory>
        requires { IsGroupConfig L.name L.parts self }
    {
        let cluster = Cluster {
            ring: self.ring,
            own: self.own,
            links: self.links,
        };
        let Room { bytes, entries } = self.room;
        Group::new(alloc, bytes, entries, self.gate, cluster, self.blank)
    }
}

/// Makes the ring of a node that has no others beside it.
fn own_ring(alloc: Global) -> Result<Ring, NoMemory>
    ensures { IfOk result (λ ring. length ring ≡ 1) }
{
    let mut names = Vec::new(alloc);
    names.push(String::from_str(alloc, OWN_NAME)?)?;
    match Ring::new(alloc, names) {
        Ok(ring) => Ok(ring),
        Err(_) => Err(AllocError),
    }
}

impl<T: Drop> GroupConfig<NoLink, T> {
    /// Makes the settings for a node that has no others beside it, with this room, whose loads pass this gate. The only error is lack of
    /// memory.
    pub fn alone(alloc: Global, room: Room, blank: Blank, gate: T) -> Result<Self, NoMemory>
        ensures config { HasGroupConfig blank (λ config. config) result }
        ensures room { IfOk result (λ config. config.room ≡ room) }
        ensures gate { IfOk result (λ config. config.gate ≡ gate) }
    {
        let ring = own_ring(alloc)?;
        let mut links = Vec::new(alloc);
        links.push(NoLink)?;
        Ok(GroupConfig {
            room,
            gate,
            ring,
            own: Some(0),
            links,
            blank,
        })
    }

    /// Makes two of them, with this room each.
    pub(crate) fn both_alone(
        alloc: Global,
        room: Room,
        blanks: (Blank, Blank),
        gates: (T, T),
    ) -> Result<(Self, Self), NoMemory>
        ensures { HasGroupConfigs blanks.0 blanks.1 result }
    {
        let tiles = GroupConfig::alone(alloc, room.again(), blanks.0, gates.0)?;
        let sums = GroupConfig::alone(alloc, room, blanks.1, gates.1)?;
        Ok((tiles, sums))
    }
}
