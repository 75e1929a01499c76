//! The node among others, and what its groups are made with.

ghost use Rattle.std.specs.Prelude.{◌≡◌, ◌<◌, ◌^◌, ℕ, List, Some, IfOk, IsTrue, length, vec_len};
ghost use Rattle.iiif_source.specs.declared.ReadFault.{ReadFault};
ghost use Rattle.iiif_tile_group.specs.Collection.{item_named};
ghost use Rattle.iiif_tile_group.specs.Named.{gave_of, pictures_of};
ghost use Rattle.iiif_start.specs.Stored.{bytes_of, keeps_of, stored_gave};
ghost use Rattle.iiif_server.specs.GroupConfigs.{IsGroupConfig};
ghost use Rattle.iiif_keys.specs.Ledgers.{all_parts};
ghost use Rattle.iiif_peer_link.specs.Honest.{IsHonestTo};
ghost use Rattle.iiif_peer_versions.specs.Keys.{IsSpelled};
ghost use Rattle.iiif_peer_versions.specs.Told.{told_by};

use crate::watcher::Watcher;
use iiif_keys::System;
use iiif_open_files::Opens;
use iiif_peer_link::{Peer, Reaches, TcpLink};
use iiif_peer_versions::FileVersions;
use iiif_pixel::NoMemory;
use iiif_recorder::RecordGate;
use iiif_ring::Ring;
use iiif_server::{Catalogue, Config, GroupConfig, Node, Room};
use iiif_start::Stored;
use std::alloc::{AllocError, Global};
use std::sync::Wait;
use std::sync::ledger::Blank;

/// Names of nodes, and a link to each.
#[derive(Drop)]
struct NamedLinks<'p, J: System, R: Reaches> {
    names: Vec<String>,
    links: Vec<TcpLink<'p, J, R>>,
    ghost one_each: { vec_len names ≡ vec_len links },
}

impl<'p, J: System, R: Reaches> NamedLinks<'p, J, R> {
    /// Makes an empty list.
    fn new(alloc: Global) -> NamedLinks<'p, J, R> {
        NamedLinks {
            names: Vec::new(alloc),
            links: Vec::new(alloc),
        }
    }

    /// Appends a node, of whose asks the watcher is told, by keys with these versions of images' files, if any.
    fn with(
        self,
        alloc: Global,
        peer: &'p Peer,
        watcher: &'p Watcher,
        versions: Option<&'p FileVersions>,
    ) -> Result<NamedLinks<'p, J, R>, NoMemory>
        requires { IsTrue J.honest → IsTrue R.keeps
            × IsHonestTo (IsSpelled (told_by versions)) R.answers J.stable J.pictures }
    {
        let NamedLinks {
            mut names,
            mut links,
        } = self;
        let log = watcher.log.as_ref();
        let link = TcpLink::versioned(alloc, peer, &watcher.peers.watch, log, versions);
        names.push(String::from_str(alloc, peer.name())?)?;
        links.push(link)?;
        Ok(NamedLinks { names, links })
    }
}

/// Makes the parts of a group of a node among others, with this room. This node stands first in the ring, and its own link is never asked.
/// The only error is lack of memory.
fn configure_group<'p, J: System, R: Reaches>(
    alloc: Global,
    watcher: &'p Watcher,
    versions: Option<&'p FileVersions>,
    room: Room,
    blank: Blank,
) -> Result<GroupConfig<TcpLink<'p, J, R>, RecordGate<'p>>, NoMemory>
    requires { IsTrue J.honest → IsTrue R.keeps × IsHonestTo (IsSpelled (told_by versions)) R.answers J.stable J.pictures }
    ensures { (name parts : ℕ) → blank.name ≡ name → blank.parts ≡ parts → parts ≡ all_parts → IfOk result (IsGroupConfig name parts) }
{
    let peers = &watcher.peers;
    let mut named = NamedLinks::new(alloc).with(alloc, &peers.own, watcher, versions)?;
    for peer in &peers.others {
        named = named.with(alloc, peer, watcher, versions)?;
    }
    let NamedLinks { names, links } = named;
    let Ok(ring) = Ring::new(alloc, names) else {
        return Err(AllocError);
    };
    Ok(GroupConfig {
        room,
        gate: RecordGate(watcher.record.as_ref()),
        ring,
        own: Some(0),
        links,
        blank,
    })
}

/// Makes a node that asks the watcher's others for the values of the keys that they own, whose groups have this room each. The names of the
/// nodes are at most 64, and each stands once. The watcher is told of the asks. Where versions of the images' files are known, keys are
/// told with them. The blanks are those of tiles and of sums. R opens the files, and W reaches the other nodes. The only error is lack of
/// memory.
pub fn among<'p, R: Opens + Wait, W: Reaches, J: System>(
    alloc: Global,
    config: Config,
    catalogue: Catalogue<R, Stored<R>>,
    watcher: &'p Watcher,
    versions: Option<&'p FileVersions>,
    room: Room,
    blanks: (Blank, Blank),
) -> Result<Node<R, Stored<R>, J, TcpLink<'p, J, W>, RecordGate<'p>>, NoMemory>
    requires pictures { (name : List ℕ) → J.pictures name ≡ pictures_of (bytes_of R.holds) catalogue name }
    requires gave { (name : List ℕ) (f : ReadFault) → J.gave name f ≡ gave_of stored_gave catalogue name f }
    requires stable { (name : List ℕ) (item : _) → item_named catalogue name ≡ Some item → J.stable name →
        ∥ keeps_of R.keeps item.source ∥₁ }
    requires kept { (name : List ℕ) (item : _) → item_named catalogue name ≡ Some item → keeps_of R.keeps item.source → J.stable name }
    requires edge { config.edge ≡ J.edge }
    requires honest { IsTrue J.honest → IsTrue W.keeps × IsHonestTo (IsSpelled (told_by versions)) W.answers J.stable J.pictures }
    requires tiles { (blanks.0.name ≡ J.tiles_name) × (blanks.0.parts ≡ J.tiles_parts) × (J.tiles_parts ≡ all_parts) }
    requires sums { (blanks.1.name ≡ J.sums_name) × (blanks.1.parts ≡ J.sums_parts) × (J.sums_parts ≡ all_parts) }
    ensures settings { IfOk result (λ n. n.settings ≡ config) }
    ensures items { IfOk result (λ n. n.items ≡ catalogue) }
{
    let (of_tiles, of_sums) = blanks;
    let tiles = configure_group(alloc, watcher, versions, room.again(), of_tiles)?;
    let sums = configure_group(alloc, watcher, versions, room, of_sums)?;
    Node::new(alloc, config, catalogue, tiles, sums)
}
