//! Links over TCP.

ghost use Rattle.std.specs.Prelude.{◌≡◌, [], IfOk, IsTrue, Some};
ghost use Rattle.iiif_peer_versions.specs.Keys.{IsSpelled};
ghost use Rattle.iiif_peer_versions.specs.Told.{told_by};
ghost use Rattle.iiif_peer_wire.specs.Messages.{IsAsk};
ghost use Rattle.iiif_peer_link.specs.Honest.{IsHonest, IsHonestTo, TellsOf};
ghost use Rattle.iiif_peer_link.specs.Versions.{wire_version};

use crate::connection::Connection;
use crate::ends::outcome_of;
use crate::health::AskSlot;
use crate::lengths::{sum_reply_len, tile_reply_len};
use crate::peer::{Peer, Stopwatch};
use crate::reaches::Reaches;
use crate::timed::{Deadline, Timed};
use crate::values::{ask_spelled_over, spelled_key};
use crate::versions::version_for;
use crate::within::Within;
use iiif_fault::Numbered;
use iiif_group::{Link, LinkFault};
use iiif_keys::{CacheKey, Fault, Name, Shape, SumKey, SumVal, System, TileKey, TileVal};
use iiif_log::Log;
use iiif_peer_versions::FileVersions;
use iiif_peer_wire::WireFault;
use std::alloc::Global;
use std::io;
use std::io::ErrorKind;
use std::marker::PhantomData;
use std::net::Net;
use std::sync::Wait;
use std::time::Clock;

/// A way to a node that listens at an address and a port. Each ask connects anew, reads one reply and closes, all within the node's limit
/// of time, and no more of it than the key's value can have. A node that fails is left alone for a while, as its [`Health`](crate::Health)
/// says: then an ask fails at once. Its name is looked up where whoever made the node says so, and again, without a limit, by an ask that
/// is to try it after another one did in vain. Where it knows versions of images' files, each key has its image's behind the name, and
/// images of which it knows none aren't asked for. Where J has honest nodes, the runtime R is to lead to them: what is written and read
/// arrives as it was sent, and the nodes that it reaches answer what keys mean.
#[derive(Drop)]
pub struct TcpLink<'p, J: System, R: Reaches> {
    peer: &'p Peer,
    watch: &'p Stopwatch,
    log: Option<&'p Log>,
    versions: Option<&'p FileVersions>,
    alloc: Global,
    of: PhantomData<J>,
    over: PhantomData<R>,
    pub ghost sure: { IsTrue J.honest → IsTrue R.keeps × IsHonestTo (IsSpelled (told_by versions)) R.answers J.stable J.pictures },
}

/// Connects to the address of a slot, where one is known, to read at most so many bytes.
fn connect<'a, R: Reaches + Clock>(
    rt: &'a R,
    deadline: &Deadline<'a, R>,
    slot: &AskSlot,
    most: u64,
) -> io::Result<Connection<'a, R>>
    ensures { IsTrue R.keeps → IfOk result (λ c. R.written c.out.line ≡ Some []) }
{
    let Some(address) = slot.address() else {
        return Err(io::Error::from(ErrorKind::NotFound));
    };
    let line = rt.connect(&address, deadline.left()?)?;
    Ok(Connection {
        out: Timed {
            line,
            deadline: deadline.again(),
        },
        most: most as usize,
    })
}

/// Asks the node at the address of a slot, on a connection of its own, for the value of the key that these bytes stand for, in a group, in
/// the version of the depth of an image of this shape. At most so many bytes of the reply are read.
fn ask_at<'a, K: CacheKey, R: Reaches + Clock>(
    alloc: Global,
    rt: &'a R,
    at: (&Deadline<'a, R>, &AskSlot),
    group: u8,
    wire: &[u8],
    shape: &Shape,
    most: u64,
) -> Result<K::Value, LinkFault>
    requires { IsAsk group wire.now }
    ensures { (m : K.Value) → IsTrue R.keeps → TellsOf R.answers K.is_value K.val_bytes (wire_version shape.now.depth) group
        wire.now m → IfOk result (λ v. v ≡ m) }
{
    let (deadline, slot) = at;
    let version = version_for(shape.depth);
    match connect(rt, deadline, slot, most) {
        Ok(connection) => {
            ask_spelled_over::<K, Within<Timed<'a, R>>, Connection<'a, R>>(
                alloc, connection, version, group, wire,
            )
        }
        Err(_) => Err(LOST),
    }
}

impl<'p, J: System, R: Reaches> TcpLink<'p, J, R> {
    /// Makes a link to a node. The stopwatch counts how long its asks take, and the log is told of its changes, where there is one.
    pub fn new(
        alloc: Global,
        peer: &'p Peer,
        watch: &'p Stopwatch,
        log: Option<&'p Log>,
    ) -> TcpLink<'p, J, R>
        requires { IsTrue J.honest → IsTrue R.keeps × IsHonest R.answers J.stable J.pictures }
    {
        TcpLink::versioned(alloc, peer, watch, log, None)
    }

    /// Makes a link of which each key has the version of its image's file behind the name, where versions are known.
    pub fn versioned(
        alloc: Global,
        peer: &'p Peer,
        watch: &'p Stopwatch,
        log: Option<&'p Log>,
        versions: Option<&'p FileVersions>,
    ) -> TcpLink<'p, J, R>
        requires { IsTrue J.honest → IsTrue R.keeps × IsHonestTo (IsSpelled (told_by versions)) R.answers J.stable J.pictures }
    {
        TcpLink {
            peer,
            watch,
            log,
            versions,
            alloc,
            of: PhantomData,
            over: PhantomData,
        }
    }

    /// Returns whether the node is asked for an image of this name: not where it said of late that it knows none, or another one.
    fn is_asked_for(&self, rt: &R, name: &Name) -> bool
    where
        R: Clock + Wait,
    {
        !self.peer.refusals().has(rt, name.as_str())
    }

    /// Takes in how the ask of a slot for a part of an image of this name ended.
    fn report<V>(
        &self,
        rt: &R,
        slot: AskSlot,
        deadline: &Deadline<'_, R>,
        name: &Name,
        came: &Result<V, LinkFault>,
    )
    where
        R: Clock + Wait,
    {
        if is_of_other_images(came) {
            self.peer.report_refused(rt, self.log, name.as_str());
        }
        match outcome_of(came, deadline.left().is_err()) {
            Some(outcome) => {
                self.watch.count(rt, deadline.micros());
                let change = self.peer.health().report(rt, slot, outcome);
                self.peer.tell(rt, self.log, change);
            }
            None => self.peer.health().release(slot),
        }
    }
}

/// Whether a node said that it knows no image of the key's name, or one that has no such part.
fn is_of_other_images<V>(came: &Result<V, LinkFault>) -> bool {
    match came {
        Err(LinkFault::Refused(status)) => {
            *status == Fault::UnknownName.number() || *status == Fault::BadKey.number()
        }
        _ => false,
    }
}

/// The fault of an ask that came to nothing.
const LOST: LinkFault = LinkFault::Wire(WireFault::Io);

impl<'p, J: System, R: Reaches + Net + Clock + Wait> Link<TileKey, J, R> for TcpLink<'p, J, R> {
    fn ask(&self, rt: &R, key: &TileKey, shape: &Shape) -> Result<TileVal, LinkFault> {
        if !self.is_asked_for(rt, &key.name) {
            return Err(LOST);
        }
        let Some(wire) = spelled_key(self.alloc, self.versions, key, shape) else {
            return Err(LOST);
        };
        let slot = self.peer.begin(rt, self.alloc).ok_or(LOST)?;
        let Ok(deadline) = Deadline::new(rt, self.peer.limit()) else {
            self.peer.health().release(slot);
            return Err(LOST);
        };
        let most = tile_reply_len(key, shape);
        let at = (&deadline, &slot);
        let came = ask_at::<TileKey, R>(self.alloc, rt, at, 1, wire.as_slice(), shape, most);
        self.report(rt, slot, &deadline, &key.name, &came);
        came
    }
}

impl<'p, J: System, R: Reaches + Net + Clock + Wait> Link<SumKey, J, R> for TcpLink<'p, J, R> {
    fn ask(&self, rt: &R, key: &SumKey, shape: &Shape) -> Result<SumVal, LinkFault> {
        if !self.is_asked_for(rt, &key.name) {
            return Err(LOST);
        }
        let Some(wire) = spelled_key(self.alloc, self.versions, key, shape) else {
            return Err(LOST);
        };
        let slot = self.peer.begin(rt, self.alloc).ok_or(LOST)?;
        let Ok(deadline) = Deadline::new(rt, self.peer.limit()) else {
            self.peer.health().release(slot);
            return Err(LOST);
        };
        let most = sum_reply_len(key, shape);
        let at = (&deadline, &slot);
        let came = ask_at::<SumKey, R>(self.alloc, rt, at, 2, wire.as_slice(), shape, most);
        self.report(rt, slot, &deadline, &key.name, &came);
        came
    }
}
