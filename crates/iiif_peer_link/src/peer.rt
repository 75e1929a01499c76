//! Other nodes, as links reach them.

use crate::health::{AskSlot, Health};
use crate::look::Found;
use crate::refusals::Refusals;
use iiif_breaker::{Change, Durations};
use iiif_log::{Log, Moment, PeerTurn, RefusedImage, Turn};
pub use std::alloc::AllocError as NoMemory;
use std::alloc::Global;
use std::net::{Net, SocketAddr, TcpStream, ToSocketAddrs};
use std::sync::{Mutex, Wait};
use std::time::{Clock, Duration};

/// Another node: its name, where it answers nodes, as `host:port`, how long an ask may take, and what is known of it. All links to it share
/// that.
#[derive(Drop)]
pub struct Peer {
    name: String,
    address: String,
    limit: Duration,
    health: Health,
    refusals: Refusals,
}

/// How long a look may take at most, in milliseconds.
const LOOK: u64 = 250;

/// Returns the log's word for a change of a link.
fn told_of(change: Change) -> Turn {
    match change {
        Change::LeftAlone => Turn::LeftAlone,
        Change::AskedAgain => Turn::AskedAgain,
    }
}

/// Resolves an address. Where it can't be looked up, nothing is found.
fn look_up_address<R: Net>(
    rt: &R,
    alloc: Global,
    address: &str,
) -> Result<Vec<SocketAddr>, NoMemory> {
    let mut all = Vec::new(alloc);
    if let Ok(found) = address.to_socket_addrs(rt) {
        for one in found {
            all.push(one)?;
        }
    }
    Ok(all)
}

impl Peer {
    /// Makes a node that wasn't asked yet, and whose address wasn't looked up. The only error is lack of memory.
    pub fn new(
        alloc: Global,
        name: &str,
        address: &str,
        limit: Duration,
    ) -> Result<Peer, NoMemory> {
        Ok(Peer {
            name: String::from_str(alloc, name)?,
            address: String::from_str(alloc, address)?,
            limit,
            health: Health::new(alloc),
            refusals: Refusals::new(alloc),
        })
    }

    /// Returns its name.
    pub fn name(&self) -> &str {
        self.name.as_str()
    }

    /// Returns how long an ask may take.
    pub fn limit(&self) -> Duration {
        self.limit
    }

    /// Returns its health.
    pub fn health(&self) -> &Health {
        &self.health
    }

    /// Returns the images for which it refused asks.
    pub fn refusals(&self) -> &Refusals {
        &self.refusals
    }

    /// Looks its address up, without a limit of time. Where nothing is found, what was found before stays.
    pub fn look_up<R: Net + Wait>(&self, rt: &R, alloc: Global) {
        if let Ok(found) = look_up_address(rt, alloc, self.address.as_str()) {
            self.health.keep_found(rt, found);
        }
    }

    /// Begins an ask, which is made now, and looks the node's name up where that is to be done first. None where the node is left alone.
    pub fn begin<R: Net + Clock + Wait>(&self, rt: &R, alloc: Global) -> Option<AskSlot> {
        let slot = self.health.begin(rt)?;
        if !slot.is_to_look_up() {
            return Some(slot);
        }
        self.look_up(rt, alloc);
        Some(self.health.renew(rt, slot))
    }

    /// Looks whether the node is there, where a look is due, so that no ask has to find out: it connects, ends what it sends, and waits for
    /// the node to do so too, for as long as an ask may take and a quarter of a second at most. A node that isn't there is left alone, and
    /// one that is left alone isn't asked again for that. One whose address leads to the listener at the own address isn't asked at all.
    /// The log is told of the link's change, where there is a log.
    pub fn look<R>(&self, rt: &R, alloc: Global, log: Option<&Log>, own: Option<&SocketAddr>)
    where
        R: Net<Stream = TcpStream> + Clock + Wait,
    {
        let Some(mut look) = self.health.begin_look(rt) else {
            return;
        };
        if look.is_to_look_up {
            self.look_up(rt, alloc);
            look = self.health.look_again(rt, &look);
        }
        match look.find(rt, self.limit.min(Duration::from_millis(LOOK)), own) {
            Found::Node => self.health.report_met(rt),
            Found::Itself => {
                if self.health.report_itself(rt) {
                    self.tell_turn(rt, log, Turn::Itself);
                }
            }
            Found::Nobody => {
                let change = self.health.report_missed(rt, &look);
                self.tell(rt, log, change);
            }
        }
    }

    /// Takes in that the node refused an ask for an image of this name. The first time that is told to the log, where there is one.
    pub fn report_refused<R: Clock + Wait>(&self, rt: &R, log: Option<&Log>, image: &str) {
        if !self.refusals.keep(rt, image) {
            return;
        }
        if let Some(log) = log {
            log.tell_refused_image(
                rt,
                &RefusedImage {
                    at: Moment::now(rt),
                    name: self.name.as_bytes(),
                    image: image.as_bytes(),
                },
            );
        }
    }

    /// Tells the log of a turn of the link, where there is a log.
    fn tell_turn<R: Clock + Wait>(&self, rt: &R, log: Option<&Log>, turn: Turn) {
        if let Some(log) = log {
            log.tell_turn(
                rt,
                &PeerTurn {
                    at: Moment::now(rt),
                    name: self.name.as_bytes(),
                    turn,
                },
            );
        }
    }

    /// Tells the log what became of the link, where there is a log and something did.
    pub fn tell<R: Clock + Wait>(&self, rt: &R, log: Option<&Log>, change: Option<Change>) {
        if let Some(change) = change {
            self.tell_turn(rt, log, told_of(change));
        }
    }
}

/// How long the asks of all links took, as threads share it.
#[derive(Drop)]
pub struct Stopwatch {
    durations: Mutex<Durations>,
}

impl Stopwatch {
    /// Makes a stopwatch that timed no ask.
    pub fn new() -> Stopwatch {
        Stopwatch {
            durations: Mutex::new(Durations::new()),
        }
    }

    /// Counts one more, which took so many microseconds.
    pub fn count<R: Wait>(&self, rt: &R, micros: u64) {
        self.durations.lock(rt).count(micros);
    }

    /// Returns how long they took so far.
    pub fn durations<R: Wait>(&self, rt: &R) -> Durations {
        *self.durations.lock(rt)
    }
}
