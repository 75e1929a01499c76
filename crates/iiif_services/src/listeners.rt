//! The addresses that are listened on, and what goes on beside them.

ghost use Rattle.std.specs.Prelude.{◌≡◌, ◌+◌, ◌≤◌};
ghost use Rattle.iiif_services.specs.Doors.{count_in};

use crate::control::{Control, Controls};
use crate::controller::Ended;
use crate::health_checker::HealthChecker;
use iiif_listener::{Admission, Door, Gateway, Inbox, Places, Refused, bind, stop, take_each};
use std::alloc::{AllocError, Global};
use std::io::ErrorKind;
use std::net::{IpAddr, Net, TcpListener, TcpStream, ToSocketAddrs};
use std::sync::{Mutex, Wait};
use std::thread::Threads;
use std::time::{Clock, Duration};
use std::{io, thread};

/// Time from one health check to the next, in milliseconds.
const BETWEEN_LOOKS: u64 = 250;

/// Addresses of listeners, and the clients that they admit.
#[derive(Clone, Copy)]
pub struct Addresses<'a> {
    pub viewers: &'a str,
    pub peers: Option<&'a str>,
    pub statistics: Option<&'a str>,
    /// The path of the control socket.
    pub control: Option<&'a str>,
    /// The most connections of one address at a time, at each listener. 0 stands for any number.
    pub per_address: usize,
    /// The names and addresses of the only nodes whose connections are taken, where not all are.
    pub known: Option<&'a [(&'a str, &'a str)]>,
}

/// The listeners of a node: one for viewers, and perhaps one for other nodes, one for statistics and a control socket; and the clients that
/// they admit.
#[derive(Drop)]
pub struct Listeners {
    pub viewers: TcpListener,
    pub peers: Option<TcpListener>,
    pub statistics: Option<TcpListener>,
    /// The control socket.
    pub control: Option<Control>,
    /// The most connections of one address at a time, at each of them. 0 stands for any number.
    pub per_address: usize,
    /// The only addresses from which other nodes' connections are taken, where not all are.
    pub known: Option<Vec<IpAddr>>,
    /// Whether one of them ended, which ends all.
    is_over: Mutex<bool>,
}

/// Binds a listener at an address, if one is given.
fn bind_some<R: Net<Listener = TcpListener, Stream = TcpStream>>(
    rt: &R,
    address: Option<&str>,
) -> io::Result<Option<TcpListener>> {
    match address {
        Some(address) => Ok(Some(bind(rt, address)?)),
        None => Ok(None),
    }
}

/// Binds the control socket at a path, if one is given.
fn control_at<R: Controls>(
    rt: &R,
    alloc: Global,
    path: Option<&str>,
) -> io::Result<Option<Control>> {
    match path {
        Some(path) => Ok(Some(Control::new(rt.control(alloc, path)?)?)),
        None => Ok(None),
    }
}

/// Looks up the IP addresses of nodes. A name that isn't found has none.
fn look_up_addresses<R: Net>(
    rt: &R,
    alloc: Global,
    nodes: &[(&str, &str)],
) -> Result<Vec<IpAddr>, AllocError> {
    let mut all = Vec::new(alloc);
    for (_, address) in nodes {
        if let Ok(found) = address.to_socket_addrs(rt) {
            for one in found {
                all.push(one.ip())?;
            }
        }
    }
    Ok(all)
}

/// Looks up the only IP addresses from which other nodes' connections are taken, where not all are.
fn look_up_known<R: Net>(
    rt: &R,
    alloc: Global,
    addresses: &Addresses<'_>,
) -> Result<Option<Vec<IpAddr>>, AllocError> {
    match addresses.known {
        Some(nodes) => Ok(Some(look_up_addresses(rt, alloc, nodes)?)),
        None => Ok(None),
    }
}

impl Listeners {
    /// Binds listeners at these addresses. The names of other nodes are looked up now, where they are the only ones whose connections are
    /// taken.
    pub fn bind<R: Net<Listener = TcpListener, Stream = TcpStream> + Controls>(
        rt: &R,
        alloc: Global,
        addresses: &Addresses<'_>,
    ) -> io::Result<Listeners> {
        let Ok(known) = look_up_known(rt, alloc, addresses) else {
            return Err(io::Error::from(ErrorKind::OutOfMemory));
        };
        Ok(Listeners {
            viewers: bind(rt, addresses.viewers)?,
            peers: bind_some(rt, addresses.peers)?,
            statistics: bind_some(rt, addresses.statistics)?,
            control: control_at(rt, alloc, addresses.control)?,
            per_address: addresses.per_address,
            known,
            is_over: Mutex::new(false),
        })
    }

    /// Whether one of them ended, which ends all.
    pub fn is_over<R: Wait>(&self, rt: &R) -> bool {
        *self.is_over.lock(rt)
    }

    /// Ends all of them.
    pub fn end<R: Wait>(&self, rt: &R) {
        *self.is_over.lock(rt) = true;
        self.stop();
    }

    /// Returns whom the listeners admit, and whom the one of other nodes does.
    fn admissions(&self) -> (Admission<'_>, Admission<'_>) {
        let all = Admission {
            per_address: self.per_address,
            known: None,
        };
        let nodes = match &self.known {
            Some(known) => Admission {
                known: Some(known.as_slice()),
                ..all
            },
            None => all,
        };
        (all, nodes)
    }

    /// Shuts each of them down.
    pub fn stop(&self) {
        stop(&self.viewers);
        if let Some(peers) = &self.peers {
            stop(peers);
        }
        if let Some(statistics) = &self.statistics {
            stop(statistics);
        }
        if let Some(control) = &self.control {
            control.stop();
        }
    }

    /// Counts the listeners whose connections are served.
    pub fn doors(&self) -> u32
        ensures { result ≡ 1 + count_in self.now.peers + count_in self.now.statistics }
    {
        1 + count_of(&self.peers) + count_of(&self.statistics)
    }
}

/// Counts a listener that may be missing.
fn count_of(listener: &Option<TcpListener>) -> u32
    ensures count { result ≡ count_in listener.now }
    ensures most { result ≤ 1 }
{
    match listener {
        Some(_) => 1,
        None => 0,
    }
}

/// The places of each listener.
#[derive(Drop)]
pub struct AllPlaces {
    pub viewers: Places,
    pub peers: Places,
    pub statistics: Places,
}

impl AllPlaces {
    /// Makes free places. One address may have so many of each listener's at a time: 0 stands for any number.
    pub fn new(alloc: Global, per_address: usize) -> Result<AllPlaces, AllocError> {
        Ok(AllPlaces {
            viewers: Places::new(alloc, per_address)?,
            peers: Places::new(alloc, per_address)?,
            statistics: Places::new(alloc, per_address)?,
        })
    }

    /// Counts the places that are taken.
    pub fn taken<R: Wait>(&self, rt: &R) -> usize {
        let nodes = self.viewers.taken(rt).saturating_add(self.peers.taken(rt));
        nodes.saturating_add(self.statistics.taken(rt))
    }

    /// Shuts all connections down, whatever they do.
    pub fn end_all<R: Wait>(&self, rt: &R) {
        self.viewers.end_all(rt);
        self.peers.end_all(rt);
        self.statistics.end_all(rt);
    }
}

/// Work that serves connections while the listeners take them.
pub trait Work {
    /// Does the work, and returns how it ended.
    fn run(self) -> Ended;
}

/// Puts the connections of a listener into the inbox until the listener ends. One that fails ends all others; one that drains takes no more
/// connections.
fn take_beside<'p, R, W>(
    rt: &'p R,
    gateway: Gateway<'_>,
    places: &'p Places,
    inbox: &Inbox<'p, R>,
    watch: &W,
    all: &Listeners,
)
where
    R: Wait + Clock,
    W: Refused<R>,
{
    match take_each(rt, gateway, places, inbox, watch) {
        // At once, so that who comes now is refused and isn't left waiting.
        Ok(()) => stop(gateway.listener),
        Err(_) => all.end(rt),
    }
    inbox.shut(rt);
}

/// Checks other nodes every so often until the listeners are over.
fn check_on<R, O>(rt: &R, alloc: Global, listeners: &Listeners, checker: &O)
where
    R: Wait + Clock,
    O: HealthChecker<R>,
{
    for _ in rt.forever() {
        if listeners.is_over(rt) {
            return;
        }
        checker.check(rt, alloc);
        thread::sleep(rt, Duration::from_millis(BETWEEN_LOOKS));
    }
}

/// Puts the connections of all listeners into the inbox, each listener in a thread of its own, while some work serves them; then ends the
/// listeners, and returns once their threads have ended. Where a thread is missing for a listener, nothing is served. Each connection that
/// is closed unanswered is reported. The health checker has a thread of its own; where none can be started, nothing is checked.
pub fn take_all<'p, R, W, O, K>(
    rt: &'p R,
    alloc: Global,
    listeners: &Listeners,
    places: &'p AllPlaces,
    inbox: &Inbox<'p, R>,
    watch: &W,
    checker: Option<&O>,
    work: K,
) -> Ended
where
    R: Threads + Wait + Clock + Sync,
    W: Refused<R> + Sync,
    O: HealthChecker<R> + Sync,
    K: Work + Drop,
{
    let (all, nodes) = listeners.admissions();
    thread::scope(thread::scope_env(), rt, |scope| {
        let viewers = Gateway {
            door: Door::Viewers,
            listener: &listeners.viewers,
            admission: all,
        };
        let started = scope.spawn(move || take_beside(
            rt,
            viewers,
            &places.viewers,
            inbox,
            watch,
            listeners,
        ));
        if started.is_err() {
            return no_thread(rt, listeners);
        }
        if let Some(listener) = &listeners.peers {
            let peers = Gateway {
                door: Door::Peers,
                listener,
                admission: nodes,
            };
            let started = scope.spawn(move || take_beside(
                rt,
                peers,
                &places.peers,
                inbox,
                watch,
                listeners,
            ));
            if started.is_err() {
                return no_thread(rt, listeners);
            }
        }
        if let Some(listener) = &listeners.statistics {
            let readers = Gateway {
                door: Door::Statistics,
                listener,
                admission: all,
            };
            let started = scope.spawn(move || take_beside(
                rt,
                readers,
                &places.statistics,
                inbox,
                watch,
                listeners,
            ));
            if started.is_err() {
                return no_thread(rt, listeners);
            }
        }
        if let Some(checker) = checker {
            let _ = scope.spawn(move || check_on(rt, alloc, listeners, checker));
        }
        let ended = work.run();
        listeners.end(rt);
        ended
    })
}

/// Ends the listeners, since a thread is missing for one.
fn no_thread<R: Wait>(rt: &R, listeners: &Listeners) -> Ended {
    listeners.end(rt);
    Ended::Listener
}
