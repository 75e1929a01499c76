//! Listeners.

use crate::admission::Admission;
use crate::generations::Generations;
use crate::inbox::{Arrival, Door, Inbox};
use crate::places::Places;
use crate::retry::{Retry, after_failure};
use std::net::{IpAddr, Net, Shutdown, TcpListener, TcpStream};
use std::os::fd::OwnedFd;
use std::sync::Wait;
use std::time::{Clock, Duration};
use std::{io, thread};

/// Pause of a listener where files or memory run out, in milliseconds.
const PAUSE: u64 = 10;

/// Time-out of one `accept`, in milliseconds: then the listener looks whether it is to end.
const SLICE: u64 = 200;

/// Reports of connections that are closed unanswered. R is the runtime.
pub trait Refused<R> {
    /// Reports one that came to this listener.
    fn report_refused(&self, rt: &R, door: Door);
}

/// Binds a listener at an address. It waits for a connection for a while at a time; the time-out is the socket's, so a copy sets it.
pub fn bind<R: Net<Listener = TcpListener, Stream = TcpStream>>(
    rt: &R,
    address: &str,
) -> io::Result<TcpListener> {
    let listener = TcpListener::bind(rt, address)?;
    let copy = TcpStream::from(OwnedFd::from(listener.try_clone()?));
    copy.set_read_timeout(Some(Duration::from_millis(SLICE)))?;
    Ok(listener)
}

/// A listener, with its name among those of its node, and the clients that it admits.
#[derive(Clone, Copy)]
pub struct Gateway<'a> {
    pub door: Door,
    pub listener: &'a TcpListener,
    pub admission: Admission<'a>,
}

/// Puts each connection that a listener accepts into the inbox, at a place of its own: there are 64, and for one more another is shut down,
/// as [`Places::enter`] says. Where none is, it is closed unanswered, and so is one that isn't admitted; each of these is reported. Where
/// none can be accepted, as where files or memory run out, the listener waits and goes on, however long that lasts. It ends where it is
/// stopped; or once the node drains and nobody comes for a while, or no connection may stay.
pub fn take_each<'p, R, W>(
    rt: &'p R,
    gateway: Gateway<'_>,
    places: &'p Places,
    inbox: &Inbox<'p, R>,
    watch: &W,
) -> io::Result<()>
where
    R: Wait + Clock,
    W: Refused<R>,
{
    let Gateway {
        door,
        listener,
        admission,
    } = gateway;
    for _ in rt.forever() {
        match listener.accept() {
            Ok((stream, from)) => {
                if !take_one(rt, door, admission, places, inbox, (stream, from.ip())) {
                    watch.report_refused(rt, door);
                }
            }
            Err(error) => match after_failure(error.kind()) {
                Retry::AtOnce => {}
                Retry::Silent if inbox.generations().is_draining() => return Ok(()),
                Retry::Silent => {}
                Retry::Never => return Err(error),
                Retry::Later => thread::sleep(rt, Duration::from_millis(PAUSE)),
            },
        }
        if is_closing(rt, inbox.generations()) {
            return Ok(());
        }
    }
    unreachable!()
}

/// Returns whether connections that wait for a request are closed.
fn is_closing<R: Clock>(rt: &R, generations: &Generations) -> bool {
    match generations.left(rt) {
        Ok(Some(left)) => left.is_zero(),
        Ok(None) => false,
        Err(_) => true,
    }
}

/// Puts a connection that comes from an address into the inbox. Returns whether it did: else the connection is closed.
fn take_one<'p, R: Wait + Clock>(
    rt: &'p R,
    door: Door,
    admission: Admission<'_>,
    places: &'p Places,
    inbox: &Inbox<'p, R>,
    connection: (TcpStream, IpAddr),
) -> bool {
    let (stream, from) = connection;
    if !admission.is_known(from) {
        return false;
    }
    let Ok(now) = inbox.generations().now(rt) else {
        return false;
    };
    match places.enter(rt, stream, from, now) {
        Some(visit) => inbox.put(rt, Arrival { door, visit }),
        None => false,
    }
}

/// Shuts a listener down, so that the thread that serves it ends. Its connections go on.
pub fn stop(listener: &TcpListener) {
    if let Ok(copy) = listener.try_clone() {
        // One that listens no more needs no stop.
        let _ = TcpStream::from(OwnedFd::from(copy)).shutdown(Shutdown::Both);
    }
}
