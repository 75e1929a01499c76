//! Looks at other nodes.

use crate::timed::Deadline;
use iiif_breaker::Asks;
use iiif_io::Inlet;
use std::io;
use std::net::{Net, Shutdown, SocketAddr, TcpStream};
use std::time::{Clock, Duration};

/// A look at a node that is made.
#[derive(Clone, Copy)]
pub struct Look {
    /// How the node's asks had ended when it began.
    pub before: Asks,
    /// Whether the node is left alone.
    pub is_left_alone: bool,
    /// Whether the node's name is to be looked up first.
    pub is_to_look_up: bool,
    /// The place of its address, and the address, where one is known.
    pub place: usize,
    pub address: Option<SocketAddr>,
}

/// Result of a look.
#[derive(Clone, Copy, PartialEq, Eq)]
pub enum Found {
    /// Nobody answered in time.
    Nobody,
    /// The node.
    Node,
    /// The node that looks: the address leads to its own listener.
    Itself,
}

/// Connects to an address and ends what is sent there before its first byte. Who listens there for nodes then ends the connection too.
/// Returns the address that the connection comes from. An error where the listener doesn't end it within a limit of time, or sends
/// something.
fn meet<R: Net<Stream = TcpStream> + Clock>(
    rt: &R,
    address: &SocketAddr,
    limit: Duration,
) -> io::Result<SocketAddr> {
    let deadline = Deadline::new(rt, limit)?;
    let mut stream = TcpStream::connect_timeout(rt, address, deadline.left()?)?;
    let source = stream.local_addr()?;
    stream.shutdown(Shutdown::Write)?;
    stream.set_read_timeout(Some(deadline.left()?))?;
    let mut byte = [0u8; 1];
    stream.pull(&mut byte)?;
    Ok(source)
}

/// Whether a connection from a source to a target comes to the listener at an address, which may be that of all of a host's addresses: then
/// one of these is the target where it is a loopback address, or the source too.
pub fn leads_to(listener: &SocketAddr, source: &SocketAddr, target: &SocketAddr) -> bool {
    if target.port() != listener.port() {
        return false;
    }
    let to = target.ip();
    if listener.ip().is_unspecified() {
        to.is_loopback() || to == source.ip()
    } else {
        to == listener.ip()
    }
}

impl Look {
    /// Looks for the node within a limit of time. Own is the address of the listener of the node that looks, where it is known.
    pub fn find<R: Net<Stream = TcpStream> + Clock>(
        &self,
        rt: &R,
        limit: Duration,
        own: Option<&SocketAddr>,
    ) -> Found {
        let Some(address) = &self.address else {
            return Found::Nobody;
        };
        match (meet(rt, address, limit), own) {
            (Ok(source), Some(own)) if leads_to(own, &source, address) => Found::Itself,
            (Ok(_), _) => Found::Node,
            (Err(_), _) => Found::Nobody,
        }
    }
}
