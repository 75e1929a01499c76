//! The operating system's sockets. All trust in other nodes is here: what is written to a socket reaches the node, and what is read from it
//! is that node's answer. None of this can be proved of a socket. So the premise `keeps` of sockets is false, and a node may answer
//! anything. Each body is one or two system calls, so no code of ours stands below the premise.

ghost use Rattle.std.specs.Prelude.{false, None};

use crate::reaches::Reaches;
use iiif_io::{Inlet, Outlet};
use std::io;
use std::net::{Net, SocketAddr, TcpStream};
use std::time::Duration;

impl<R: Net<Stream = TcpStream>> Reaches for R {
    type Line = TcpStream;

    ghost answers = { λ _ _. Unit {0} };

    ghost keeps = { false };

    ghost written = { λ _. None };

    ghost unread = { λ _. None };

    fn connect(&self, address: &SocketAddr, left: Duration) -> io::Result<TcpStream> {
        let stream = TcpStream::connect_timeout(self, address, left)?;
        stream.set_nodelay(true)?;
        Ok(stream)
    }

    fn put(&self, line: &mut TcpStream, left: Duration, bytes: &[u8]) -> io::Result<usize> {
        line.set_write_timeout(Some(left))?;
        Outlet::put(line, bytes)
    }

    fn turn(&self, line: TcpStream) -> TcpStream {
        line
    }

    fn pull(&self, line: &mut TcpStream, left: Duration, buffer: &mut [u8]) -> io::Result<usize> {
        line.set_read_timeout(Some(left))?;
        Inlet::pull(line, buffer)
    }
}
