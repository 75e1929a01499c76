//! Disconnected sockets.

use std::io::ErrorKind;
use std::net::TcpStream;

/// Returns whether the peer reset the connection, even while bytes that it sent before are unread.
pub fn is_reset(stream: &TcpStream) -> bool {
    stream.peer_addr().is_err()
}

/// Returns whether the peer closed the connection, or its sending half, and all that it sent was read. It leaves the stream in blocking
/// mode.
pub fn is_ended(stream: &TcpStream) -> bool {
    let mut byte = [0u8; 1];
    if stream.set_nonblocking(true).is_err() {
        return true;
    }
    let found = stream.peek(&mut byte);
    if stream.set_nonblocking(false).is_err() {
        return true;
    }
    match found {
        Ok(count) => count == 0,
        Err(error) => match error.kind() {
            ErrorKind::WouldBlock | ErrorKind::Interrupted => false,
            _ => true,
        },
    }
}
