//! The end of a connection.

use crate::places::Place;
use std::io::Read;
use std::net::{Shutdown, TcpStream};
use std::sync::Wait;
use std::time::{Clock, Duration, Instant};

/// Time-out of a read from a viewer whose connection is closed, in milliseconds.
const LINGER: u64 = 200;

/// Time for all of these reads, in milliseconds.
const LONGEST: u64 = 2_000;

/// The most blocks of 4,096 bytes that are read and dropped behind the last answer.
const UNREAD_BLOCKS: u32 = 64;

/// Closes a connection whose answers are sent. Input that was left unread would make the kernel reset the connection and drop
/// what it has not sent yet, so the sending side is closed first, and then a bounded amount of input is read and dropped, in a bounded
/// time. One whose place another has was ended then, and nothing is read.
pub fn close<R: Clock + Wait>(rt: &R, place: &Place<'_, R>, mut stream: TcpStream) {
    if !place.is_kept() || stream.shutdown(Shutdown::Write).is_err() {
        return;
    }
    let Ok(begun) = Instant::now(rt) else {
        return;
    };
    let mut block = [0u8; 4096];
    for _ in 0..UNREAD_BLOCKS {
        let Some(left) = left_since(rt, begun) else {
            return;
        };
        // Where it can't be set, the bound on what is read is enough.
        let _ = stream.set_read_timeout(Some(left.min(Duration::from_millis(LINGER))));
        match stream.read(&mut block) {
            Ok(0) | Err(_) => return,
            Ok(_) => {}
        }
    }
}

/// Returns the time that is left to a connection that is being closed since an instant. None where none is.
fn left_since<R: Clock>(rt: &R, begun: Instant) -> Option<Duration> {
    let passed = begun.elapsed(rt).ok()?;
    match Duration::from_millis(LONGEST).checked_sub(passed) {
        Some(left) if !left.is_zero() => Some(left),
        _ => None,
    }
}
