//! A connection, as its listener knows it.

use crate::recent::Recent;

/// The state of a place.
#[derive(Clone, Copy, PartialEq, Eq)]
pub enum SeatState {
    /// No connection is there.
    Free,
    /// A request of it is read or answered, or it is closed.
    AtWork,
    /// It waits for the first byte of a request, since that turn of its listener's table.
    Idle(u64),
}

/// A place, and the connection that has it.
#[derive(Clone, Copy, PartialEq, Eq)]
pub struct Seat {
    /// The number that tells the connection from those that had the place before. 0 where it is free.
    pub number: u64,
    /// Where it comes from, as [`crate::address_of`] has it.
    pub address: u128,
    pub standing: SeatState,
    /// The rate at which it took answers of late.
    pub recent: Recent,
}
