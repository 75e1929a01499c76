//! The places of a listener, as its connections share them.

ghost use Rattle.std.specs.Prelude.{◌≡◌, ◌≤◌, length};
ghost use Rattle.iiif_listener.specs.Places.{most};

use crate::address::address_of;
use crate::table::{MOST, Table};
use crate::ticket::Ticket;
use std::alloc::{AllocError, Global};
use std::net::{IpAddr, Shutdown, TcpStream};
use std::sync::{Mutex, Wait};

/// The table of places, and a handle on each connection, by which it is shut down.
#[derive(Drop)]
struct Room {
    table: Table,
    handles: Vec<Option<TcpStream>>,
    ghost each: { length handles.items ≡ 64 },
}

impl Room {
    /// Makes free places.
    fn new(alloc: Global) -> Result<Room, AllocError> {
        let mut handles = Vec::with_capacity(alloc, MOST as usize)?;
        for _ in 0..MOST {
            handles.push(None)?;
        }
        Ok(Room {
            table: Table::new(),
            handles,
        })
    }

    /// Gives a place, as [`Table::enter`] does. The connection that had it until then is shut down.
    fn enter(
        &mut self,
        address: u128,
        bound: usize,
        now: u64,
        handle: TcpStream,
    ) -> Option<Ticket> {
        let ticket = self.table.enter(address, bound, now)?;
        if let Some(left) = self.handles[ticket.place].replace(handle) {
            // One that can't be ended so has ended.
            let _ = left.shutdown(Shutdown::Both);
        }
        Some(ticket)
    }

    /// Shuts all connections down.
    fn end_all(&self) {
        for handle in &self.handles {
            if let Some(handle) = handle {
                // One that can't be ended so has ended.
                let _ = handle.shutdown(Shutdown::Both);
            }
        }
    }

    /// Frees the place of a connection that has ended.
    fn leave(&mut self, ticket: Ticket) {
        if self.table.leave(ticket) {
            self.handles[ticket.place] = None;
        }
    }
}

/// The places of a listener: a [`Table`] behind a lock.
#[derive(Drop)]
pub struct Places {
    room: Mutex<Room>,
    bound: usize,
}

impl Places {
    /// Makes free places. One address may have so many at a time: 0 stands for any number.
    pub fn new(alloc: Global, bound: usize) -> Result<Places, AllocError> {
        Ok(Places {
            room: Mutex::new(Room::new(alloc)?),
            bound,
        })
    }

    /// Gives a place to a connection that comes from an address at this moment, in milliseconds: one that is free, or else that of a
    /// connection which is shut down, as [`Table::enter`] says: the one that has been idle longest; else the slowest of those that take
    /// less than 64,000 bytes a second; else one of another address that has more than sixteen places. None where there is none of these,
    /// where this address has as many as it may, or where a handle is missing: then the connection is closed.
    pub fn enter<'a, R: Wait>(
        &'a self,
        rt: &'a R,
        stream: TcpStream,
        from: IpAddr,
        now: u64,
    ) -> Option<Visit<'a, R>> {
        let handle = stream.try_clone().ok()?;
        let ticket = self
            .room
            .lock(rt)
            .enter(address_of(from), self.bound, now, handle)?;
        Some(Visit {
            stream,
            place: Place {
                places: self,
                rt,
                ticket,
            },
        })
    }

    /// Shuts all connections down, whatever they do: each finds it out by its next read or write.
    pub fn end_all<R: Wait>(&self, rt: &R) {
        self.room.lock(rt).end_all();
    }

    /// Counts the places that are taken.
    pub fn taken<R: Wait>(&self, rt: &R) -> usize {
        self.room.lock(rt).table.taken()
    }
}

/// A connection's place. It is dropped once the connection has ended, and is free then.
pub struct Place<'a, R: Wait> {
    places: &'a Places,
    rt: &'a R,
    ticket: Ticket,
}

impl<'a, R: Wait> Place<'a, R> {
    /// Marks the connection as idle: until a request comes, its place may be given to another connection.
    pub fn rest(&self) {
        self.places.room.lock(self.rt).table.rest(self.ticket);
    }

    /// Marks the connection as at work, since a request came. Returns whether it still has its place.
    pub fn work(&self) -> bool {
        self.places.room.lock(self.rt).table.work(self.ticket)
    }

    /// Counts a write that ended now, in milliseconds, and took so many milliseconds and bytes.
    pub fn take(&self, now: u64, waited: u64, bytes: u64) {
        self.places
            .room
            .lock(self.rt)
            .table
            .take(self.ticket, now, waited, bytes);
    }

    /// Returns whether the connection still has its place.
    pub fn is_kept(&self) -> bool {
        self.places.room.lock(self.rt).table.keeps(self.ticket)
    }
}

impl<'a, R: Wait> Drop for Place<'a, R> {
    fn drop(self) {
        let Self { places, rt, ticket } = self;
        places.room.lock(rt).leave(ticket);
    }
}

/// A connection that has a place.
#[derive(Drop)]
pub struct Visit<'a, R: Wait> {
    pub stream: TcpStream,
    pub place: Place<'a, R>,
}
