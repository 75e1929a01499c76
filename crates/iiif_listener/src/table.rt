//! Which connections have the places of a listener.

ghost use Rattle.std.specs.Prelude.{◌≡◌, ◌⊎◌, ◌<◌, IfNone, IfSome, length, slice_set, true};
ghost use Rattle.iiif_listener.specs.declared.seat.SeatState.TheVariants.{AtWork, Idle};
ghost use Rattle.iiif_listener.specs.Places.{IsCrowded, IsFull, IsOusted, IsVacancy, NoneIsFree, NoneIsOusted, at, is_free as is_free_spec};
ghost use Rattle.iiif_listener.specs.Places.{is_taken, keeps, left_by, most, standing_so, taken, taken_at};
ghost use Rattle.iiif_listener.specs.Recent.{unknown};

use crate::ranking::{Ranking, connections_of, first_ranked};
use crate::recent::UNKNOWN;
use crate::seat::{Seat, SeatState};
use crate::ticket::Ticket;

/// The most open connections of a listener, and the most beside them that still end, whose places others have.
pub const MOST: u32 = 64;

/// A place without a connection.
const NOBODY: Seat = Seat {
    number: 0,
    address: 0,
    standing: SeatState::Free,
    recent: UNKNOWN,
};

/// The places of a listener, each with its connection.
#[derive(Drop)]
pub struct Table {
    seats: [Seat; 64],
    /// A clock, which ticks with each connection that comes or becomes idle.
    turns: u64,
    /// The number of connections that still end, whose places others have.
    leaving: u32,
}

/// Returns whether a place is free.
fn is_free(seat: &Seat) -> bool
    ensures { result ≡ is_free_spec seat.now.standing }
{
    match seat.standing {
        SeatState::Free => true,
        SeatState::AtWork | SeatState::Idle(_) => false,
    }
}

/// Returns whether a connection has the place.
fn is_taken(seat: &Seat) -> bool
    ensures { result ≡ is_taken seat.now }
{
    !is_free(seat)
}

/// Finds a free place.
fn free_place(seats: &[Seat]) -> Option<usize>
    ensures some { IfSome result (λ place. (place < length seats.now) × (is_free_spec (at seats.now place).standing ≡ true)) }
    ensures none { length seats.now ≡ most → IfNone result (NoneIsFree seats.now) }
{
    for (place, seat) in seats.iter().enumerate() {
        if is_free(seat) {
            return Some(place);
        }
    }
    None
}

impl Table {
    /// Makes a table of free places.
    pub fn new() -> Table
        ensures { taken result.seats ≡ 0 }
    {
        Table {
            seats: [NOBODY; 64],
            turns: 0,
            leaving: 0,
        }
    }

    /// Counts the places that are taken.
    pub fn taken(&self) -> usize
        ensures { result ≡ taken self.now.seats }
    {
        self.seats.iter().filter(|seat| is_taken(*seat)).count()
    }

    /// Finds the place whose connection is shut down at this moment for one that comes from an address.
    fn ousted(&self, address: u128, now: u64) -> Option<usize>
        ensures some { IfSome result (λ place. IsOusted self.now.seats address now place) }
        ensures inside { IfSome result (λ place. place < most) }
        ensures none { IfNone result (NoneIsOusted self.now.seats address now) }
    {
        if let Some(place) = first_ranked(Ranking::Idle, &self.seats) {
            return Some(place);
        }
        if let Some(place) = first_ranked(Ranking::Slow(now), &self.seats) {
            return Some(place);
        }
        first_ranked(Ranking::Crowd(address), &self.seats)
    }

    /// Finds the place for a connection that comes from an address at this moment.
    fn vacancy(&self, address: u128, now: u64) -> Option<usize>
        ensures some { IfSome result (λ place. IsVacancy self.now address now place) }
        ensures none { IfNone result (IsFull self.now address now) }
    {
        if let Some(place) = free_place(&self.seats) {
            return Some(place);
        }
        if self.leaving >= MOST {
            return None;
        }
        self.ousted(address, now)
    }

    /// Gives a place to a connection that comes from this address at this moment, in milliseconds. So many of an address may have one: 0
    /// stands for any number. It may be the place of another one, which is to be closed. None where the connection is turned away.
    pub fn enter(&mut self, address: u128, bound: usize, now: u64) -> Option<Ticket>
        ensures place { IfSome result (λ t. IsVacancy self.old address now t.place × (IsCrowded self.old.seats address bound → ⊥)) }
        ensures seats { IfSome result (λ t. self.new.seats ≡ slice_set self.old.seats t.place
            (record { number = t.number; address = address; standing = AtWork; recent = unknown })) }
        ensures none { IfNone result (IsCrowded self.old.seats address bound ⊎ IsFull self.old address now) }
        ensures same { IfNone result (self.new ≡ self.old) }
    {
        if bound > 0 && connections_of(address, &self.seats) >= bound {
            return None;
        }
        let place = self.vacancy(address, now)?;
        if !is_free(&self.seats[place]) {
            self.leaving += 1;
        }
        self.turns = self.turns.saturating_add(1);
        let number = self.turns;
        self.seats[place] = Seat {
            number,
            address,
            standing: SeatState::AtWork,
            recent: UNKNOWN,
        };
        Some(Ticket { place, number })
    }

    /// Returns whether a connection still has its place.
    pub fn keeps(&self, ticket: Ticket) -> bool
        ensures { result ≡ keeps self.now.seats ticket }
    {
        self.seats[ticket.place].number == ticket.number
    }

    /// Sets the state of a connection. Returns whether it still has its place: where not, nothing changes.
    fn stand(&mut self, ticket: Ticket, standing: SeatState) -> bool
        ensures value { result ≡ keeps self.old.seats ticket }
        ensures state { self.new ≡ record self.old { seats = standing_so self.old.seats ticket standing } }
    {
        if !self.keeps(ticket) {
            return false;
        }
        self.seats[ticket.place].standing = standing;
        true
    }

    /// Marks a connection as idle. Returns whether it still has its place.
    pub fn rest(&mut self, ticket: Ticket) -> bool
        ensures value { result ≡ keeps self.old.seats ticket }
        ensures seats { self.new.seats ≡ standing_so self.old.seats ticket (Idle self.new.turns) }
    {
        self.turns = self.turns.saturating_add(1);
        self.stand(ticket, SeatState::Idle(self.turns))
    }

    /// Marks a connection as at work, since a request came. Returns whether it still has its place.
    pub fn work(&mut self, ticket: Ticket) -> bool
        ensures value { result ≡ keeps self.old.seats ticket }
        ensures seats { self.new.seats ≡ standing_so self.old.seats ticket AtWork }
    {
        self.stand(ticket, SeatState::AtWork)
    }

    /// Counts a write to a connection that ended now, in milliseconds, and took so many milliseconds and bytes. Returns whether the
    /// connection still has its place.
    pub fn take(&mut self, ticket: Ticket, now: u64, waited: u64, bytes: u64) -> bool
        ensures value { result ≡ keeps self.old.seats ticket }
        ensures seats { self.new.seats ≡ taken_at self.old.seats ticket now waited bytes }
    {
        if !self.keeps(ticket) {
            return false;
        }
        self.seats[ticket.place].recent.take(now, waited, bytes);
        true
    }

    /// Frees the place of a connection that has ended. Returns whether it had its place until now.
    pub fn leave(&mut self, ticket: Ticket) -> bool
        ensures value { result ≡ keeps self.old.seats ticket }
        ensures seats { self.new.seats ≡ left_by self.old.seats ticket }
    {
        if !self.keeps(ticket) {
            self.leaving = self.leaving.saturating_sub(1);
            return false;
        }
        self.seats[ticket.place] = NOBODY;
        true
    }
}
