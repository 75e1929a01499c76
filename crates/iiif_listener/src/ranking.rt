//! Which connection is closed for one that comes.

ghost use Rattle.std.specs.Prelude.{◌≡◌, ◌<◌, IfNone, IfSome, length};
ghost use Rattle.iiif_listener.specs.Places.{IsFirst, NoneIsRanked, chosen, connections_of, idle_since, is_at_work, is_of, rank};

use crate::seat::{Seat, SeatState};

/// The most places that an address keeps where another one wants a place.
const CROWD: usize = 16;

/// An order in which connections are closed for one that comes. Of a ranking's numbers the least is the first.
#[derive(Clone, Copy, PartialEq, Eq)]
pub enum Ranking {
    /// Idle connections, from the longest wait on.
    Idle,
    /// Connections at work that are slow, as is known at this moment, from the slowest on.
    Slow(u64),
    /// Connections at work of addresses that have more than sixteen places, but for this address, in the order in which they came.
    Crowd(u128),
}

/// Returns since which turn a connection is idle.
fn idle_since(standing: SeatState) -> Option<u64>
    ensures { result ≡ idle_since standing }
{
    match standing {
        SeatState::Idle(since) => Some(since),
        SeatState::Free | SeatState::AtWork => None,
    }
}

/// Returns whether a request of a connection is read or answered.
fn is_at_work(standing: SeatState) -> bool
    ensures { result ≡ is_at_work standing }
{
    match standing {
        SeatState::AtWork => true,
        SeatState::Free | SeatState::Idle(_) => false,
    }
}

/// Returns whether a connection of an address has the place.
fn is_of(address: u128, seat: &Seat) -> bool
    ensures { result ≡ is_of address seat.now }
{
    match seat.standing {
        SeatState::Free => false,
        SeatState::AtWork | SeatState::Idle(_) => seat.address == address,
    }
}

/// Counts the places that the connections of an address have.
pub(crate) fn connections_of(address: u128, seats: &[Seat]) -> usize
    ensures { result ≡ connections_of address seats.now }
{
    seats.iter().filter(|seat| is_of(address, *seat)).count()
}

/// Returns the number of a connection in a ranking. None where it isn't closed by it.
fn rank(ranking: Ranking, seats: &[Seat], seat: &Seat) -> Option<u64>
    ensures { result ≡ rank ranking seats.now seat.now }
{
    match ranking {
        Ranking::Idle => idle_since(seat.standing),
        Ranking::Slow(now) => {
            if is_at_work(seat.standing) {
                seat.recent.slow_rate(now)
            } else {
                None
            }
        }
        Ranking::Crowd(address) => {
            if !is_at_work(seat.standing) || seat.address == address {
                return None;
            }
            if connections_of(seat.address, seats) > CROWD {
                Some(seat.number)
            } else {
                None
            }
        }
    }
}

/// Returns the one that is ranked first of the connection that was chosen so far, if one was, and the one at a place. The one so far where
/// both have one number.
fn sooner(found: Option<(usize, u64)>, place: usize, number: Option<u64>) -> Option<(usize, u64)>
    ensures { result ≡ chosen found place number }
{
    match (found, number) {
        (None, Some(number)) => Some((place, number)),
        (Some((_, first)), Some(number)) if number < first => Some((place, number)),
        _ => found,
    }
}

/// Returns the place whose connection a ranking has first. None where it has none.
#[tactic(auto, using(crate::proofs::RankingLemmas::next_at, crate::proofs::RankingLemmas::none_at_first, crate::proofs::RankingLemmas::first_of, crate::proofs::RankingLemmas::inside_of))]
pub fn first_ranked(ranking: Ranking, seats: &[Seat]) -> Option<usize>
    ensures some { IfSome result (λ place. IsFirst ranking seats.now place) }
    ensures inside { IfSome result (λ place. place < length seats.now) }
    ensures none { IfNone result (NoneIsRanked ranking seats.now) }
{
    let mut found = None;
    for (place, seat) in seats.iter().enumerate() {
        found = sooner(found, place, rank(ranking, seats, seat));
    }
    match found {
        Some((place, _)) => Some(place),
        None => None,
    }
}
