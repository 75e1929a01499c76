//! The addresses of a node.

ghost use Rattle.std.specs.Prelude.{◌≡◌, ◌<◌, [], length, slice_get};
ghost use Rattle.iiif_peer_link.specs.Places.{left_at, next_place};

use std::alloc::Global;
use std::net::SocketAddr;

/// Addresses that the last look-up of a node's name found, and which of them is asked.
#[derive(Drop)]
pub struct Addresses {
    found: Vec<SocketAddr>,
    place: usize,
}

/// Returns the place behind this one, and behind the last the first.
fn next_place(place: usize, count: usize) -> usize
    ensures { result ≡ next_place place count }
{
    match count.checked_sub(place) {
        Some(left) if left > 1 => place + 1,
        _ => 0,
    }
}

impl Addresses {
    /// Makes an empty list.
    pub fn unknown(alloc: Global) -> Addresses
        ensures { result.found.items ≡ [] }
    {
        Addresses {
            found: Vec::new(alloc),
            place: 0,
        }
    }

    /// Returns the place of the one that is asked.
    pub fn place(&self) -> usize
        ensures { result ≡ self.now.place }
    {
        self.place
    }

    /// Returns the one that is asked, where any is known.
    pub fn asked(&self) -> Option<SocketAddr>
        ensures { result ≡ slice_get self.now.found.items self.now.place }
    {
        self.found.get(self.place).copied()
    }

    /// Leaves the one at a place, where an ask failed, for the next, unless another one is asked already.
    pub fn leave(&mut self, place: usize)
        ensures { self.new ≡ left_at self.old place }
    {
        if self.place == place {
            self.place = next_place(place, self.found.len());
        }
    }

    /// Replaces the addresses by those of a new look-up.
    pub fn renew(&mut self, found: Vec<SocketAddr>)
        ensures found { self.new.found ≡ found }
        ensures asked { 0 < length found.items → self.new.place < length found.items }
    {
        if self.place >= found.len() {
            self.place = 0;
        }
        self.found = found;
    }
}
