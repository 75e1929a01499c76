//! Tickets of places.

ghost use Rattle.std.specs.Prelude.{◌<◌};

/// A ticket of a place: it names the place, and tells the connection from others that had it.
#[derive(Clone, Copy, PartialEq, Eq)]
pub struct Ticket {
    pub(crate) place: usize,
    /// The number that tells the connection from others that have the place before or after it.
    pub(crate) number: u64,
    ghost within: { place < 64 },
}
