//! Counts of the table of a cache and its flights, and the words by which it is called.

/// How a flight gets its value.
#[derive(Clone, Copy, Debug, PartialEq, Eq)]
pub enum Class {
    /// From the owner of the key.
    Wide,
    /// From this node's own sources.
    Local,
}

/// Where a value that has landed is kept.
#[derive(Clone, Copy, Debug, PartialEq, Eq)]
pub enum Place {
    /// It isn't kept.
    Nowhere,
    /// In the main list.
    Main,
    /// It came from a peer: each tenth of these is kept, in the hot list.
    Peer,
}

/// How often calls entered, and what came of them and of the flights that they led. What these add up to is a law of tables.
#[derive(Clone, Copy, Debug, PartialEq, Eq)]
pub struct Book {
    /// The calls that entered.
    pub gets: u64,
    /// Calls that met a kept value.
    pub hits: u64,
    /// Calls that joined an open flight.
    pub joins: u64,
    /// Calls that opened a flight, and lead it.
    pub leads: u64,
    /// The flights that landed with a value that their leader found by looking again.
    pub again_hits: u64,
    /// The other flights that landed.
    pub loads: u64,
    /// Loads that landed with a peer's value.
    pub peer: u64,
    /// The flights that landed.
    pub landed: u64,
    /// Flights that landed with a fault.
    pub faults: u64,
}
