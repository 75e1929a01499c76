//! Listeners whose connections have a thread each, up to 64 of each listener; generations of a node that serve them one after the other;
//! and limits of time for what a connection sends.
#![tactic(auto)]

pub use address::address_of;
pub use admission::Admission;
pub use closing::close;
pub use flow::{Flow, Rate, waited_for};
pub use generations::{Generation, Generations};
pub use inbox::{Arrival, Door, Inbox};
pub use listen::{Gateway, Refused, bind, stop, take_each};
pub use open_connections::OpenConnections;
pub use pace::{Departure, Pace, PacedReader, PacedWriter, write_limit};
pub use places::{Place, Places, Visit};
pub use primed_memory::PrimedMemory;
pub use ranking::{Ranking, first_ranked};
pub use recent::Recent;
pub use retry::{Retry, after_failure};
pub use seat::{Seat, SeatState};
pub use table::Table;
pub use ticket::Ticket;

pub mod address;
pub mod admission;
pub mod closing;
pub mod flow;
pub mod generations;
pub mod inbox;
pub mod laws;
pub mod listen;
pub mod open_connections;
pub mod pace;
pub mod places;
pub mod primed_memory;
pub mod ranking;
pub mod recent;
pub mod retry;
pub mod seat;
pub mod table;
pub mod ticket;
