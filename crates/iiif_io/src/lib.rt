//! Readers and writers of a server: which failures they report, and how much of a text a failed write left.
#![tactic(auto)]

pub use counting_sink::CountingSink;
pub use fixed_buffer::FixedBuffer;
pub use inlet::Inlet;
pub use outlet::Outlet;
pub use sending::{check_connected, send, send_both};
pub use sockets::{is_ended, is_reset};

pub mod counting_sink;
mod failing_reader;
mod failing_writer;
pub mod fakes;
pub mod fixed_buffer;
pub mod inlet;
pub mod laws;
pub mod outlet;
pub mod sending;
pub mod sockets;
