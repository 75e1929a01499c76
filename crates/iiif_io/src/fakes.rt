//! Fake devices for tests: they hold bytes in memory, transfer them in pieces, and fail when told.

pub use crate::failing_reader::FailingReader;
pub use crate::failing_writer::FailingWriter;
