//! Files as sources that are opened when they are read. Those that were read last are kept open, so many and no more: how many
//! files there are doesn't count against the system's limit on open ones. Where rows of bytes are asked for that lie apart, more of
//! each row is read at once and kept for what is asked for beside them.
#![tactic(auto)]

pub use file_cache::{FileCache, Opening};
pub use iiif_source::Opens;
pub use known::Known;
pub use mem_file::{Contents, MemFile};
pub use mem_files::{Failing, MemFiles};
pub use open_files::OpenFiles;
pub use path_source::PathSource;
pub use read_failures::{FailureReason, ReadFailure, ReadFailures};
pub use row_cache::RowCache;
pub use texts::Texts;
pub use wide_rows::WideRows;
pub use widening::wider;

pub mod file_cache;
pub mod known;
pub mod mem_file;
pub mod mem_files;
pub mod open_files;
pub mod path_source;
pub mod read_failures;
pub mod row_cache;
pub mod texts;
pub mod wide_rows;
pub mod widening;
