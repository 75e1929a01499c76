//! Keys between nodes that tell apart what stands under one name: the name in a key ends in the version of the image's file, put on by who
//! asks, and compared and taken off by who answers. A node that has another file under the name knows no such name.
#![tactic(auto)]

pub use compared::{Compared, Notice};
pub use file_version::FileVersion;
pub use file_versions::{FileVersions, NAME_LIMIT};

pub mod compared;
pub mod cutting;
pub mod file_version;
pub mod file_versions;
pub mod laws;
pub mod spelling;
