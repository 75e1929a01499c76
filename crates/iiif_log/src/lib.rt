//! A line for each answer, each read of a file that failed and each turn of a link to another node, and the queue over which lines come to
//! a thread of their own that writes them.
#![tactic(auto)]

pub use answered::{Answered, CutCause, Failure, Outcome};
pub use escape::push_escaped;
pub use failed_read::{FailedRead, failed_line_bytes};
pub use line::{line_bytes, lost_line_bytes};
pub use log::{Log, write_lines};
pub use moment::{Moment, NoMemory, push_moment};
pub use other_version::{OtherVersion, version_line_bytes};
pub use peer::{PeerTurn, Turn, peer_line_bytes};
pub use queue::{Line, Queue, Taken};
pub use refused_image::{RefusedImage, refused_line_bytes};

pub mod answered;
pub mod escape;
pub mod failed_read;
pub mod laws;
pub mod line;
pub mod log;
pub mod moment;
pub mod other_version;
pub mod peer;
pub mod queue;
pub mod refused_image;
