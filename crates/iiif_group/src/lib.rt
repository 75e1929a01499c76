//! Groups of values: a cache, one flight at a time for all callers of a key, and the nodes that share keys out.
//!
//! `lookup` tells how a key's value is looked up, loaded and completed. A table stands behind a lock, and nothing is loaded, asked or
//! passed while the lock is held.
#![tactic(auto)]

pub use begun::{Begun, Completed, Open};
pub use gate::{Ending, Gate, NoGate, Note, Step};
pub use group::{Cluster, Group};
pub use iiif_singleflight::{Kept, StripedCondvar};
pub use link::{Link, LinkFault, NoLink};
pub use outcomes::{share, share_outcome, take_outcome};
pub use passes::{Passes, SumCalls, TileCalls};

mod asked;
pub mod begun;
pub mod gate;
pub mod group;
pub mod link;
mod lookup;
pub mod outcomes;
pub mod passes;
