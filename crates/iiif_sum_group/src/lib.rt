//! Sums over blocks of the images that a node has, made of the sums and the tiles below them, and shared by all that ask.
#![tactic(auto)]

pub use groups::Groups;
pub use handle::Handle;
// Items of a group and of tiles that callers of the groups need.
pub use iiif_group::{
    Begun, Cluster, Gate, Group, Kept, Link, NoGate, NoLink, Note, Open, Passes, Step,
    StripedCondvar, SumCalls, TileCalls, take_outcome,
};
pub use iiif_tile_group::Tiles;
pub use local_handle::LocalHandle;

mod below;
pub mod groups;
pub mod handle;
pub mod local_handle;
mod make_error;
mod making;
pub mod parted;
