//! The server: a node, the images that it has, and its answers to calls and connections.
#![tactic(auto)]

pub use group_config::GroupConfig;
pub use iiif_answers::{Cause, Config, ConfigFault, Cut, Part, Sent, is_base_url};
pub use iiif_group_items::{JobQueue, Queued};
pub use iiif_keys::{Fault, is_name};
pub use iiif_sum_group::{Gate, Kept, Link, NoGate, NoLink, Note, Passes, SumCalls, TileCalls};
pub use iiif_tile_group::{AddFault, Catalogue};
pub use links::Links;
pub use node::Node;
pub use room::Room;
pub use serving::Serving;
pub use watch::Watch;

mod asking;
pub mod group_config;
pub mod links;
pub mod node;
mod peak;
pub mod peers;
pub mod room;
pub mod serving;
pub mod stream;
pub mod watch;
