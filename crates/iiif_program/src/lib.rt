//! The program as a library: what its words ask for, done. The words stand in `iiif_command_line`, the images that they name in
//! `iiif_start`, the node among others and the connections that a node serves in `iiif_connections`, the listeners in
//! `iiif_services`.
#![tactic(auto)]

pub use iiif_start::stop;

pub mod alone;
mod hex;
mod keeping;
mod listed;
mod listening;
pub mod node_config;
mod one;
pub mod opened;
pub mod program;
mod record;
mod settings;
mod slot;
mod target;
mod telling;
pub mod work;
