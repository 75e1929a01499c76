//! The machine over events, in code: a world of plain lists, and what each event does to it.
#![tactic(auto)]

pub use contents::Item;
pub use iiif_machine::{Answer, Event, WorldFault};
pub use starting::{Setup, SetupFault};
pub use world::World;

mod asking;
pub mod contents;
mod entering;
mod knowing;
mod landing;
pub mod laws;
mod loading;
mod making;
mod settling;
pub mod starting;
pub mod stepping;
mod tending;
mod wanting;
pub mod world;
