//! The services of a node side by side: its listeners, the control socket, and a thread that checks other nodes.
#![tactic(auto)]

pub use command::{Command, read_reply};
pub use control::{Control, Controls, read_command, tell};
pub use controller::{Controller, Ended, Step};
pub use health_checker::HealthChecker;
pub use listeners::{Addresses, AllPlaces, Listeners, Work, take_all};
pub use starts::{Started, Starts};

pub mod command;
pub mod control;
pub mod controller;
mod health_checker;
pub mod listeners;
pub mod starts;
