//! The debugger: a session on a scenario, with a position and stops.
#![tactic(auto)]

mod checkpoints;
pub mod command;
mod copies;
pub mod debugger;
pub mod scan;
mod shelf;
pub mod stop;
pub mod stops;

pub use crate::command::{Command, DebugFault, Reply, Shown};
pub use crate::debugger::Debugger;
pub use crate::stop::Stop;
pub use crate::stops::Stops;
