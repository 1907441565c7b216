//! The canonical text of a scenario.
#![tactic(auto)]

pub mod head;
mod lines;
pub mod text;

pub use crate::head::ScenarioHead;
