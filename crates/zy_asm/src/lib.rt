//! Reads the text of a scenario, and reports the first fault of a text that is rejected.
#![tactic(auto)]

pub mod assembling;
mod choices;
pub mod faults;
mod instructions;
mod name_table;
pub mod names;
mod numbers;
mod pending;
mod reading;
pub mod shown;
mod state;
pub mod text;
mod word_fault;

pub use crate::faults::{AsmKind, LineFault, Reason};
pub use crate::state::{LinesAbove, Stage};
