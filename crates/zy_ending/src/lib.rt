//! The way out of a machine's state: choices that end its migration.
#![tactic(auto)]

pub mod ending;
mod faults;
mod next;

pub use crate::faults::EndingFault;
