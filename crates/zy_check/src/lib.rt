//! Whether an input is the listing of a scenario.
#![tactic(auto)]

pub mod check;
pub mod comparing;
pub mod laws;
pub mod verdict;

pub use crate::verdict::{Comparison, Verdict};
