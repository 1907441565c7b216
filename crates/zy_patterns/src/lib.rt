//! Outcomes as a log or a goal asks for them.
#![tactic(auto)]

pub mod laws;
pub mod paged;
pub mod patterns;
pub mod words;

pub use crate::paged::PagedOutcome;
pub use crate::patterns::{OutcomePattern, ReasonPattern};
