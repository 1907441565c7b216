//! How the words of a goal are read, with the outcome after `then`: which words mean which goal, and the fault of words that mean none.
#![tactic(auto)]

pub mod names;
pub mod reading;
pub mod refusal;

pub use crate::names::Names;
pub use crate::reading::Query;
pub use crate::refusal::{ExpectedInGoal, GoalFault, WordFault};
