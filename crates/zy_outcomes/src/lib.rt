//! What an outcome says: where each comes, and what it tells of the step.
#![tactic(auto)]

pub mod laws;
