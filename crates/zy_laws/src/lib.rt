//! What holds of the step table over every schedule.
#![tactic(auto)]

pub mod laws;
