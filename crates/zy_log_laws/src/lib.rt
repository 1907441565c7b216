//! What a log and a goal read of what a listing writes.
#![tactic(auto)]

pub mod laws;
