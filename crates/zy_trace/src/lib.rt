//! The trace of a run: each step, and below it the lines of the state that it changed; and its steps alone, as objects of JSON.
#![tactic(auto)]

pub mod form;
mod kept;
pub mod laws;
mod objects;
mod since;
mod step;
pub mod subject;
pub mod trace;
