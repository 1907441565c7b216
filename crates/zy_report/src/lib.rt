//! What `zy_bench` says on standard error: of an input that is rejected, of runs, of searches and of orders of logs. Nothing is
//! proved of the words but that each function is safe and ends.
#![tactic(auto)]

mod attempts;
pub mod bad_commands;
pub mod excerpt;
pub mod explained;
pub mod failure;
pub mod fault_message;
pub mod furthest;
pub mod no_effect;
pub mod origin;
pub mod other_end;
pub mod progress;
pub mod refused_goal;
pub mod refused_line;
pub mod refused_object;
pub mod summary;
pub mod way_out;
