//! A board on which each actor takes its own choices in order, and a run of it by three threads.
#![tactic(auto)]

pub mod board;
mod desk;
pub mod gate;
pub mod laws;
pub mod run;
mod work;

pub use crate::board::Board;
pub use crate::gate::{Allowance, FreeGate, Gate, Unlimited};
