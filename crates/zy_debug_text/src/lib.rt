//! The debugger's lines: the command that a line spells, the reply to it, and a whole session.
#![tactic(auto)]

mod answer;
pub mod command;
pub mod laws;
pub mod session;
mod shown;
