//! The committed transactions, run alone, one by one: whether a run has left the same rows, and in which order they do.
#![tactic(auto)]

mod acting;
mod covering;
pub mod explaining;
pub mod laws;
mod lone;
pub mod order;
pub mod serial;
mod sorted;
pub mod table;

pub use crate::table::Table;
