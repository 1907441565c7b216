//! A state as the numbers of its parts: each part is bytes, which are kept once and have a number. States with the same numbers
//! are alike.
#![tactic(auto)]

mod bytes;
pub mod codes;
pub mod laws;
pub mod numbers;
pub mod packing;
pub mod part_table;

pub use crate::part_table::PartTable;
