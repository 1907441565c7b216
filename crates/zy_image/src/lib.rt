//! Scenarios as images: bytes that a program reads quickly, one field behind the other.
#![tactic(auto)]

pub mod choices;
pub mod faults;
mod fields;
mod head;
mod lists;
pub mod load;
pub mod places;
mod programs;
pub mod refusal;
mod rows;
pub mod save;

pub use crate::faults::LoadFault;
pub use crate::refusal::ImageRefusal;
