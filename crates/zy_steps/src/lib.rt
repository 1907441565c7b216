//! What a step leaves as it was and what it reads, which states no step tells apart, and which steps may be made in either order.
#![tactic(auto)]

pub mod laws;
mod part;

pub use crate::part::StatePart;
