//! The page locks of one node: shared or exclusive, held to the end of the transaction, with no queue.
#![tactic(auto)]

pub mod attempt;
pub mod locks;

pub use crate::attempt::Attempt;
pub use crate::locks::Locks;
