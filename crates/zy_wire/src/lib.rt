//! The wireframe of a node: which page a key lies on.
#![tactic(auto)]

mod entry;
pub mod key_range;
mod node;
mod node_id;
mod tree;
pub mod wire;

pub use crate::key_range::KeyRange;
pub use crate::wire::{Wire, WireFault};
