//! The messages between the nodes, and the links that carry them.
#![tactic(auto)]

pub mod link;
pub mod message;

pub use crate::link::Link;
pub use crate::message::Message;
