//! What the logs of a run tell of its migration order.
#![tactic(auto)]

pub mod laws;
