//! The lines of the step table, each on the parts that it works on: a node (and of `start` and `begin` the other one), the
//! book of transactions, the link to the node.
#![tactic(auto)]

pub mod client;
pub mod push;
pub mod run;
mod sum;
pub mod take;
