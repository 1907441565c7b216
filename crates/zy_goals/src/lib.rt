//! Goals: what a search may ask of a state and of a step from it, and what each goal means.
#![tactic(auto)]

pub mod facts;
pub mod footprint;
pub mod goal;
pub mod named;
mod terms;
pub mod txns;

pub use crate::goal::{
    Comparison, Fact, Goal, LinkContent, MessagePattern, PagePlace, Selector, StateFact, Term,
    TxnProperty,
};
