//! A search through every state that further choices can lead to.
#![tactic(auto)]

pub mod ahead;
pub mod along;
pub mod answer;
pub mod branch;
pub mod choices;
pub mod deadlock;
mod expand;
pub mod kinds;
mod last;
pub mod laws;
pub mod outlook;
pub mod plan;
mod possible;
pub mod reached;
pub mod scratch;
pub mod search;
mod shows;
pub mod sought;
mod still;
mod stuck;
pub mod tree;
pub mod turn_numbers;
mod walk;
pub mod watch;

pub use crate::answer::{SearchAnswer, SearchReport};
pub use crate::kinds::ChoiceKinds;
pub use crate::plan::{Limits, MOST_THREADS};
pub use crate::sought::Sought;
pub use crate::watch::Watch;
