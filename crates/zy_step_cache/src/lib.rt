//! Steps that are remembered by the parts of a state that they read.
#![tactic(auto)]

mod arena;
pub mod choice_cache;
pub mod explored;
pub mod laws;
pub mod places;
mod slots;
pub mod step_cache;
pub mod vectors;

pub use crate::choice_cache::{CachedStep, ChoiceCache};
pub use crate::explored::Explored;
pub use crate::places::Scope;
pub use crate::step_cache::StepCache;
pub use crate::vectors::Vectors;
