//! Texts: what they mean, the words of a line, the lines of the canonical text, and where the scenario part of an input
//! ends.
#![tactic(auto)]

pub mod canonical;
pub mod cut;
pub mod line;
pub mod names;
pub mod numbers;
pub mod usual;

pub use crate::canonical::{Canonical, Each};
pub use crate::line::Words;
