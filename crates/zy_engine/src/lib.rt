//! What each command of the program but `order` does, as functions from bytes to bytes, and why one gives up.
#![tactic(auto)]

pub mod accepted;
pub mod checking;
pub mod debugging;
pub mod ending;
pub mod engine;
pub mod faults;
pub mod finding;
pub mod format;
pub mod laws;
pub mod output;
mod same;
pub mod searching;
pub mod threading;
pub mod wording;

pub use crate::accepted::AcceptedInput;
pub use crate::checking::CheckedListing;
pub use crate::ending::Ending;
pub use crate::faults::BenchFault;
pub use crate::format::Format;
pub use crate::output::{RunFormat, SourceFormat};
pub use crate::searching::{Question, SearchOptions};
pub use crate::wording::Wording;
