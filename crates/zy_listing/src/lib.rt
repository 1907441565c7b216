//! What a machine's run is to be read from: its listing, line by line.
#![tactic(auto)]

pub mod lines;
pub mod listing;
pub mod run;

pub use crate::lines::final_state::FinalState;
pub use crate::lines::mode::ModeLine;
pub use crate::lines::rows::{RowWords, Rows};
pub use crate::lines::serial::SerialLine;
pub use crate::lines::step::StepLine;
pub use crate::lines::words::{KindText, ModeText, OutcomeText};
