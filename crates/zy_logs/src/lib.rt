//! Lines of logs: what they tell of steps, whether they agree with what a step shows, and how they are read.
#![tactic(auto)]

pub mod expected;
pub mod faults;
pub mod laws;
pub mod log_line;
pub mod logs;
mod possible;
pub mod reading;
mod text;
pub mod txns;

pub use crate::expected::{ExpectedInLog, FaultKind, Misread};
pub use crate::faults::{LogFault, LogLineFault};
pub use crate::log_line::{LogLine, Logged};
pub use crate::logs::NumberedLine;
pub use crate::txns::Txns;
