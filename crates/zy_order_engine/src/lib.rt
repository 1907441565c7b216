//! Answers whether the logs of three actors have an order that the step table allows, as a function from bytes to bytes.
#![tactic(auto)]

pub mod behind;
pub mod faults;
pub mod laws;
pub mod log_format;
pub mod logs_below;
mod missing;
pub mod options;
pub mod ordering;

pub use crate::faults::{BelowFault, OrderFault};
pub use crate::log_format::LogFormat;
pub use crate::options::OrderOptions;
pub use crate::ordering::OrderedLogs;
pub use zy_order::Watch;
