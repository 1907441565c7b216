//! A line of a log as a line of JSON: one object with who made the step, what was done, what came of it, the value that the step
//! shows, the message that was sent and the rows of the page that the step moved.
#![tactic(auto)]

pub mod faults;
pub mod field;
pub mod laws;
pub mod logs;
pub mod plain;
pub mod reading;
pub mod step;

pub use crate::faults::{JsonFault, JsonLineFault, JsonLogFault};
pub use crate::field::Member;
pub use crate::plain::{PlainFields, PlainStep};
pub use crate::reading::read;
pub use crate::step::{JsonStep, LogText};
pub use json::Scratch;
