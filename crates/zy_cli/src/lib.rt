//! The command line of `zy_bench`: its commands and flags with their help, what the words of one ask for, a hint where they ask
//! for nothing, and the exit statuses.
#![tactic(auto)]

mod arguments;
pub mod command;
pub mod exit_status;
pub mod hint;
pub mod request;
pub mod table;

pub use crate::hint::Hint;
pub use crate::request::{Request, Task};
