//! A search for an order of the lines of three logs, one for each actor, in which each line agrees with the step table.
#![tactic(auto)]

mod alone;
pub mod answer;
mod attempt;
mod checkpoints;
mod cursors;
mod digest;
pub mod end;
mod expand;
mod follow;
pub mod gaps;
mod line;
mod logs;
mod missing;
mod note;
pub mod order;
mod placed_machine;
mod plan;
mod reached;
mod recent_machines;
mod search;
mod tellers;
mod turns;
pub mod twins;
mod visited;
mod walk;

pub use crate::answer::{OrderAnswer, OrderReport, Taken};
pub use crate::end::End;
pub use crate::gaps::Gaps;
pub use crate::twins::are_twins;
pub use zy_logs::LogLine;
pub use zy_search::Watch;
