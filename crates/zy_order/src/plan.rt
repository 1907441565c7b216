//! What a search goes by.

use crate::end::End;
use crate::logs::Logs;
use std::alloc::Global;
use zy_isa::Choice;
use zy_machine::Machine;

/// Where a search begins, the logs, and the most states that it may reach.
#[derive(Drop)]
pub(crate) struct Plan {
    /// Where memory comes from.
    pub alloc: Global,
    /// The machine that the lines follow. Its history is shared by its copies.
    pub start: Machine,
    /// The logs.
    pub logs: Logs,
    /// What is asked of the last state of an order.
    pub end: End,
    /// All choices of the scenario.
    pub choices: Vec<Choice>,
    /// The most states that it may reach, with that of the start.
    pub most: u32,
}
