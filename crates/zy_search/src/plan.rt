//! What a search goes by.

use crate::sought::Sought;
use std::alloc::Global;
use zy_isa::Choice;
use zy_machine::Machine;

/// What a search goes by.
#[derive(Drop)]
pub struct Plan {
    /// Where memory comes from.
    pub alloc: Global,
    /// The machine that it starts from.
    pub start: Machine,
    /// What it looks for.
    pub sought: Sought,
    /// The choices that it considers, in the order in which it makes them.
    pub choices: Vec<Choice>,
    /// The most states that are kept, that of the start included.
    pub most: u32,
    /// How many threads look ahead.
    pub threads: u32,
}

/// What a search may take.
#[derive(Clone, Copy)]
pub struct Limits {
    /// The most states that are kept, that of the start included. The one that is found is none of them.
    pub states: u32,
    /// How many threads look ahead. Its answer and the number of states do not depend on it.
    pub threads: u32,
}

/// The most threads that are of use to a search.
pub const MOST_THREADS: u32 = 64;
