//! How a path goes on from another.

use zy_isa::Choice;

/// A path that goes on from an earlier one by one choice more.
#[derive(Clone, Copy)]
pub struct Branch {
    /// The place of the earlier one.
    pub from: u32,
    pub by: Choice,
}

/// A branch, and the number of its choice among those of a plan.
#[derive(Clone, Copy)]
pub struct NumberedBranch {
    pub branch: Branch,
    pub choice: usize,
}
