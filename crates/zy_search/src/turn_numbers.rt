//! The numbers that a turn of the search goes by.
ghost use Rattle.std.specs.Prelude.{◌<◌, OnOk, length};
ghost use Rattle.zy_search.specs.Visits.{AreNumbersAt, IsInformed};

use crate::plan::Plan;
use crate::reached::Reached;
use std::alloc::{AllocError, Global};

/// The numbers of the state whose turn it is, and of one that a choice leads to.
#[derive(Drop)]
pub struct TurnNumbers {
    pub here: Vec<u32>,
    pub next: Vec<u32>,
}

impl TurnNumbers {
    /// None yet. It takes no memory.
    pub(crate) fn new(alloc: Global) -> TurnNumbers {
        TurnNumbers {
            here: Vec::new(alloc),
            next: Vec::new(alloc),
        }
    }

    /// It is the turn of the state at a place.
    pub(crate) fn go_to(
        &mut self,
        plan: &Plan,
        reached: &Reached,
        at: u32,
    ) -> Result<(), AllocError>
        requires there { at < length reached.now.tree }
        requires informed { IsInformed plan.now reached.now }
        ensures { OnOk result (AreNumbersAt plan.now reached.now at self.new.here.items) }
    {
        self.here.clear();
        self.here
            .extend_from_slice(reached.explored.numbers(at as usize))?;
        Ok(())
    }
}
