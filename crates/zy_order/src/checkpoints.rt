//! Machines on the way to the path that is followed. A path that goes on from that way is gone to from the last of them
//! that it passes, without making all of its choices.
ghost use Rattle.std.specs.Prelude.{◌≡◌, List, [], IfSome, OnOk};
ghost use Rattle.zy_isa.specs.declared.choice.Choice.{Choice};
ghost use Rattle.zy_machine.specs.Histories.{History};
ghost use Rattle.zy_search.specs.Visits.{IsHere};
ghost use Rattle.zy_order.specs.Machines.{AreCheckpoints, IsThere};

use crate::placed_machine::PlacedMachine;
use std::alloc::Global;
use zy_machine::{Fault, Machine};

/// How many choices more than the one before it a checkpoint has made, at least.
const EVERY: usize = 64;

/// Machines on the way to a path, in the order of their places.
#[derive(Drop)]
pub(crate) struct Checkpoints {
    points: Vec<PlacedMachine>,
}

impl Checkpoints {
    /// No machine yet.
    pub(crate) fn new(alloc: Global) -> Checkpoints
        ensures { result.points.items ≡ [] }
    {
        Checkpoints {
            points: Vec::new(alloc),
        }
    }

    /// The machine where the path at a place leads, if there is one.
    pub(crate) fn find(&self, at: u32) -> Option<&Machine>
        ensures { (h : History) (ps : List (List Choice)) → AreCheckpoints h ps self.entry.now
            → IfSome result (λ m. IsThere h ps at m.now) }
    {
        let count = self.points.len();
        for i in 0..count {
            let point = &self.points[count - 1 - i];
            if point.at == Some(at) {
                return Some(&point.machine);
            }
            if point.at < Some(at) {
                return None;
            }
        }
        None
    }

    /// How many choices the last of the machines has made.
    fn last_len(&self) -> usize {
        match self.points.last() {
            Some(point) => point.machine.len(),
            None => 0,
        }
    }

    /// How many machines come before the first one of a path behind a place. Depth first, no path that is still to be followed
    /// goes on from one of those behind it.
    fn count_up_to(&self, at: u32) -> usize {
        let behind = self.points.iter().position(|point| Some(at) < point.at);
        behind.unwrap_or(self.points.len())
    }

    /// Goes on to the path at a place, where a machine is: it is copied if enough choices were made since the last one.
    pub(crate) fn pass(&mut self, alloc: Global, at: u32, machine: &Machine) -> Result<(), Fault>
        ensures { OnOk result ((h : History) (ps : List (List Choice)) → AreCheckpoints h ps self.old
            → IsThere h ps at machine.now → AreCheckpoints h ps self.new) }
    {
        let kept = self.count_up_to(at);
        self.points.truncate(kept);
        if machine.len().saturating_sub(self.last_len()) < EVERY {
            return Ok(());
        }
        self.points.reserve(1)?;
        let machine = machine.copy(alloc)?;
        self.points.push_reserved(PlacedMachine {
            machine,
            at: Some(at),
        });
        Ok(())
    }
}
