//! Machines where the last paths lead, and checkpoints, so that states are compared, and gone on from, without making all
//! choices that lead there.
ghost use Rattle.std.specs.Prelude.{◌≡◌, ◌<◌, List, [], IfOk, IfSome, OnOk, None, Some, true, length, slice_index_or};
ghost use Rattle.zy_isa.specs.declared.choice.Choice.{Choice};
ghost use Rattle.zy_machine.specs.Histories.{History};
ghost use Rattle.zy_order.specs.declared.placed_machine.PlacedMachine.{PlacedMachine as APlacedMachine};
ghost use Rattle.zy_search.specs.Searches.{reached};
ghost use Rattle.zy_search.specs.Visits.{path_at};
ghost use Rattle.zy_order.specs.Machines.{AreRecentMachines, IsPlaced, IsThere};

use crate::checkpoints::Checkpoints;
use crate::placed_machine::PlacedMachine;
use std::alloc::Global;
use std::mem;
use zy_machine::{Fault, Machine};

/// How many machines are kept where the last paths lead.
const MOST_MACHINES: usize = 64;

/// Machines where some of the last paths lead, checkpoints, and a machine that goes to where states are compared.
#[derive(Drop)]
pub(crate) struct RecentMachines {
    machines: Vec<PlacedMachine>,
    pub checkpoints: Checkpoints,
    pub spare: PlacedMachine,
}

impl RecentMachines {
    /// No machine but the spare one.
    pub(crate) fn new(alloc: Global, start: &Machine) -> Result<RecentMachines, Fault>
        ensures machines { IfOk result (λ s. s.machines.items ≡ []) }
        ensures checkpoints { IfOk result (λ s. s.checkpoints.points.items ≡ []) }
        ensures spare { IfOk result (λ s. s.spare ≡ record { machine = start.now; at = None }) }
    {
        let spare = PlacedMachine::copy_of(alloc, start)?;
        Ok(RecentMachines {
            machines: Vec::new(alloc),
            checkpoints: Checkpoints::new(alloc),
            spare,
        })
    }

    /// Where the machine of the path at a place would be. That of the empty path is never there.
    fn slot_of(at: u32) -> usize {
        at.saturating_sub(1) as usize % MOST_MACHINES
    }

    /// Where the machine of the path at a place is, if there is one.
    fn find(&self, at: u32) -> Option<usize>
        ensures there { IfSome result (λ i. i < length self.now.machines.items) }
        ensures at { IfSome result (λ i. (d : APlacedMachine) → (slice_index_or self.now.machines.items i d).at ≡ Some at) }
    {
        let i = RecentMachines::slot_of(at);
        if i < self.machines.len() && self.machines[i].at == Some(at) {
            return Some(i);
        }
        None
    }

    /// Whether the state of the machine of the path at a place is that of another one, if it is there.
    pub(crate) fn compares(&self, at: u32, machine: &Machine) -> Option<bool>
        ensures { (h : History) (ps : List (List Choice)) → AreRecentMachines h ps self.now → result ≡ Some true
            → reached h (path_at ps at) ≡ machine.now.state }
    {
        let i = self.find(at)?;
        Some(self.machines[i].machine.is_same(machine))
    }

    /// Takes the machine where the path at a place leads, if there is one, and leaves another one there.
    pub(crate) fn take(&mut self, at: u32, machine: &mut PlacedMachine)
        ensures machine { (h : History) (ps : List (List Choice)) → AreRecentMachines h ps self.old
            → IsPlaced h ps machine.old → IsPlaced h ps machine.new }
        ensures recent { (h : History) (ps : List (List Choice)) → AreRecentMachines h ps self.old
            → IsPlaced h ps machine.old → AreRecentMachines h ps self.new }
    {
        if let Some(i) = self.find(at) {
            mem::swap(&mut self.machines[i], machine);
        }
    }

    /// Puts the machine of the path at a place there, and takes another one of the scenario for it.
    pub(crate) fn put(
        &mut self,
        alloc: Global,
        at: u32,
        machine: &mut Machine,
        here: &Machine,
    ) -> Result<(), Fault>
        requires { machine.old.scenario ≡ here.now.scenario }
        ensures scenario { OnOk result ((h : History) (ps : List (List Choice)) → AreRecentMachines h ps self.old
            → machine.old.scenario ≡ h.scenario → machine.new.scenario ≡ h.scenario) }
        ensures recent { OnOk result ((h : History) (ps : List (List Choice)) → AreRecentMachines h ps self.old
            → IsThere h ps at machine.old → AreRecentMachines h ps self.new) }
    {
        let i = RecentMachines::slot_of(at);
        if i < self.machines.len() {
            let kept = &mut self.machines[i];
            mem::swap(&mut kept.machine, machine);
            kept.at = Some(at);
            return Ok(());
        }
        let fresh = here.copy(alloc)?;
        let there = mem::replace(machine, fresh);
        self.add(at, there)?;
        Ok(())
    }

    /// Adds the machine of the path at a place.
    fn add(&mut self, at: u32, machine: Machine) -> Result<(), Fault>
        ensures { OnOk result ((h : History) (ps : List (List Choice)) → AreRecentMachines h ps self.old
            → IsThere h ps at machine → AreRecentMachines h ps self.new) }
    {
        match self.machines.reserve(1) {
            Ok(()) => {
                let kept = PlacedMachine {
                    machine,
                    at: Some(at),
                };
                self.machines.push_reserved(kept);
                Ok(())
            }
            Err(fault) => {
                machine.discard();
                Err(fault)
            }
        }
    }
}
