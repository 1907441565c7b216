//! Copies of machines, of which the last ones stay.
ghost use Rattle.std.specs.Prelude.{◌≡◌, true, ◌≤◌, [], IfOk, IfSome, OnOk, OnErr, Some, length, slice_get};
ghost use Rattle.std.specs.Prelude.{option_copied};
ghost use Rattle.circular_buffer.specs.Buffer.{last_item};
ghost use Rattle.zy_isa.specs.Scenario.{Scenario as AScenario};
ghost use Rattle.zy_machine.specs.Histories.{History};
ghost use Rattle.zy_debug.specs.Checkpoints.{AreReplaysOf, IsReplayOf, is_kept, with_copy};

use circular_buffer::HeapCircularBuffer;
use std::alloc::{AllocError, Global};
use std::marker::Model;
use zy_machine::Machine;

/// Copies of machines at some positions: the last ones that were noted.
#[derive(Drop)]
pub(crate) struct Shelf {
    ring: HeapCircularBuffer<Machine>,
}

impl Model for Shelf {
    ghost use Rattle.zy_debug.specs.Checkpoints.{Kept};

    ghost Value = { Kept };

    ghost view = { λ s. record { room = s.ring.capacity; machines = s.ring.items } };
}

impl Shelf {
    /// None yet, and room for this number.
    pub fn new(alloc: Global, room: usize) -> Result<Shelf, AllocError>
        ensures { IfOk result (λ s. s ≡ record { room = room; machines = [] }) }
    {
        let ring = HeapCircularBuffer::with_capacity(alloc, room)?;
        Ok(Shelf { ring })
    }

    /// Whether a machine at this position is kept.
    pub fn is_kept(&self, position: usize) -> bool
        ensures { result ≡ is_kept self.now position }
    {
        self.ring.iter().any(|kept| kept.len() == position)
    }

    /// Keeps a copy of a machine, unless one of its position is kept.
    pub fn note(&mut self, alloc: Global, machine: &Machine) -> Result<(), AllocError>
        ensures ok { OnOk result (self.new ≡ with_copy machine.now self.old) }
        ensures err { OnErr result (self.new ≡ self.old) }
    {
        if !self.is_kept(machine.len()) {
            let copy = machine.copy(alloc)?;
            drop(self.ring.push_back(copy));
        }
        Ok(())
    }

    /// Drops the machines from the first one on that is above a position.
    pub fn drop_above(&mut self, target: usize)
        ensures room { self.new.room ≡ self.old.room }
        ensures kept { (sc : AScenario) → AreReplaysOf sc self.old.machines → AreReplaysOf sc self.new.machines }
    {
        if let Some(first) = self.ring.iter().position(|kept| target < kept.len()) {
            self.ring.truncate_back(first);
        }
    }

    /// Takes out the last machine, where it is at a position. Those from the first one on that is above it are dropped.
    pub fn take(&mut self, target: usize) -> Option<Machine>
        ensures room { self.new.room ≡ self.old.room }
        ensures position { IfSome result (λ h. length h.entries ≡ target) }
        ensures taken { (sc : AScenario) → AreReplaysOf sc self.old.machines → IfSome result (IsReplayOf sc) }
        ensures kept { (sc : AScenario) → AreReplaysOf sc self.old.machines → AreReplaysOf sc self.new.machines }
    {
        self.drop_above(target);
        if self.ends_at(target) {
            self.ring.pop_back()
        } else {
            None
        }
    }

    /// Whether the last machine is at a position.
    fn ends_at(&self, target: usize) -> bool
        ensures { result ≡ true → IfSome (last_item self.now.machines) (λ h. length h.entries ≡ target) }
    {
        match self.ring.back() {
            Some(kept) => kept.len() == target,
            None => false,
        }
    }

    /// Whether one more can be kept without the loss of one that is at or above a position.
    pub fn is_free(&self, position: usize) -> bool {
        match self.ring.front() {
            Some(kept) if self.ring.is_full() => kept.len() < position,
            _ => !self.ring.is_full(),
        }
    }

    /// Which kept machine is nearest below or at a position.
    fn place_of_nearest(&self, target: usize) -> Option<usize>
        ensures { IfSome result (λ i. (h : History) × (slice_get self.now.machines i ≡ Some h)
            × (length h.entries ≤ target)) }
    {
        let mut nearest: Option<usize> = None;
        let mut least = 0;
        for i in 0..self.ring.len() {
            if let Some(kept) = self.ring.get(i) {
                if least <= kept.len() && kept.len() <= target {
                    nearest = Some(i);
                    least = kept.len();
                }
            }
        }
        nearest
    }

    /// The kept machine that is nearest below or at a position, if there is one.
    pub fn nearest(&self, target: usize) -> Option<&Machine>
        ensures below { IfSome (option_copied result) (λ h. length h.entries ≤ target) }
        ensures kept { (sc : AScenario) → AreReplaysOf sc self.entry.now.machines
            → IfSome (option_copied result) (IsReplayOf sc) }
    {
        match self.place_of_nearest(target) {
            Some(i) => self.ring.get(i),
            None => None,
        }
    }
}
