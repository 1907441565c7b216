//! Machines that are kept as they were at some positions.
ghost use Rattle.std.specs.Prelude.{◌≡◌, ◌≤◌, ◌<◌, ◌+◌, ◌⊎◌, IfOk, IfSome, OnOk, length, option_copied};
ghost use Rattle.zy_isa.specs.Scenario.{Scenario as AScenario};
ghost use Rattle.zy_debug.specs.Checkpoints.{HoldReplaysOf, IsBelow, IsReplayOf};

use crate::copies::Copies;
use crate::shelf::Shelf;
use std::alloc::{AllocError, Global};
use std::marker::Model;
use zy_machine::Machine;
use zy_machine::replay::advance_to;

/// Copies of machines that are spread over the scenario, the last ones that were passed, and those close to where a
/// replay ended.
#[derive(Drop)]
pub(crate) struct Checkpoints {
    copies: Copies,
    spread: Shelf,
    passed: Shelf,
    close: Shelf,
}

impl Model for Checkpoints {
    ghost use Rattle.zy_debug.specs.Checkpoints.{Shelves};

    ghost Value = { Shelves };

    ghost view = { λ c. record { spread = c.spread; passed = c.passed; close = c.close } };
}

/// That of two machines which has made more choices.
pub(crate) fn farther<'a>(x: Option<&'a Machine>, y: Option<&'a Machine>) -> Option<&'a Machine>
    ensures { (option_copied result ≡ option_copied x.entry) ⊎ (option_copied result ≡ option_copied y.entry) }
{
    match (x, y) {
        (Some(a), Some(b)) if a.len() < b.len() => y,
        (None, _) => y,
        _ => x,
    }
}

impl Checkpoints {
    /// None yet, and room for this number.
    pub fn new(alloc: Global, copies: Copies) -> Result<Checkpoints, AllocError>
        ensures room { IfOk result (λ c. c.spread.room + c.passed.room + c.close.room
            ≡ copies.spread + copies.passed + copies.close) }
        ensures none { (sc : AScenario) → IfOk result (HoldReplaysOf sc) }
    {
        Ok(Checkpoints {
            copies,
            spread: Shelf::new(alloc, copies.spread)?,
            passed: Shelf::new(alloc, copies.passed)?,
            close: Shelf::new(alloc, copies.close)?,
        })
    }

    /// The kept machine that is nearest below or at a position, if there is one.
    pub fn nearest(&self, target: usize) -> Option<&Machine>
        ensures below { IfSome (option_copied result) (λ h. length h.entries ≤ target) }
        ensures kept { (sc : AScenario) → HoldReplaysOf sc self.entry.now
            → IfSome (option_copied result) (IsReplayOf sc) }
    {
        let on_the_way = farther(self.spread.nearest(target), self.passed.nearest(target));
        farther(on_the_way, self.close.nearest(target))
    }

    /// Keeps a copy of a machine on its way.
    fn note(&mut self, alloc: Global, machine: &Machine) -> Result<(), AllocError>
        ensures { (sc : AScenario) → HoldReplaysOf sc self.old → IsReplayOf sc machine.now → HoldReplaysOf sc self.new }
    {
        if self.copies.is_spread(machine.len()) {
            self.spread.note(alloc, machine)
        } else {
            self.passed.note(alloc, machine)
        }
    }

    /// Makes a machine's choices up to the last position on the way to another at which a copy is worth its time, and
    /// keeps the copies.
    fn pass(
        &mut self,
        alloc: Global,
        machine: &mut Machine,
        target: usize,
    ) -> Result<(), AllocError>
        requires below { IsBelow machine.old.scenario target machine.old }
        requires kept { HoldReplaysOf machine.old.scenario self.old }
        ensures below { OnOk result (IsBelow machine.old.scenario target machine.new) }
        ensures kept { HoldReplaysOf machine.old.scenario self.new }
    {
        'way: while let Some(due) = self.copies.next_due(machine.len(), target) {
            advance_to(machine, due)?;
            self.note(alloc, machine)?;
        }
        Ok(())
    }

    /// Whether a machine close to where a replay ended is at a position.
    pub fn has_close(&self, target: usize) -> bool {
        self.close.is_kept(target)
    }

    /// Takes out the kept machine that is at a position, if there is one among those close to where a replay ended.
    /// Those above go.
    pub fn take(&mut self, target: usize) -> Option<Machine>
        ensures position { IfSome result (λ h. length h.entries ≡ target) }
        ensures taken { (sc : AScenario) → HoldReplaysOf sc self.old → IfSome result (IsReplayOf sc) }
        ensures kept { (sc : AScenario) → HoldReplaysOf sc self.old → HoldReplaysOf sc self.new }
    {
        self.close.take(target)
    }

    /// Keeps a copy of a machine close to where its way ends.
    fn note_close(&mut self, alloc: Global, machine: &Machine) -> Result<(), AllocError>
        ensures { (sc : AScenario) → HoldReplaysOf sc self.old → IsReplayOf sc machine.now → HoldReplaysOf sc self.new }
    {
        self.close.note(alloc, machine)
    }

    /// The position halfway to another, where the way is long and there is room for a copy close to its end.
    fn halfway(&self, position: usize, target: usize) -> Option<usize>
        ensures { IfSome result (λ due. (position < due) × (due ≤ target)) }
    {
        if self.close.is_free(self.copies.least_close(target)) {
            self.copies.halfway(position, target)
        } else {
            None
        }
    }

    /// As long as the way to a position is long and there is room, makes half of a machine's choices on it, and keeps a
    /// copy.
    fn halve(
        &mut self,
        alloc: Global,
        machine: &mut Machine,
        target: usize,
    ) -> Result<(), AllocError>
        requires below { IsBelow machine.old.scenario target machine.old }
        requires kept { HoldReplaysOf machine.old.scenario self.old }
        ensures below { OnOk result (IsBelow machine.old.scenario target machine.new) }
        ensures kept { HoldReplaysOf machine.old.scenario self.new }
    {
        'way: while let Some(middle) = self.halfway(machine.len(), target) {
            advance_to(machine, middle)?;
            self.note_close(alloc, machine)?;
        }
        Ok(())
    }

    /// Makes a machine's choices up to a position, and keeps the copies that are due on the way. Those close to its end
    /// that are above it go.
    pub fn replay_to(
        &mut self,
        alloc: Global,
        machine: &mut Machine,
        target: usize,
    ) -> Result<(), AllocError>
        requires below { IsBelow machine.old.scenario target machine.old }
        requires kept { HoldReplaysOf machine.old.scenario self.old }
        ensures replay { OnOk result (IsReplayOf machine.old.scenario machine.new) }
        ensures position { OnOk result (length machine.new.entries ≡ target) }
        ensures kept { HoldReplaysOf machine.old.scenario self.new }
    {
        self.close.drop_above(target);
        let is_short = self.copies.is_short(machine.len(), target);
        self.pass(alloc, machine, target)?;
        if is_short {
            self.halve(alloc, machine, target)?;
        }
        advance_to(machine, target)
    }
}
