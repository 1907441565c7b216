//! What the next lines of some logs lead to where a path leads.
ghost use Rattle.std.specs.Prelude.{◌≡◌, IfOk, OnOk};
ghost use Rattle.zy_order.specs.Ways.{ComeNext};
ghost use Rattle.zy_order.specs.Machines.{IsPlaced};
ghost use Rattle.zy_order.specs.Reaches.{cursors_at, HasMade, IsAt, IsMetBy, StandsAt, Adds};

use crate::attempt::attempt;
use crate::placed_machine::PlacedMachine;
use crate::plan::Plan;
use crate::search::{Position, Search};
use crate::tellers::StepLines;
use zy_machine::Fault;
use zy_search::branch::Branch;
use zy_table::Observation;

/// What came of a step's lines.
#[derive(Clone, Copy)]
pub(crate) enum Met {
    /// They do not agree with what the step of their choice shows.
    Unfit,
    /// They agree, and a path leads where their choice does.
    Known,
    /// They agree, and there is no room for where their choice leads.
    Spent,
}

impl Search {
    /// The twin has made the choice of a step's lines where the path at a place leads. If the lines agree with what that step shows, the
    /// search keeps where the twin is.
    fn meet_shown(
        &mut self,
        plan: &Plan,
        at: u32,
        lines: &StepLines,
        shown: &Observation,
    ) -> Result<Met, Fault>
        requires { HasMade plan.now self.old at lines.now shown.now }
        ensures adds { OnOk result (Adds plan.now self.old self.new) }
        ensures met { IfOk result (IsMetBy plan.now.start self.new.reached at lines.now) }
    {
        if !lines.agree(shown) {
            return Ok(Met::Unfit);
        }
        let branch = Branch {
            from: at,
            by: lines.line.choice,
        };
        let cursors = self.reached.cursors_at(at).advanced_by(lines.by);
        if !self.note(plan, branch, cursors)? {
            return Ok(Met::Spent);
        }
        Ok(Met::Known)
    }

    /// Makes the choice of a step's lines at a position, and keeps where it leads if they agree with what its step shows.
    pub(crate) fn meet_lines(&mut self, here: Position, lines: &StepLines) -> Result<Met, Fault>
        requires at { IsAt here self.old }
        requires next { ComeNext here.plan.now.start.scenario.version here.plan.now.logs (cursors_at self.old.reached here.at) lines.now }
        ensures adds { OnOk result (Adds here.entry.plan.now self.old self.new) }
        ensures met { IfOk result (IsMetBy here.entry.plan.now.start self.new.reached here.entry.at lines.now) }
    {
        let choice = lines.line.choice;
        let shown = attempt(here.plan.alloc, here.machine, &mut self.twin, choice)?;
        self.meet_shown(here.plan, here.at, lines, &shown)
    }

    /// Does the same without a copy: the machine itself makes the choice, as the twin. If the lines do not fit, the machine goes back.
    pub(crate) fn meet_in_place(
        &mut self,
        plan: &Plan,
        at: u32,
        machine: &mut PlacedMachine,
        lines: &StepLines,
    ) -> Result<Met, Fault>
        requires at { StandsAt plan.now self.old at machine.old.machine }
        requires next { ComeNext plan.now.start.scenario.version plan.now.logs (cursors_at self.old.reached at) lines.now }
        ensures adds { OnOk result (Adds plan.now self.old self.new) }
        ensures met { IfOk result (IsMetBy plan.now.start self.new.reached at lines.now) }
        ensures placed { OnOk result (IsPlaced plan.now.start self.new.reached.visited machine.new) }
        ensures back { IfOk result (λ met. met ≡ Met.Unfit → StandsAt plan.now self.new at machine.new.machine) }
    {
        machine.swap(&mut self.twin);
        let shown = self.twin.observe(lines.line.choice)?;
        let met = self.meet_shown(plan, at, lines, &shown)?;
        if matches!(met, Met::Unfit) {
            self.arrive(plan, at, machine)?;
        }
        Ok(met)
    }
}
