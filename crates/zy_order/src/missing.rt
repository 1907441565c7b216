//! What steps lead to that the logs lack.
ghost use Rattle.std.specs.Prelude.{◌≡◌, IfOk, OnOk, true, length};
ghost use Rattle.zy_isa.specs.Choices.{names_below};
ghost use Rattle.zy_order.specs.Reaches.{IsAt, IsTried, AreTried, Adds};

use crate::attempt::attempt;
use crate::search::{Position, Search};
use zy_isa::Choice;
use zy_machine::Fault;
use zy_search::branch::Branch;

impl Search {
    /// Makes a choice at a position, as that of a step that its actor's log lacks, if one may be missing there, and
    /// keeps where it leads. A step that changes nothing leads nowhere else: whatever comes behind it comes without it.
    /// It answers no where there is no room for what is kept.
    fn try_one(&mut self, here: Position, choice: Choice) -> Result<bool, Fault>
        requires at { IsAt here self.old }
        requires named { names_below (length here.plan.now.start.scenario.programs) choice ≡ true }
        ensures adds { OnOk result (Adds here.entry.plan.now self.old self.new) }
        ensures tried { let p = here.entry.plan.now in
            IfOk result (λ b. b ≡ true → IsTried p.start p.logs self.new.reached here.entry.at choice) }
    {
        let cursors = self.reached.cursors_at(here.at);
        let actor = choice.actor();
        if !here.plan.logs.has_gap(cursors, actor) {
            return Ok(true);
        }
        attempt(here.plan.alloc, here.machine, &mut self.twin, choice)?;
        if self.twin.is_same(here.machine) {
            return Ok(true);
        }
        let branch = Branch {
            from: here.at,
            by: choice,
        };
        self.note(here.plan, branch, cursors.with_missing(actor))
    }

    /// Tries each choice of which nothing may have been logged.
    pub(crate) fn try_each(&mut self, here: Position) -> Result<bool, Fault>
        requires { IsAt here self.old }
        ensures adds { OnOk result (Adds here.entry.plan.now self.old self.new) }
        ensures tried { let p = here.entry.plan.now in
            IfOk result (λ b. b ≡ true → AreTried p.start p.logs self.new.reached here.entry.at) }
    {
        if here.plan.logs.has_no_gap(self.reached.cursors_at(here.at)) {
            return Ok(true);
        }
        for i in 0..here.plan.choices.len() {
            if !self.try_one(here, here.plan.choices[i])? {
                return Ok(false);
            }
        }
        Ok(true)
    }
}
