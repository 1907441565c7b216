//! The states that a search has reached.
ghost use Rattle.std.specs.Prelude.{◌≡◌, ◌<◌, ◌∷◌, [], ◌++◌, IfOk, OnOk};
ghost use Rattle.std.specs.Prelude.{length};
ghost use Rattle.zy_step_cache.specs.StepCaches.{Numbers};
ghost use Rattle.zy_search.specs.declared.plan.Plan.{Plan as APlan};
ghost use Rattle.zy_search.specs.Visits.{path_at, state_by, IsInformed, IsWhole};

use crate::branch::Branch;
use crate::plan::Plan;
use crate::sought::counted;
use crate::tree::ChoiceTree;
use std::alloc::AllocError;
use zy_laws::laws::safe_counts;
use zy_step_cache::Explored;

/// A path to each state that was reached, and what is known of these states.
#[derive(Drop)]
pub struct Reached {
    pub tree: ChoiceTree,
    pub explored: Explored,
}

impl Reached {
    /// The empty path alone, which leads to the state that a plan starts from.
    pub(crate) fn new(plan: &Plan) -> Result<Reached, AllocError>
        requires { IsWhole plan.now }
        ensures paths { IfOk result (λ r. r.tree ≡ [] ∷ []) }
        ensures informed { IfOk result (IsInformed plan.now) }
    {
        // Proof: there are as many transactions as programs.
        safe_counts();
        let _tested = plan.start.scenario();
        let mut explored = Explored::new(plan.alloc, counted(&plan.sought), &plan.choices)?;
        let numbers = explored.cache.numbers_of(&plan.start)?;
        explored.push(&numbers)?;
        Ok(Reached {
            tree: ChoiceTree::new(plan.alloc),
            explored,
        })
    }

    /// Takes in the path of a branch, which leads to a state with these numbers.
    pub(crate) fn push(&mut self, branch: Branch, numbers: &[u32]) -> Result<(), AllocError>
        requires { branch.from < length self.old.tree }
        ensures paths { OnOk result (self.new.tree
            ≡ self.old.tree ++ (path_at self.old.tree branch.from ++ branch.by ∷ []) ∷ []) }
        ensures cache { self.new.explored.cache ≡ self.old.explored.cache }
        ensures informed { OnOk result ((p : APlan) → IsInformed p self.old
            → Numbers self.old.explored.cache (state_by p self.old.tree branch) numbers.now → IsInformed p self.new) }
    {
        self.explored.push(numbers)?;
        self.tree.push(branch)?;
        Ok(())
    }
}
