//! Which states were reached before, and what is kept of a new one.
ghost use Rattle.std.specs.Prelude.{◌≡◌, ◌<◌, ◌+◌, ◌^◌, IfOk, OnOk, None, true, length};
ghost use Rattle.zy_search.specs.Searches as searches;
ghost use Rattle.zy_search.specs.Visits.{path_at};
ghost use Rattle.zy_order.specs.Reaches.{state_by, IsKnown, IsSearch, Adds, GoesOn, KeepsOthers};

use crate::cursors::Cursors;
use crate::digest::digest;
use crate::plan::Plan;
use crate::search::Search;
use crate::walk::go_to;
use zy_machine::{Fault, Machine};
use zy_search::branch::Branch;

/// How many states with one digest are kept; more of them cost time and memory, and nothing else.
const MOST_PER_DIGEST: u64 = 8;

/// A number that differs for most states and cursors. Nothing is promised of it: a bad one costs time alone.
pub(crate) fn digest_of(cursors: Cursors, machine: &Machine) -> u64 {
    let place = cursors.c.code().rotate_left(40)
        ^ cursors.a.code().rotate_left(20)
        ^ cursors.b.code();
    (digest(machine).rotate_left(5) ^ place).wrapping_mul(0x517c_c1b7_2722_0a95)
}

impl Search {
    /// Whether the path at a place leads to the twin's state.
    fn leads_to_twin(&mut self, plan: &Plan, at: u32) -> Result<bool, Fault>
        requires search { IsSearch plan.now self.old }
        requires there { at < length self.old.reached.visited }
        ensures known { IfOk result (λ b. b ≡ true
            → searches.reached plan.now.start (path_at self.old.reached.visited at) ≡ self.old.twin.state) }
        ensures keeps { OnOk result (KeepsOthers plan.now self.old self.new) }
    {
        if let Some(same) = self.recent.compares(at, &self.twin) {
            return Ok(same);
        }
        let recent = &mut self.recent;
        go_to(
            plan,
            &self.reached,
            &recent.checkpoints,
            at,
            &mut recent.spare,
        )?;
        Ok(recent.spare.machine.is_same(&self.twin))
    }

    /// Whether the path that is put under a digest leads to the twin's state, with these cursors.
    fn is_known(&mut self, plan: &Plan, cursors: Cursors, digest: u64) -> Result<bool, Fault>
        requires { IsSearch plan.now self.old }
        ensures known { IfOk result (λ b. b ≡ true → IsKnown plan.now.start self.old.reached cursors
            self.old.twin.state) }
        ensures keeps { OnOk result (KeepsOthers plan.now self.old self.new) }
    {
        let Some(at) = self.reached.visited.find(digest) else {
            return Ok(false);
        };
        if !self.reached.cursors_at(at).is(cursors) {
            return Ok(false);
        }
        self.leads_to_twin(plan, at)
    }

    /// The number to put a path to the twin's state and these cursors under: of their digest and the next few numbers the
    /// first without a path, or the digest, whose path the new one replaces, where each has one. None where one of those
    /// paths leads there.
    fn free_under(&mut self, plan: &Plan, cursors: Cursors) -> Result<Option<u64>, Fault>
        requires { IsSearch plan.now self.old }
        ensures known { IfOk result (λ free. free ≡ None → IsKnown plan.now.start self.old.reached cursors
            self.old.twin.state) }
        ensures keeps { OnOk result (KeepsOthers plan.now self.old self.new) }
    {
        let first = digest_of(cursors, &self.twin);
        for k in 0..MOST_PER_DIGEST {
            let number = first.wrapping_add(k);
            if self.reached.visited.find(number).is_none() {
                return Ok(Some(number));
            }
            if self.is_known(plan, cursors, number)? {
                return Ok(None);
            }
        }
        Ok(Some(first))
    }

    /// Keeps the path of a branch, with the cursors where it leads, and the twin's machine, which is where it leads.
    fn keep(
        &mut self,
        plan: &Plan,
        branch: Branch,
        cursors: Cursors,
        digest: u64,
    ) -> Result<(), Fault>
        requires room { length self.old.reached.visited + 1 < 2 ^ 32 }
        requires leads { GoesOn plan.now self.old branch cursors }
        ensures adds { OnOk result (Adds plan.now self.old self.new) }
        ensures known { let h = plan.now.start in
            OnOk result (IsKnown h self.new.reached cursors (state_by h self.old.reached branch.from branch.by)) }
    {
        let place = self.reached.visited.len() as u32;
        self.reached.push(branch, cursors, digest)?;
        self.recent
            .put(plan.alloc, place, &mut self.twin, &plan.start)?;
        Ok(())
    }

    /// Keeps the path of a branch, which leads to the twin's state and these cursors, unless one that leads there is known.
    /// It answers no where there is no room for it.
    pub(crate) fn note(
        &mut self,
        plan: &Plan,
        branch: Branch,
        cursors: Cursors,
    ) -> Result<bool, Fault>
        requires { GoesOn plan.now self.old branch cursors }
        ensures adds { OnOk result (Adds plan.now self.old self.new) }
        ensures known { let h = plan.now.start in IfOk result (λ b. b ≡ true
            → IsKnown h self.new.reached cursors (state_by h self.old.reached branch.from branch.by)) }
    {
        let Some(digest) = self.free_under(plan, cursors)? else {
            return Ok(true);
        };
        if plan.most as usize <= self.reached.visited.len() {
            return Ok(false);
        }
        self.keep(plan, branch, cursors, digest)?;
        Ok(true)
    }
}
