//! The paths are followed, one after another, depth first.
ghost use Rattle.std.specs.Prelude.{◌≡◌, ◌<◌, IfOk, OnOk, length};
ghost use Rattle.zy_order.specs.declared.plan.Plan.{Plan as APlan};
ghost use Rattle.std.specs.Bool.{Decides};
ghost use Rattle.zy_order.specs.Machines.{IsPlaced};
ghost use Rattle.zy_order.specs.Reaches.{AreFollowedBut, Follows, IsComplete, IsReached, IsTaken, IsUnderWay, Settles};

use crate::cursors::Cursors;
use crate::end::has_end;
use crate::placed_machine::PlacedMachine;
use crate::plan::Plan;
use crate::reached::Reached;
use crate::search::Search;
use zy_machine::{Fault, Machine};
use zy_search::watch::Watch;

/// What came of following the paths.
#[derive(Clone, Copy)]
pub(crate) enum Followed {
    /// The path at this place is an order with the end that is asked for.
    Whole(u32),
    /// None is, and none is left to follow.
    Nowhere,
    /// There is one state too many.
    Spent,
}

/// Takes the place of the next path to follow out of those to do.
fn next_of(reached: &mut Reached) -> Option<u32>
    ensures paths { reached.new.visited ≡ reached.old.visited }
    ensures reached { (p : APlan) → IsReached p reached.old → IsReached p reached.new }
    ensures taken { (p : APlan) → IsReached p reached.old → AreFollowedBut p reached.old reached.old.todo.items
        → IsTaken p reached.new result }
{
    reached.todo.pop()
}

/// How many paths are followed before the watch hears of it again.
const EVERY: u32 = 256;

/// Reports to the watch how far the search is, if it is time.
fn report_to<W: Watch>(watch: &mut W, reached: &Reached, turn: u32, at: u32)
    requires { at < length reached.now.visited }
{
    if turn % EVERY == 0 {
        let paths = reached.visited.tree();
        watch.look(paths.len(), paths.length(at as usize));
    }
}

/// Whether a path to these cursors, where a machine is, is an order with the end that is asked for.
fn is_complete(plan: &Plan, cursors: Cursors, machine: &Machine) -> bool
    ensures { Decides result (IsComplete plan.now cursors machine.now.state) }
{
    plan.logs.are_matched(cursors) && has_end(plan.end, machine)
}

impl Search {
    /// Follows the paths that are to do, the last one first, and those that are added on the way, until one is an order with
    /// the end that is asked for or none is left. The machine is a scratch machine.
    fn follow<W: Watch>(
        &mut self,
        plan: &Plan,
        machine: &mut PlacedMachine,
        watch: &mut W,
    ) -> Result<Followed, Fault>
        requires follows { Follows plan.now self.old }
        requires machine { IsPlaced plan.now.start self.old.reached.visited machine.old }
        ensures under_way { OnOk result (IsUnderWay plan.now self.new.reached) }
        ensures settles { IfOk result (Settles plan.now self.new.reached) }
    {
        // A path is followed once, and there are fewer paths than this.
        for turn in 0..u32::MAX {
            let Some(at) = next_of(&mut self.reached) else {
                return Ok(Followed::Nowhere);
            };
            report_to(watch, &self.reached, turn, at);
            self.arrive(plan, at, machine)?;
            if is_complete(plan, self.reached.cursors_at(at), &machine.machine) {
                return Ok(Followed::Whole(at));
            }
            if !self.expand(plan, at, machine)? {
                return Ok(Followed::Spent);
            }
        }
        Ok(Followed::Spent)
    }

    /// Follows the paths that are to do and those that are added on the way, with a machine of its own to do it by.
    pub(crate) fn follow_all<W: Watch>(
        &mut self,
        plan: &Plan,
        watch: &mut W,
    ) -> Result<Followed, Fault>
        requires { Follows plan.now self.old }
        ensures under_way { OnOk result (IsUnderWay plan.now self.new.reached) }
        ensures settles { IfOk result (Settles plan.now self.new.reached) }
    {
        let mut machine = PlacedMachine::copy_of(plan.alloc, &plan.start)?;
        let followed = self.follow(plan, &mut machine, watch);
        drop(machine);
        followed
    }
}
