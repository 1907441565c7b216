//! A machine that goes along a path.
ghost use Rattle.std.specs.Prelude.{◌≡◌, ◌<◌, OnOk, Some, length};
ghost use Rattle.zy_order.specs.Reaches.{IsUnderWay};
ghost use Rattle.zy_order.specs.Machines.{AreCheckpoints, IsPlaced};

use crate::checkpoints::Checkpoints;
use crate::placed_machine::PlacedMachine;
use crate::plan::Plan;
use crate::reached::Reached;
use zy_machine::Fault;

/// Brings a machine to where the path at a place leads. It goes on from the last place of that path where the machine is, a
/// checkpoint is, or the path starts.
pub(crate) fn go_to(
    plan: &Plan,
    reached: &Reached,
    checkpoints: &Checkpoints,
    at: u32,
    machine: &mut PlacedMachine,
) -> Result<(), Fault>
    requires there { at < length reached.now.visited }
    requires under_way { IsUnderWay plan.now reached.now }
    requires checkpoints { AreCheckpoints plan.now.start reached.now.visited checkpoints.now }
    requires placed { IsPlaced plan.now.start reached.now.visited machine.old }
    ensures at { OnOk result (machine.new.at ≡ Some at) }
    ensures placed { OnOk result (IsPlaced plan.now.start reached.now.visited machine.new) }
{
    if machine.at == Some(at) {
        return Ok(());
    }
    if let Some(there) = checkpoints.find(at) {
        return machine.set_to(plan.alloc, at, there);
    }
    if at == 0 {
        return machine.set_to(plan.alloc, at, &plan.start);
    }
    let branch = reached.visited.tree().branch(at as usize);
    go_to(plan, reached, checkpoints, branch.from, machine)?;
    machine.at = None;
    machine.machine.step(branch.by)?;
    machine.at = Some(at);
    Ok(())
}
