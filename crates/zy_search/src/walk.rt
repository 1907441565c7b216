//! Machines that go along paths.
ghost use Rattle.std.specs.Prelude.{◌≡◌, ◌≤◌, ◌<◌, ◌+◌, [], OnOk, length};
ghost use Rattle.zy_isa.specs.Limits.{max_choices};
ghost use Rattle.zy_isa.specs.Scenario.{AreNamed};
ghost use Rattle.zy_table.specs.Play.{play};
ghost use Rattle.zy_search.specs.Searches.{IsPath};
ghost use Rattle.zy_search.specs.Visits.{path_at, length_at, IsHere};

use crate::plan::Plan;
use crate::tree::ChoiceTree;
use zy_machine::{Fault, Machine};

/// Makes the choices of a path, from its root on.
fn walk(tree: &ChoiceTree, at: u32, machine: &mut Machine) -> Result<(), Fault>
    requires there { at < length tree.now }
    requires first { path_at tree.now 0 ≡ [] }
    requires named { AreNamed (length machine.old.scenario.programs) (path_at tree.now at) }
    requires room { length machine.old.entries + length_at tree.now at ≤ max_choices }
    ensures scenario { machine.new.scenario ≡ machine.old.scenario }
    ensures state { OnOk result (machine.new.state ≡ play machine.old.scenario machine.old.state
        (path_at tree.now at)) }
    ensures entries { OnOk result (length machine.new.entries ≡ length machine.old.entries + length_at tree.now at) }
{
    if at == 0 {
        return Ok(());
    }
    let branch = tree.branch(at as usize);
    walk(tree, branch.from, machine)?;
    machine.step(branch.by)?;
    Ok(())
}

/// Brings a machine to where the path at a place leads.
pub(crate) fn go_to(
    plan: &Plan,
    tree: &ChoiceTree,
    at: u32,
    machine: &mut Machine,
) -> Result<(), Fault>
    requires there { at < length tree.now }
    requires first { path_at tree.now 0 ≡ [] }
    requires path { IsPath plan.now.start plan.now.sought (path_at tree.now at) }
    requires same { machine.old.scenario ≡ plan.now.start.scenario }
    ensures here { OnOk result (IsHere plan.now.start tree.now at machine.new) }
{
    machine.set_to(plan.alloc, &plan.start)?;
    walk(tree, at, machine)
}
