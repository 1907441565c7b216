//! Where a scenario's own run shows what is looked for.
ghost use Rattle.std.specs.Prelude.{◌≡◌, [], IfOk};
ghost use Rattle.zy_search.specs.Along.{shown_along};
ghost use Rattle.zy_machine.specs.Replays.{Follows};

use crate::search::choices_from;
use crate::shows::shows_all;
use crate::sought::{Sought, deepest};
use std::alloc::Global;
use zy_isa::Scenario;
use zy_machine::replay::{advance_to, start};
use zy_machine::{Fault, Machine};

/// Makes the choices of a machine that has made none yet, and gives the positions at which its state shows what is
/// looked for.
fn along_by(
    alloc: Global,
    sought: &Sought,
    machine: &mut Machine,
    spare: &mut Machine,
) -> Result<Vec<usize>, Fault>
    requires follows { Follows machine.old }
    requires start { machine.old.entries ≡ [] }
    requires spare { spare.old.scenario ≡ machine.old.scenario }
    ensures { IfOk result (λ v. v.items ≡ shown_along machine.old.scenario sought.now) }
{
    let choices = choices_from(alloc, sought.kinds, machine)?;
    let last = deepest(sought).min(machine.scenario().choices().len());
    let mut positions = Vec::new(alloc);
    for m in 0..last + 1 {
        advance_to(machine, m)?;
        if shows_all(alloc, sought, &choices, machine, spare)? {
            positions.push(m)?;
        }
    }
    Ok(positions)
}

/// Makes the choices of a machine that has made none yet, and gives the positions at which its state shows what is looked for,
/// with a scratch machine of its own.
fn along_from(alloc: Global, sought: &Sought, machine: &mut Machine) -> Result<Vec<usize>, Fault>
    requires follows { Follows machine.old }
    requires start { machine.old.entries ≡ [] }
    ensures { IfOk result (λ v. v.items ≡ shown_along machine.old.scenario sought.now) }
{
    let mut spare = machine.copy(alloc)?;
    let positions = along_by(alloc, sought, machine, &mut spare);
    spare.discard();
    positions
}

/// The positions of a scenario's own run at which its state shows what is looked for: how many choices are made there.
/// A state after 4096 choices is not judged where that takes steps.
pub fn along(alloc: Global, scenario: Scenario, sought: &Sought) -> Result<Vec<usize>, Fault>
    ensures { IfOk result (λ v. v.items ≡ shown_along scenario sought.now) }
{
    let mut machine = start(alloc, scenario)?;
    let positions = along_from(alloc, sought, &mut machine);
    machine.discard();
    positions
}
