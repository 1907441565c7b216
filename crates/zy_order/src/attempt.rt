//! One choice more, on a machine of its own.
ghost use Rattle.std.specs.Prelude.{◌≡◌, ◌<◌, ◌+◌, IfOk, OnOk, true, length};
ghost use Rattle.zy_isa.specs.Choices.{names_below};
ghost use Rattle.zy_isa.specs.Limits.{max_choices};
ghost use Rattle.zy_table.specs.Play as table;
ghost use Rattle.zy_table.specs.Observations.{observation_at};

use std::alloc::Global;
use zy_isa::Choice;
use zy_machine::{Fault, Machine};
use zy_table::Observation;

/// Makes a choice from the state of a machine, on its twin, and returns what its step shows.
pub(crate) fn attempt(
    alloc: Global,
    here: &Machine,
    twin: &mut Machine,
    choice: Choice,
) -> Result<Observation, Fault>
    requires same { twin.old.scenario ≡ here.now.scenario }
    requires named { names_below (length here.now.scenario.programs) choice ≡ true }
    requires room { length here.now.entries < max_choices }
    ensures observation { IfOk result (λ o. o ≡ observation_at here.now.scenario here.now.state choice) }
    ensures state { OnOk result (twin.new.state ≡ (table.step here.now.scenario choice here.now.state).after) }
    ensures longer { OnOk result (length twin.new.entries ≡ length here.now.entries + 1) }
    ensures scenario { OnOk result (twin.new.scenario ≡ here.now.scenario) }
{
    twin.set_to(alloc, here)?;
    twin.observe(choice)
}
