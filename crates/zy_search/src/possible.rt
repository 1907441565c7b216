//! The outcomes that a step from a state may have.
ghost use Rattle.std.specs.Prelude.{◌≡◌, ◌<◌, true, nat_lt, IfOk, OnOk, length, slice_index_or};
ghost use Rattle.std.specs.List.{list_any};
ghost use Rattle.zy_isa.specs.Limits.{max_choices};
ghost use Rattle.zy_isa.specs.Choices.{names_below};
ghost use Rattle.zy_isa.specs.Scenario.{AreNamed};
ghost use Rattle.zy_isa.specs.declared.choice.Choice.{Choice as AChoice};
ghost use Rattle.zy_search.specs.Choices.{considered};
ghost use Rattle.zy_search.specs.Possible as spec;

use crate::kinds::ChoiceKinds;
use std::alloc::Global;
use zy_isa::Choice;
use zy_machine::{Fault, Machine};
use zy_patterns::OutcomePattern;
use zy_patterns::patterns::matches;

/// Whether a choice has an outcome like `wanted`. It is tried on another machine.
fn gives(
    alloc: Global,
    wanted: OutcomePattern,
    machine: &Machine,
    spare: &mut Machine,
    choice: Choice,
) -> Result<bool, Fault>
    requires room { length machine.now.entries < max_choices }
    requires spare { spare.old.scenario ≡ machine.now.scenario }
    requires named { names_below (length machine.now.scenario.programs) choice ≡ true }
    ensures gives { IfOk result (λ b. b ≡ spec.gives machine.now.scenario wanted machine.now.state choice) }
    ensures spare { OnOk result (spare.new.scenario ≡ machine.now.scenario) }
{
    spare.set_to(alloc, machine)?;
    let entry = spare.step(choice)?;
    Ok(matches(wanted, entry.outcome))
}

/// The place of the first of some choices that has an outcome like `wanted`; their number where none has.
pub(crate) fn first_giving(
    alloc: Global,
    wanted: OutcomePattern,
    machine: &Machine,
    spare: &mut Machine,
    choices: &[Choice],
) -> Result<usize, Fault>
    requires room { length machine.now.entries < max_choices }
    requires spare { spare.old.scenario ≡ machine.now.scenario }
    requires named { AreNamed (length machine.now.scenario.programs) choices.now }
    ensures some { IfOk result (λ i. nat_lt i (length choices.now)
        ≡ list_any (spec.gives machine.now.scenario wanted machine.now.state) choices.now) }
    ensures there { IfOk result (λ i. (d : AChoice) → i < length choices.now
        → spec.gives machine.now.scenario wanted machine.now.state (slice_index_or choices.now i d) ≡ true) }
    ensures spare { OnOk result (spare.new.scenario ≡ machine.now.scenario) }
{
    for i in 0..choices.len() {
        if gives(alloc, wanted, machine, spare, choices[i])? {
            return Ok(i);
        }
    }
    Ok(choices.len())
}

/// Whether a considered choice has an outcome like `wanted`.
pub(crate) fn is_possible(
    alloc: Global,
    kinds: ChoiceKinds,
    wanted: OutcomePattern,
    machine: &Machine,
    spare: &mut Machine,
    choices: &[Choice],
) -> Result<bool, Fault>
    requires room { length machine.now.entries < max_choices }
    requires spare { spare.old.scenario ≡ machine.now.scenario }
    requires choices { choices.now ≡ considered kinds (length machine.now.scenario.programs) }
    ensures possible { IfOk result (λ b. b ≡ spec.is_possible machine.now.scenario kinds wanted machine.now.state) }
    ensures spare { OnOk result (spare.new.scenario ≡ machine.now.scenario) }
{
    let first = first_giving(alloc, wanted, machine, spare, choices)?;
    Ok(first < choices.len())
}
