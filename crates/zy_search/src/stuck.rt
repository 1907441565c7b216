//! Whether nothing goes on.
ghost use Rattle.std.specs.Prelude.{◌≡◌, ◌<◌, true, IfOk, OnOk, length};
ghost use Rattle.std.specs.List.{list_all};
ghost use Rattle.zy_isa.specs.Limits.{max_choices};
ghost use Rattle.zy_isa.specs.Choices.{names_below};
ghost use Rattle.zy_isa.specs.Scenario.{AreNamed};
ghost use Rattle.zy_table.specs.Play as table;
ghost use Rattle.zy_search.specs.Choices as search_choices;
ghost use Rattle.zy_search.specs.Stuck as search_stuck;
ghost use Rattle.zy_search.specs.Visits.{IsTwin};

use crate::kinds::ChoiceKinds;
use crate::still::is_still;
use std::alloc::Global;
use zy_goals::txns::selected_have;
use zy_goals::{Selector, TxnProperty};
use zy_isa::{Choice, MAX_CHOICES};
use zy_machine::{Fault, Machine};

/// Makes room for a step of a twin, whose history grows by each step that it tries.
fn make_room(alloc: Global, machine: &Machine, twin: &mut Machine) -> Result<(), Fault>
    requires twin { IsTwin machine.now twin.old }
    requires room { length machine.now.entries < max_choices }
    ensures twin { OnOk result (IsTwin machine.now twin.new) }
    ensures room { OnOk result (length twin.new.entries < max_choices) }
{
    if twin.len() < MAX_CHOICES {
        return Ok(());
    }
    twin.set_to(alloc, machine)
}

/// Whether nothing comes of a choice. The twin is still one where it answers yes.
fn stays(
    alloc: Global,
    machine: &Machine,
    twin: &mut Machine,
    choice: Choice,
) -> Result<bool, Fault>
    requires twin { IsTwin machine.now twin.old }
    requires named { names_below (length machine.now.scenario.programs) choice ≡ true }
    requires room { length machine.now.entries < max_choices }
    ensures still { IfOk result (λ b. b ≡ search_stuck.is_still
        (table.step machine.now.scenario choice machine.now.state).outcome) }
    ensures twin { IfOk result (λ b. b ≡ true → IsTwin machine.now twin.new) }
    ensures scenario { OnOk result (twin.new.scenario ≡ machine.now.scenario) }
{
    make_room(alloc, machine, twin)?;
    let entry = twin.step(choice)?;
    Ok(is_still(entry.outcome))
}

/// Whether nothing comes of any of some choices.
fn is_stuck_by(
    alloc: Global,
    machine: &Machine,
    twin: &mut Machine,
    choices: &[Choice],
) -> Result<bool, Fault>
    requires twin { IsTwin machine.now twin.old }
    requires room { length machine.now.entries < max_choices }
    requires named { AreNamed (length machine.now.scenario.programs) choices.now }
    ensures stuck { IfOk result (λ b. b ≡ list_all (λ c. search_stuck.is_still
        (table.step machine.now.scenario c machine.now.state).outcome) choices.now) }
    ensures scenario { OnOk result (twin.new.scenario ≡ machine.now.scenario) }
{
    for i in 0..choices.len() {
        if !stays(alloc, machine, twin, choices[i])? {
            return Ok(false);
        }
    }
    Ok(true)
}

/// Whether a transaction is active, and nothing comes of any choice that is considered. They are tried on another
/// machine.
pub(crate) fn is_stuck(
    alloc: Global,
    kinds: ChoiceKinds,
    machine: &Machine,
    spare: &mut Machine,
    choices: &[Choice],
) -> Result<bool, Fault>
    requires room { length machine.now.entries < max_choices }
    requires spare { spare.old.scenario ≡ machine.now.scenario }
    requires choices { choices.now ≡ search_choices.considered kinds (length machine.now.scenario.programs) }
    ensures stuck { IfOk result (λ b. b ≡ search_stuck.is_stuck machine.now.scenario kinds machine.now.state) }
    ensures spare { OnOk result (spare.new.scenario ≡ machine.now.scenario) }
{
    if !selected_have(Selector::Any, TxnProperty::Active, machine) {
        return Ok(false);
    }
    spare.set_to(alloc, machine)?;
    is_stuck_by(alloc, machine, spare, choices)
}
