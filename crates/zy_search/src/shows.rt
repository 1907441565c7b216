//! Whether a state shows what is looked for.
ghost use Rattle.std.specs.Prelude.{◌≡◌, ◌<◌, IfOk, OnOk, true, length, is_some};
ghost use Rattle.std.specs.Bool.{Decides};
ghost use Rattle.zy_isa.specs.Limits.{max_choices};
ghost use Rattle.zy_goals.specs.Goals as goals;
ghost use Rattle.zy_goals.specs.Footprints as goals_footprints;
ghost use Rattle.zy_search.specs.Choices.{considered};
ghost use Rattle.zy_search.specs.Searches.{MayTry, Shows, context_of};
ghost use Rattle.zy_search.specs.Searches as spec;

use crate::deadlock::is_deadlocked;
use crate::kinds::ChoiceKinds;
use crate::possible::is_possible;
use crate::sought::Sought;
use crate::stuck::is_stuck;
use std::alloc::Global;
use zy_goals::facts::holds_in;
use zy_goals::footprint::is_of_commits;
use zy_goals::{Fact, Goal};
use zy_isa::Choice;
use zy_machine::{Fault, Machine};
use zy_patterns::OutcomePattern;
use zy_serial::serial::same;

/// Whether a fact holds in a machine's state. The considered choices are tried on another machine.
fn holds(
    alloc: Global,
    kinds: ChoiceKinds,
    fact: Fact,
    choices: &[Choice],
    machine: &Machine,
    spare: &mut Machine,
) -> Result<bool, Fault>
    requires room { goals_footprints.fact_takes_steps fact ≡ true → length machine.now.entries < max_choices }
    requires choices { choices.now ≡ considered kinds (length machine.now.scenario.programs) }
    requires spare { spare.old.scenario ≡ machine.now.scenario }
    ensures holds { IfOk result (λ b. b ≡ goals.holds (context_of machine.now.scenario kinds machine.now.state) fact
        machine.now.state) }
    ensures spare { OnOk result (spare.new.scenario ≡ machine.now.scenario) }
{
    match fact {
        Fact::Differs => {
            let same = same(alloc, machine)?;
            Ok(!same)
        }
        Fact::Stuck => is_stuck(alloc, kinds, machine, spare, choices),
        Fact::Deadlock => is_deadlocked(alloc, machine, spare),
        Fact::OfState(state_fact) => Ok(holds_in(state_fact, machine)),
    }
}

/// Whether a machine's state meets a goal. The second of two goals is judged only where it still counts.
fn meets(
    alloc: Global,
    kinds: ChoiceKinds,
    goal: &Goal,
    choices: &[Choice],
    machine: &Machine,
    spare: &mut Machine,
) -> Result<bool, Fault>
    requires room { goals_footprints.takes_steps goal.now ≡ true → length machine.now.entries < max_choices }
    requires choices { choices.now ≡ considered kinds (length machine.now.scenario.programs) }
    requires spare { spare.old.scenario ≡ machine.now.scenario }
    ensures meets { IfOk result (λ b. b ≡ goals.meets (context_of machine.now.scenario kinds machine.now.state)
        goal.now machine.now.state) }
    ensures spare { OnOk result (spare.new.scenario ≡ machine.now.scenario) }
{
    match goal {
        Goal::Is(fact) => holds(alloc, kinds, *fact, choices, machine, spare),
        Goal::Not(g) => {
            let is_met = meets(alloc, kinds, g, choices, machine, spare)?;
            Ok(!is_met)
        }
        Goal::And(g, h) => {
            if !meets(alloc, kinds, g, choices, machine, spare)? {
                return Ok(false);
            }
            meets(alloc, kinds, h, choices, machine, spare)
        }
        Goal::Or(g, h) => {
            if meets(alloc, kinds, g, choices, machine, spare)? {
                return Ok(true);
            }
            meets(alloc, kinds, h, choices, machine, spare)
        }
    }
}

/// Whether a considered choice has the outcome that is asked for, if one is.
fn may_follow(
    alloc: Global,
    kinds: ChoiceKinds,
    then: Option<OutcomePattern>,
    choices: &[Choice],
    machine: &Machine,
    spare: &mut Machine,
) -> Result<bool, Fault>
    requires room { is_some then ≡ true → length machine.now.entries < max_choices }
    requires choices { choices.now ≡ considered kinds (length machine.now.scenario.programs) }
    requires spare { spare.old.scenario ≡ machine.now.scenario }
    ensures follows { IfOk result (λ b. b ≡ spec.may_follow machine.now.scenario kinds then machine.now.state) }
    ensures spare { OnOk result (spare.new.scenario ≡ machine.now.scenario) }
{
    match then {
        None => Ok(true),
        Some(wanted) => is_possible(alloc, kinds, wanted, machine, spare, choices),
    }
}

/// Whether a machine's state shows what is looked for. The considered choices are tried on another machine.
pub(crate) fn shows_all(
    alloc: Global,
    sought: &Sought,
    choices: &[Choice],
    machine: &Machine,
    spare: &mut Machine,
) -> Result<bool, Fault>
    requires room { MayTry sought.now machine.now }
    requires choices { choices.now ≡ considered sought.now.kinds (length machine.now.scenario.programs) }
    requires spare { spare.old.scenario ≡ machine.now.scenario }
    ensures shows { IfOk result (λ b. b ≡ spec.shows machine.now.scenario sought.now machine.now.state) }
    ensures spare { OnOk result (spare.new.scenario ≡ machine.now.scenario) }
{
    if !meets(alloc, sought.kinds, &sought.goal, choices, machine, spare)? {
        return Ok(false);
    }
    may_follow(alloc, sought.kinds, sought.then, choices, machine, spare)
}

/// Whether the fact `Shows` holds of a machine's state. The considered choices are tried on another machine.
pub(crate) fn shows(
    alloc: Global,
    sought: &Sought,
    choices: &[Choice],
    machine: &Machine,
    spare: &mut Machine,
) -> Result<bool, Fault>
    requires room { MayTry sought.now machine.now }
    requires choices { choices.now ≡ considered sought.now.kinds (length machine.now.scenario.programs) }
    requires spare { spare.old.scenario ≡ machine.now.scenario }
    ensures shows { IfOk result (λ b. Decides b (Shows machine.now.scenario sought.now machine.now.state)) }
    ensures spare { OnOk result (spare.new.scenario ≡ machine.now.scenario) }
{
    shows_all(alloc, sought, choices, machine, spare)
}

/// Whether only a commit can bring about what is looked for.
pub(crate) fn is_by_commits(sought: &Sought) -> bool
    ensures { result ≡ spec.is_by_commits sought.now }
{
    sought.then.is_none() && is_of_commits(&sought.goal)
}
