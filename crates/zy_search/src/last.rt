//! The last step of what is found, where an outcome is asked for.
ghost use Rattle.std.specs.Prelude.{◌≡◌, ◌≤◌, ◌<◌, ◌+◌, ◌++◌, ◌∷◌, [], IfOk, OnOk, Some, length};
ghost use Rattle.zy_isa.specs.Limits.{max_choices};
ghost use Rattle.zy_isa.specs.Scenario.{AreNamed};
ghost use Rattle.zy_table.specs.Play.{play};
ghost use Rattle.zy_search.specs.Searches.{reached, Finds, FindsFirst, IsAnswer, IsDue, IsLast, IsReached};
ghost use Rattle.zy_search.specs.Visits.{IsWhole};

use crate::answer::SearchAnswer;
use crate::plan::Plan;
use crate::possible::first_giving;
use std::alloc::AllocError;
use zy_isa::Choice;
use zy_machine::{Fault, Machine};
use zy_patterns::OutcomePattern;

/// Makes some choices.
fn run_along(machine: &mut Machine, path: &[Choice]) -> Result<(), Fault>
    requires named { AreNamed (length machine.old.scenario.programs) path.now }
    requires room { length machine.old.entries + length path.now ≤ max_choices }
    ensures scenario { machine.new.scenario ≡ machine.old.scenario }
    ensures state { OnOk result (machine.new.state ≡ play machine.old.scenario machine.old.state path.now) }
    ensures entries { OnOk result (length machine.new.entries ≡ length machine.old.entries + length path.now) }
{
    match path {
        [] => Ok(()),
        [first, rest @ ..] => {
            machine.step(*first)?;
            run_along(machine, rest)
        }
    }
}

/// Brings a machine to the state where the choices that were found lead.
fn go_along(plan: &Plan, path: &[Choice], here: &mut Machine) -> Result<(), Fault>
    requires finds { Finds plan.now.start plan.now.sought path.now }
    requires scenario { here.old.scenario ≡ plan.now.start.scenario }
    ensures scenario { OnOk result (here.new.scenario ≡ plan.now.start.scenario) }
    ensures state { OnOk result (here.new.state ≡ reached plan.now.start path.now) }
    ensures entries { OnOk result (length here.new.entries ≡ length plan.now.start.entries + length path.now) }
{
    here.set_to(plan.alloc, &plan.start)?;
    run_along(here, path)
}

/// The first considered choice that has the outcome, from a machine where the choices that were found lead.
fn last_choice(
    plan: &Plan,
    wanted: OutcomePattern,
    path: &[Choice],
    here: &Machine,
    spare: &mut Machine,
) -> Result<Choice, Fault>
    requires whole { IsWhole plan.now }
    requires then { plan.now.sought.then ≡ Some wanted }
    requires finds { Finds plan.now.start plan.now.sought path.now }
    requires scenario { here.now.scenario ≡ plan.now.start.scenario }
    requires state { here.now.state ≡ reached plan.now.start path.now }
    requires entries { length here.now.entries ≡ length plan.now.start.entries + length path.now }
    requires room { length here.now.entries < max_choices }
    requires spare { spare.old.scenario ≡ here.now.scenario }
    ensures { IfOk result (IsLast plan.now.start plan.now.sought wanted path.now) }
{
    let place = first_giving(plan.alloc, wanted, here, spare, &plan.choices)?;
    let choice = plan.choices[place];
    Ok(choice)
}

/// The path with one choice more.
fn longer(mut path: Vec<Choice>, choice: Choice) -> Result<Vec<Choice>, AllocError>
    ensures { IfOk result (λ v. v.items ≡ path.items ++ choice ∷ []) }
{
    path.push(choice)?;
    Ok(path)
}

/// The answer where choices were found, with one more that has the outcome.
fn with_last(
    plan: &Plan,
    wanted: OutcomePattern,
    path: Vec<Choice>,
    here: &mut Machine,
    spare: &mut Machine,
) -> Result<SearchAnswer, Fault>
    requires whole { IsWhole plan.now }
    requires then { plan.now.sought.then ≡ Some wanted }
    requires finds { FindsFirst plan.now.start plan.now.sought path.items }
    requires here { here.old.scenario ≡ plan.now.start.scenario }
    requires spare { spare.old.scenario ≡ plan.now.start.scenario }
    ensures answer { IfOk result (IsAnswer plan.now.start plan.now.sought) }
    ensures due { IfOk result (IsDue plan.now.start plan.now.sought plan.now.most) }
{
    go_along(plan, &path, here)?;
    let choice = last_choice(plan, wanted, &path, here, spare)?;
    let path = longer(path, choice)?;
    Ok(SearchAnswer::Found(path))
}

/// The answer where choices were found, with one more that has the outcome, by one scratch machine.
fn with_wanted(
    plan: &Plan,
    wanted: OutcomePattern,
    path: Vec<Choice>,
    spare: &mut Machine,
) -> Result<SearchAnswer, Fault>
    requires whole { IsWhole plan.now }
    requires then { plan.now.sought.then ≡ Some wanted }
    requires finds { FindsFirst plan.now.start plan.now.sought path.items }
    requires spare { spare.old.scenario ≡ plan.now.start.scenario }
    ensures answer { IfOk result (IsAnswer plan.now.start plan.now.sought) }
    ensures due { IfOk result (IsDue plan.now.start plan.now.sought plan.now.most) }
{
    let mut here = plan.start.copy(plan.alloc)?;
    let answer = with_last(plan, wanted, path, &mut here, spare);
    here.discard();
    answer
}

/// The answer of a search, made of that of the search through the states: it has one step more, if an outcome is asked
/// for.
fn with_step_by(
    plan: &Plan,
    answer: SearchAnswer,
    spare: &mut Machine,
) -> Result<SearchAnswer, Fault>
    requires whole { IsWhole plan.now }
    requires reached { IsReached plan.now.start plan.now.sought answer }
    requires due { IsDue plan.now.start plan.now.sought plan.now.most answer }
    requires spare { spare.old.scenario ≡ plan.now.start.scenario }
    ensures answer { IfOk result (IsAnswer plan.now.start plan.now.sought) }
    ensures due { IfOk result (IsDue plan.now.start plan.now.sought plan.now.most) }
{
    match answer {
        SearchAnswer::Found(path) => match plan.sought.then {
            Some(wanted) => with_wanted(plan, wanted, path, spare),
            None => Ok(SearchAnswer::Found(path)),
        },
        SearchAnswer::Nowhere => Ok(SearchAnswer::Nowhere),
        SearchAnswer::Spent(fewer) => Ok(SearchAnswer::Spent(fewer)),
    }
}

/// The answer of a search, made of that of the search through the states, by a scratch machine of its own.
pub(crate) fn with_step(plan: &Plan, answer: SearchAnswer) -> Result<SearchAnswer, Fault>
    requires whole { IsWhole plan.now }
    requires reached { IsReached plan.now.start plan.now.sought answer }
    requires due { IsDue plan.now.start plan.now.sought plan.now.most answer }
    ensures answer { IfOk result (IsAnswer plan.now.start plan.now.sought) }
    ensures due { IfOk result (IsDue plan.now.start plan.now.sought plan.now.most) }
{
    let mut spare = plan.start.copy(plan.alloc)?;
    let answer = with_step_by(plan, answer, &mut spare);
    spare.discard();
    answer
}
