//! What the choices from one state lead to.
ghost use Rattle.std.specs.Prelude.{◌≡◌, ◌<◌, ◌+◌, ◌++◌, ◌∷◌, [], IfOk, OnOk, true, false, length};
ghost use Rattle.std.specs.Bool.{Decides};
ghost use Rattle.zy_isa.specs.declared.choice.Choice.{Choice as AChoice};
ghost use Rattle.zy_step_cache.specs.StepCaches.{Numbers};
ghost use Rattle.zy_search.specs.Ahead.{GoesOn, IsForeseen, HasNumbers};
ghost use Rattle.zy_search.specs.Searches.{Shows};
ghost use Rattle.zy_search.specs.Stuck as stuck;
ghost use Rattle.zy_search.specs.Visits.{path_at, length_at, state_by, step_by, IsFresh};
ghost use Rattle.zy_search.specs.Visits.{AreNumbersAt, AreOf, AreScratch, Grows, IsEdge, IsInformed, IsNumber, IsReady, IsReadyFor, IsTurn, IsWhole, Visits};
ghost use Rattle.zy_search.specs.Visits.{ExpandsWell, LeadsTo, Meets};

use crate::ahead::{Ahead, Successor, recall, rests};
use crate::answer::{Expanded, Met};
use crate::branch::{Branch, NumberedBranch};
use crate::plan::Plan;
use crate::reached::Reached;
use crate::scratch::Scratch;
use crate::shows::{is_by_commits, shows};
use crate::sought::deepest;
use crate::still::is_still;
use crate::tree::ChoiceTree;
use crate::turn_numbers::TurnNumbers;
use crate::walk::go_to;
use std::alloc::{AllocError, Global};
use zy_isa::Choice;
use zy_machine::Fault;
use zy_table::Outcome;

/// Brings the first scratch machine to where the path at a place leads, unless it is there.
fn arrive(plan: &Plan, tree: &ChoiceTree, at: u32, scratch: &mut Scratch) -> Result<(), Fault>
    requires ready { IsReady plan.now tree.now at }
    requires scratch { AreScratch plan.now.start tree.now at scratch.old }
    ensures scratch { OnOk result (AreScratch plan.now.start tree.now at scratch.new) }
    ensures here { OnOk result (scratch.new.is_here ≡ true) }
{
    if scratch.is_here {
        return Ok(());
    }
    go_to(plan, tree, at, &mut scratch.here)?;
    scratch.is_here = true;
    Ok(())
}

/// Makes the choice of a branch on the second scratch machine.
fn attempt(
    plan: &Plan,
    tree: &ChoiceTree,
    branch: Branch,
    scratch: &mut Scratch,
) -> Result<Outcome, Fault>
    requires turn { IsTurn plan.now tree.now branch }
    requires scratch { AreScratch plan.now.start tree.now branch.from scratch.old }
    ensures scratch { OnOk result (AreScratch plan.now.start tree.now branch.from scratch.new) }
    ensures outcome { IfOk result (λ o. o ≡ (step_by plan.now tree.now branch).outcome) }
    ensures state { OnOk result (scratch.new.after.state ≡ state_by plan.now tree.now branch) }
    ensures entries { OnOk result (length scratch.new.after.entries
        ≡ length plan.now.start.entries + length_at tree.now branch.from + 1) }
{
    arrive(plan, tree, branch.from, scratch)?;
    scratch.after.set_to(plan.alloc, &scratch.here)?;
    let entry = scratch.after.step(branch.by)?;
    Ok(entry.outcome)
}

/// What comes of the choice of a branch, which is remembered. Where something does, the numbers of the state that it leads
/// to are those that come next.
fn learn(
    plan: &Plan,
    reached: &mut Reached,
    turn: NumberedBranch,
    scratch: &mut Scratch,
    numbers: &mut TurnNumbers,
) -> Result<Outcome, Fault>
    requires ready { IsReadyFor plan.now reached.old turn.branch scratch.old }
    requires choice { IsNumber plan.now turn.choice turn.branch.by }
    ensures tree { OnOk result (reached.new.tree ≡ reached.old.tree) }
    ensures goes_on { OnOk result (GoesOn reached.old reached.new) }
    ensures leads { IfOk result (LeadsTo plan.now reached.new turn.branch numbers.new.next.items) }
    ensures scratch { OnOk result (AreScratch plan.now.start reached.old.tree turn.branch.from scratch.new) }
    ensures here { numbers.new.here ≡ numbers.old.here }
{
    let NumberedBranch { branch, choice } = turn;
    let outcome = attempt(plan, &reached.tree, branch, scratch)?;
    let place = branch.from as usize;
    reached
        .explored
        .learn(choice, place, &scratch.after, outcome, &mut numbers.next)?;
    Ok(outcome)
}

/// What comes of the choice of a branch, by a step that is remembered, if there is one, and else by a machine.
fn outcome_of(
    plan: &Plan,
    reached: &mut Reached,
    turn: NumberedBranch,
    scratch: &mut Scratch,
    numbers: &mut TurnNumbers,
) -> Result<Outcome, Fault>
    requires ready { IsReadyFor plan.now reached.old turn.branch scratch.old }
    requires choice { IsNumber plan.now turn.choice turn.branch.by }
    requires here { AreNumbersAt plan.now reached.old turn.branch.from numbers.old.here.items }
    ensures tree { OnOk result (reached.new.tree ≡ reached.old.tree) }
    ensures goes_on { OnOk result (GoesOn reached.old reached.new) }
    ensures leads { IfOk result (LeadsTo plan.now reached.new turn.branch numbers.new.next.items) }
    ensures scratch { OnOk result (AreScratch plan.now.start reached.old.tree turn.branch.from scratch.new) }
    ensures here { numbers.new.here ≡ numbers.old.here }
{
    if let Some(outcome) = recall(plan, reached, turn, numbers)? {
        return Ok(outcome);
    }
    learn(plan, reached, turn, scratch, numbers)
}

/// Whether the state that a branch leads to shows what is looked for, which that of its path does not. Where only a commit
/// can bring it about and none was made, the state is not judged.
fn shows_next(
    plan: &Plan,
    reached: &Reached,
    branch: Branch,
    scratch: &mut Scratch,
    next: &[u32],
) -> Result<bool, Fault>
    requires ready { IsReadyFor plan.now reached.now branch scratch.old }
    requires numbers { Numbers reached.now.explored.cache (state_by plan.now reached.now.tree branch) next.now }
    ensures shows { IfOk result (λ b. Decides b (Shows plan.now.start.scenario plan.now.sought
        (state_by plan.now reached.now.tree branch))) }
    ensures scratch { OnOk result (AreScratch plan.now.start reached.now.tree branch.from scratch.new) }
{
    // Proof: the state before is one that the choices of a tested scenario lead to.
    let _tested = plan.start.scenario();
    let place = branch.from as usize;
    if is_by_commits(&plan.sought) && reached.explored.same_commits(place, next) {
        return Ok(false);
    }
    attempt(plan, &reached.tree, branch, scratch)?;
    shows(
        plan.alloc,
        &plan.sought,
        &plan.choices,
        &scratch.after,
        &mut scratch.spare,
    )
}

/// Takes in the state that a branch leads to, if it does not show what is looked for and there is room for it.
fn note_new(
    plan: &Plan,
    reached: &mut Reached,
    branch: Branch,
    scratch: &mut Scratch,
    next: &[u32],
) -> Result<Met, Fault>
    requires ready { IsReadyFor plan.now reached.old branch scratch.old }
    requires numbers { Numbers reached.old.explored.cache (state_by plan.now reached.old.tree branch) next.now }
    requires moved { stuck.is_still (step_by plan.now reached.old.tree branch).outcome ≡ false }
    ensures meets { IfOk result (Meets plan.now reached.old.tree reached.new branch scratch.new) }
    ensures goes_on { OnOk result (GoesOn reached.old reached.new) }
{
    if shows_next(plan, reached, branch, scratch, next)? {
        return Ok(Met::Shown);
    }
    if plan.most as usize <= reached.tree.len() {
        return Ok(Met::Spent);
    }
    reached.push(branch, next)?;
    Ok(Met::Noted)
}

/// Takes in the state that a branch leads to, by its numbers, if that is a new one.
fn note(
    plan: &Plan,
    reached: &mut Reached,
    branch: Branch,
    scratch: &mut Scratch,
    next: &[u32],
) -> Result<Met, Fault>
    requires ready { IsReadyFor plan.now reached.old branch scratch.old }
    requires numbers { Numbers reached.old.explored.cache (state_by plan.now reached.old.tree branch) next.now }
    requires moved { stuck.is_still (step_by plan.now reached.old.tree branch).outcome ≡ false }
    ensures meets { IfOk result (Meets plan.now reached.old.tree reached.new branch scratch.new) }
    ensures goes_on { OnOk result (GoesOn reached.old reached.new) }
{
    match reached.explored.find(next) {
        Some(_) => Ok(Met::Noted),
        None => note_new(plan, reached, branch, scratch, next),
    }
}

/// Makes the choice of a branch, and takes in the state that it leads to, if that is a new one.
fn meet_unknown(
    plan: &Plan,
    reached: &mut Reached,
    turn: NumberedBranch,
    scratch: &mut Scratch,
    numbers: &mut TurnNumbers,
) -> Result<Met, Fault>
    requires ready { IsReadyFor plan.now reached.old turn.branch scratch.old }
    requires choice { IsNumber plan.now turn.choice turn.branch.by }
    requires here { AreNumbersAt plan.now reached.old turn.branch.from numbers.old.here.items }
    ensures meets { IfOk result (Meets plan.now reached.old.tree reached.new turn.branch scratch.new) }
    ensures goes_on { OnOk result (GoesOn reached.old reached.new) }
    ensures here { numbers.new.here ≡ numbers.old.here }
{
    let outcome = outcome_of(plan, reached, turn, scratch, numbers)?;
    if is_still(outcome) {
        return Ok(Met::Noted);
    }
    note(plan, reached, turn.branch, scratch, &numbers.next)
}

/// Takes in the state that a branch leads to, by the numbers that are kept of it at a place, unless it was taken in.
fn take_in(
    plan: &Plan,
    reached: &mut Reached,
    branch: Branch,
    place: usize,
    ahead: &mut Ahead,
    scratch: &mut Scratch,
) -> Result<Met, Fault>
    requires ready { IsReadyFor plan.now reached.old branch scratch.old }
    requires numbered { HasNumbers plan.now reached.old ahead.old.numbers branch place }
    requires ahead { IsForeseen plan.now reached.old ahead.old }
    ensures meets { IfOk result (Meets plan.now reached.old.tree reached.new branch scratch.new) }
    ensures goes_on { OnOk result (GoesOn reached.old reached.new) }
    ensures ahead { OnOk result (IsForeseen plan.now reached.new ahead.new) }
{
    if place < ahead.taken {
        return Ok(Met::Noted);
    }
    match note(plan, reached, branch, scratch, ahead.numbers_at(place))? {
        Met::Noted => {
            ahead.take(place);
            Ok(Met::Noted)
        }
        Met::Shown => Ok(Met::Shown),
        Met::Spent => Ok(Met::Spent),
    }
}

/// Makes the choice of a branch, and takes in the state that it leads to, if that is a new one, by what is known of it ahead.
fn meet(
    plan: &Plan,
    reached: &mut Reached,
    turn: NumberedBranch,
    ahead: &mut Ahead,
    scratch: &mut Scratch,
    numbers: &mut TurnNumbers,
) -> Result<Met, Fault>
    requires ready { IsReadyFor plan.now reached.old turn.branch scratch.old }
    requires choice { IsNumber plan.now turn.choice turn.branch.by }
    requires here { AreNumbersAt plan.now reached.old turn.branch.from numbers.old.here.items }
    requires ahead { IsForeseen plan.now reached.old ahead.old }
    ensures meets { IfOk result (Meets plan.now reached.old.tree reached.new turn.branch scratch.new) }
    ensures goes_on { OnOk result (GoesOn reached.old reached.new) }
    ensures ahead { OnOk result (IsForeseen plan.now reached.new ahead.new) }
    ensures here { numbers.new.here ≡ numbers.old.here }
{
    if rests(plan, reached, turn.branch, &numbers.here) {
        return Ok(Met::Noted);
    }
    match ahead.successor(turn) {
        Successor::Unknown => meet_unknown(plan, reached, turn, scratch, numbers),
        Successor::Reached => Ok(Met::Noted),
        Successor::Numbered(place) => {
            take_in(plan, reached, turn.branch, place as usize, ahead, scratch)
        }
    }
}

/// The path at a place with one choice more.
fn with_choice(
    alloc: Global,
    tree: &ChoiceTree,
    at: u32,
    choice: Choice,
) -> Result<Vec<Choice>, AllocError>
    requires { at < length tree.now }
    ensures { IfOk result (λ v. v.items ≡ path_at tree.now at ++ choice ∷ []) }
{
    let mut path = tree.path(alloc, at as usize)?;
    path.push(choice)?;
    Ok(path)
}

/// Makes each choice from the state of the path at a place.
fn meet_each(
    plan: &Plan,
    reached: &mut Reached,
    at: u32,
    ahead: &mut Ahead,
    scratch: &mut Scratch,
    numbers: &mut TurnNumbers,
) -> Result<Expanded, Fault>
    requires ready { IsReady plan.now reached.old.tree at }
    requires informed { IsInformed plan.now reached.old }
    requires ahead { IsForeseen plan.now reached.old ahead.old }
    requires end { (c : AChoice) → IsFresh reached.old.tree at c }
    requires here { AreNumbersAt plan.now reached.old at numbers.old.here.items }
    requires scratch { AreScratch plan.now.start reached.old.tree at scratch.old }
    ensures well { IfOk result (ExpandsWell plan.now reached.old.tree reached.new.tree at) }
    ensures goes_on { OnOk result (GoesOn reached.old reached.new) }
    ensures ahead { OnOk result (IsForeseen plan.now reached.new ahead.new) }
    ensures informed { OnOk result (IsInformed plan.now reached.new) }
    ensures scratch { OnOk result (AreOf plan.now.start.scenario scratch.new) }
{
    for i in 0..plan.choices.len() {
        let choice = plan.choices[i];
        let turn = NumberedBranch {
            branch: Branch {
                from: at,
                by: choice,
            },
            choice: i,
        };
        match meet(plan, reached, turn, ahead, scratch, numbers)? {
            Met::Noted => {}
            Met::Shown => {
                let path = with_choice(plan.alloc, &reached.tree, at, choice)?;
                return Ok(Expanded::Found(path));
            }
            Met::Spent => return Ok(Expanded::Spent),
        }
    }
    Ok(Expanded::Whole)
}

/// Makes each choice from the state of the path at a place, if the history has room for one more.
pub(crate) fn expand(
    plan: &Plan,
    reached: &mut Reached,
    at: u32,
    ahead: &mut Ahead,
    scratch: &mut Scratch,
    numbers: &mut TurnNumbers,
) -> Result<Expanded, Fault>
    requires whole { IsWhole plan.now }
    requires visits { Visits plan.now.start plan.now.sought reached.old.tree }
    requires near { IsEdge reached.old.tree at }
    requires there { at < length reached.old.tree }
    requires informed { IsInformed plan.now reached.old }
    requires ahead { IsForeseen plan.now reached.old ahead.old }
    requires end { (c : AChoice) → IsFresh reached.old.tree at c }
    requires scratch { AreOf plan.now.start.scenario scratch.old }
    ensures well { IfOk result (ExpandsWell plan.now reached.old.tree reached.new.tree at) }
    ensures goes_on { OnOk result (GoesOn reached.old reached.new) }
    ensures ahead { OnOk result (IsForeseen plan.now reached.new ahead.new) }
    ensures informed { OnOk result (IsInformed plan.now reached.new) }
    ensures scratch { OnOk result (AreOf plan.now.start.scenario scratch.new) }
{
    let depth = plan.start.len() + reached.tree.length(at as usize);
    if deepest(&plan.sought) <= depth {
        return Ok(Expanded::Spent);
    }
    scratch.is_here = false;
    numbers.go_to(plan, reached, at)?;
    meet_each(plan, reached, at, ahead, scratch, numbers)
}
