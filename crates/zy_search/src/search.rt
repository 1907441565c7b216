//! The search.
ghost use Rattle.std.specs.Prelude.{◌≡◌, ◌≤◌, ◌<◌, ◌+◌, [], ◌∷◌, IfOk, true, length};
ghost use Rattle.zy_search.specs.Ahead.{IsOutlook};
ghost use Rattle.zy_search.specs.Choices as spec;
ghost use Rattle.zy_search.specs.Searches.{IsAnswer, IsReached, IsDue};
ghost use Rattle.zy_search.specs.Visits.{length_at, AreExpanded, AreOf, Begins, IsEdge, IsInformed, IsWhole, Visits};

use crate::answer::{Expanded, SearchAnswer, SearchReport};
use crate::choices::considered;
use crate::expand::expand;
use crate::kinds::ChoiceKinds;
use crate::last::with_step;
use crate::outlook::Outlook;
use crate::plan::{Limits, Plan};
use crate::reached::Reached;
use crate::scratch::Scratch;
use crate::shows::shows;
use crate::sought::{Sought, deepest};
use crate::tree::ChoiceTree;
use crate::turn_numbers::TurnNumbers;
use crate::watch::Watch;
use std::alloc::{AllocError, Global};
use std::thread::Threads;
use zy_isa::Choice;
use zy_machine::{Fault, Machine};

/// What is known where the path at a place was not expanded, and all before it were.
fn spent_at(tree: &ChoiceTree, at: u32) -> SearchAnswer
    requires { at < length tree.now }
    ensures { result ≡ SearchAnswer.Spent (length_at tree.now at + 1) }
{
    SearchAnswer::Spent(tree.length(at as usize) + 1)
}

/// The answer where all paths before a place were expanded, and that one is not.
fn settle(plan: &Plan, tree: &ChoiceTree, at: u32) -> SearchAnswer
    requires visits { Visits plan.now.start plan.now.sought tree.now }
    requires expanded { AreExpanded plan.now.start plan.now.sought tree.now at }
    requires near { at < length tree.now → IsEdge tree.now at }
    requires many { plan.now.most ≤ at }
    ensures answer { IsReached plan.now.start plan.now.sought result }
    ensures due { IsDue plan.now.start plan.now.sought plan.now.most result }
{
    if tree.len() <= at as usize {
        return SearchAnswer::Nowhere;
    }
    spent_at(tree, at)
}

/// How many states are expanded before the watch hears of it again.
const EVERY: u32 = 256;

/// Reports to the watch how far the search is, if it is time.
fn report_to<W: Watch>(watch: &mut W, tree: &ChoiceTree, at: u32)
    requires { at < length tree.now }
{
    if at % EVERY == 0 {
        watch.look(tree.len(), tree.length(at as usize));
    }
}

/// Expands each path in turn, those that are added on the way too, by an outlook that grows with them.
fn expand_each<R: Threads + Sync, W: Watch>(
    rt: &R,
    plan: &Plan,
    reached: &mut Reached,
    outlook: &mut Outlook,
    numbers: &mut TurnNumbers,
    scratch: &mut Scratch,
    watch: &mut W,
) -> Result<SearchAnswer, Fault>
    requires begins { Begins plan.now reached.old }
    requires outlook { IsOutlook plan.now reached.old outlook.old }
    requires scratch { AreOf plan.now.start.scenario scratch.old }
    ensures answer { IfOk result (IsReached plan.now.start plan.now.sought) }
    ensures due { IfOk result (IsDue plan.now.start plan.now.sought plan.now.most) }
{
    for at in 0..u32::MAX {
        if reached.tree.len() <= at as usize {
            return Ok(SearchAnswer::Nowhere);
        }
        report_to(watch, &reached.tree, at);
        outlook.go_to(rt, plan, reached, at)?;
        match expand(plan, reached, at, &mut outlook.ahead, scratch, numbers)? {
            Expanded::Whole => {}
            Expanded::Found(path) => return Ok(SearchAnswer::Found(path)),
            Expanded::Spent => return Ok(spent_at(&reached.tree, at)),
        }
    }
    Ok(settle(plan, &reached.tree, u32::MAX))
}

/// Expands each path in turn, those that are added on the way too.
fn expand_all<R: Threads + Sync, W: Watch>(
    rt: &R,
    plan: &Plan,
    reached: &mut Reached,
    scratch: &mut Scratch,
    watch: &mut W,
) -> Result<SearchAnswer, Fault>
    requires begins { Begins plan.now reached.old }
    requires scratch { AreOf plan.now.start.scenario scratch.old }
    ensures answer { IfOk result (IsReached plan.now.start plan.now.sought) }
    ensures due { IfOk result (IsDue plan.now.start plan.now.sought plan.now.most) }
{
    let mut numbers = TurnNumbers::new(plan.alloc);
    let mut outlook = Outlook::new(plan.alloc);
    let answer = expand_each(
        rt,
        plan,
        reached,
        &mut outlook,
        &mut numbers,
        scratch,
        watch,
    );
    drop(outlook);
    answer
}

/// How many states an answer adds to the visited ones: the state that was found, unless it is that of the start.
fn shown_by(answer: &SearchAnswer) -> usize {
    match answer {
        SearchAnswer::Found(path) if !path.is_empty() => 1,
        _ => 0,
    }
}

/// An answer, with how many states were reached (`shown` of them beside those of the paths), and the length of the last path.
fn report_of(tree: &ChoiceTree, shown: usize, answer: SearchAnswer) -> SearchReport
    ensures { result.answer ≡ answer }
{
    let last = tree.len() - 1;
    SearchReport {
        states: tree.len().saturating_add(shown),
        depth: tree.length(last),
        answer,
    }
}

/// Looks at the state of the start, and then at those that choices lead to.
fn look<R: Threads + Sync, W: Watch>(
    rt: &R,
    plan: &Plan,
    reached: &mut Reached,
    scratch: &mut Scratch,
    watch: &mut W,
) -> Result<SearchAnswer, Fault>
    requires whole { IsWhole plan.now }
    requires first { reached.old.tree ≡ [] ∷ [] }
    requires informed { IsInformed plan.now reached.old }
    requires scratch { AreOf plan.now.start.scenario scratch.old }
    ensures answer { IfOk result (IsReached plan.now.start plan.now.sought) }
    ensures due { IfOk result (IsDue plan.now.start plan.now.sought plan.now.most) }
{
    if deepest(&plan.sought) < plan.start.len() {
        return Ok(SearchAnswer::Spent(0));
    }
    let is_shown = shows(
        plan.alloc,
        &plan.sought,
        &plan.choices,
        &plan.start,
        &mut scratch.spare,
    )?;
    if is_shown {
        return Ok(SearchAnswer::Found(Vec::new(plan.alloc)));
    }
    expand_all(rt, plan, reached, scratch, watch)
}

/// Looks at the state of the start, and then at those that choices lead to, with scratch machines of its own.
fn search_by<R: Threads + Sync, W: Watch>(
    rt: &R,
    plan: &Plan,
    reached: &mut Reached,
    watch: &mut W,
) -> Result<SearchAnswer, Fault>
    requires whole { IsWhole plan.now }
    requires first { reached.old.tree ≡ [] ∷ [] }
    requires informed { IsInformed plan.now reached.old }
    ensures answer { IfOk result (IsReached plan.now.start plan.now.sought) }
    ensures due { IfOk result (IsDue plan.now.start plan.now.sought plan.now.most) }
{
    let mut scratch = Scratch::new(plan.alloc, &plan.start)?;
    let found = look(rt, plan, reached, &mut scratch, watch);
    scratch.discard();
    found
}

/// What a search by a plan finds, with its numbers, where the empty path alone is reached.
fn report_from<R: Threads + Sync, W: Watch>(
    rt: &R,
    plan: &Plan,
    reached: &mut Reached,
    watch: &mut W,
) -> Result<SearchReport, Fault>
    requires whole { IsWhole plan.now }
    requires first { reached.old.tree ≡ [] ∷ [] }
    requires informed { IsInformed plan.now reached.old }
    ensures answer { IfOk result (λ r. IsAnswer plan.now.start plan.now.sought r.answer) }
    ensures due { IfOk result (λ r. IsDue plan.now.start plan.now.sought plan.now.most r.answer) }
{
    let found = search_by(rt, plan, reached, watch)?;
    let shown = shown_by(&found);
    let answer = with_step(plan, found)?;
    Ok(report_of(&reached.tree, shown, answer))
}

/// What a search by a plan finds, with its numbers.
fn report<R: Threads + Sync, W: Watch>(
    rt: &R,
    plan: &Plan,
    watch: &mut W,
) -> Result<SearchReport, Fault>
    requires { IsWhole plan.now }
    ensures answer { IfOk result (λ r. IsAnswer plan.now.start plan.now.sought r.answer) }
    ensures due { IfOk result (λ r. IsDue plan.now.start plan.now.sought plan.now.most r.answer) }
{
    let mut reached = Reached::new(plan)?;
    let report = report_from(rt, plan, &mut reached, watch);
    drop(reached);
    report
}

/// The choices that a search considers from a machine.
pub(crate) fn choices_from(
    alloc: Global,
    kinds: ChoiceKinds,
    machine: &Machine,
) -> Result<Vec<Choice>, AllocError>
    ensures { IfOk result (λ v. v.items ≡ spec.considered kinds (length machine.now.scenario.programs)) }
{
    let programs = machine.scenario().programs();
    considered(alloc, kinds, programs.len() as u8)
}

/// What a search from a machine goes by.
fn plan_from(
    alloc: Global,
    machine: &Machine,
    sought: Sought,
    limits: Limits,
) -> Result<Plan, Fault>
    ensures whole { IfOk result IsWhole }
    ensures start { IfOk result (λ p. p.start ≡ machine.now) }
    ensures most { IfOk result (λ p. p.most ≡ limits.states) }
    ensures sought { IfOk result (λ p. p.sought ≡ sought) }
{
    let choices = choices_from(alloc, sought.kinds, machine)?;
    let start = machine.copy(alloc)?.share(alloc)?;
    Ok(Plan {
        alloc,
        start,
        sought,
        choices,
        most: limits.states,
        threads: limits.threads,
    })
}

/// Looks for a state that choices lead to from a machine's, and that shows what is looked for. It goes breadth first,
/// so that no fewer choices lead there, and stops where it would keep more states than its limits allow. Where an outcome
/// is asked for, what is found ends with one choice more, which has it. The watch learns how far it is.
pub fn search<R: Threads + Sync, W: Watch>(
    rt: &R,
    alloc: Global,
    start: &Machine,
    sought: Sought,
    limits: Limits,
    watch: &mut W,
) -> Result<SearchReport, Fault>
    ensures answer { IfOk result (λ r. IsAnswer start.now sought r.answer) }
    // It gives up only where it must.
    ensures due { IfOk result (λ r. IsDue start.now sought limits.states r.answer) }
{
    let plan = plan_from(alloc, start, sought, limits)?;
    let report = report(rt, &plan, watch);
    plan.start.discard();
    report
}
