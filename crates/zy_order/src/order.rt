//! The search for an order.
ghost use Rattle.std.specs.Prelude.{◌≡◌, ◌<◌, ◌^◌, ℕ, IfOk, MatchOption, length};
ghost use Rattle.zy_machine.specs.Histories.{IsReplay};
ghost use Rattle.zy_search.specs.Choices.{considered};
ghost use Rattle.zy_order.specs.Reaches as spec;
ghost use Rattle.zy_order.specs.Answers.{IsInput, IsAnswer};
ghost use Rattle.zy_order.specs.Ways.{AreLogs, AreMatched};
ghost use Rattle.zy_order.specs.Reaches.{cursors_at, Follows, IsCompleteAt, IsFurthestPath, IsPlan, IsUnderWay, Settles, AnswersFor};

use crate::answer::{OrderAnswer, OrderReport, Taken};
use crate::cursors::Cursors;
use crate::end::End;
use crate::follow::Followed;
use crate::gaps::Gaps;
use crate::logs::Logs;
use crate::plan::Plan;
use crate::reached::Reached;
use crate::search::Search;
use std::alloc::{AllocError, Global};
use zy_isa::Choice;
use zy_logs::LogLine;
use zy_machine::{Fault, Machine};
use zy_search::choices::considered;
use zy_search::kinds::ChoiceKinds;
use zy_search::watch::Watch;

/// The place of a path that leads as far as any.
fn furthest(reached: &Reached) -> u32
    requires some { 0 < length reached.now.cursors.items }
    requires few { length reached.now.cursors.items < 2 ^ 32 }
    ensures there { result < length reached.now.cursors.items }
    ensures best { IsFurthestPath reached.now result }
{
    let mut best = 0;
    for i in 0..reached.cursors.len() as u32 {
        if reached.cursors_at(i).is_further(reached.cursors_at(best)) {
            best = i;
        }
    }
    best
}

/// The report of an answer that has the path at a place.
fn report_of(reached: &Reached, at: u32, answer: OrderAnswer) -> OrderReport
    requires { at < length reached.now.cursors.items }
    ensures { result.answer ≡ answer }
{
    let Cursors { c, a, b } = reached.cursors_at(at);
    OrderReport {
        answer,
        states: reached.visited.len(),
        taken: Taken {
            c: usize::from(c.lines),
            a: usize::from(a.lines),
            b: usize::from(b.lines),
        },
    }
}

/// The place of the first path that matches all lines, if one does.
fn first_matched(plan: &Plan, reached: &Reached) -> Option<u32>
    requires few { length reached.now.cursors.items < 2 ^ 32 }
    ensures { MatchOption result
        ((i : ℕ) → i < length reached.now.cursors.items → AreMatched plan.now.logs (cursors_at reached.now i) → ⊥)
        (λ at. (at < length reached.now.cursors.items) × AreMatched plan.now.logs (cursors_at reached.now at)) }
{
    for i in 0..reached.cursors.len() as u32 {
        if plan.logs.are_matched(reached.cursors_at(i)) {
            return Some(i);
        }
    }
    None
}

/// The report where the path at a place is an order with the end that is asked for.
fn found(plan: &Plan, reached: &Reached, at: u32) -> Result<OrderReport, Fault>
    requires under_way { IsUnderWay plan.now reached.now }
    requires there { at < length reached.now.visited }
    requires complete { IsCompleteAt plan.now reached.now at }
    ensures { IfOk result (λ r. AnswersFor plan.now r.answer) }
{
    let path = reached.path(plan.alloc, at)?;
    Ok(report_of(reached, at, OrderAnswer::Found(path)))
}

/// The report where each path was followed, and none matches all lines.
fn nowhere(plan: &Plan, reached: &Reached) -> Result<OrderReport, Fault>
    requires under_way { IsUnderWay plan.now reached.now }
    requires followed { Settles plan.now reached.now Followed.Nowhere }
    requires none { (i : ℕ) → i < length reached.now.cursors.items → AreMatched plan.now.logs (cursors_at reached.now i) → ⊥ }
    ensures { IfOk result (λ r. AnswersFor plan.now r.answer) }
{
    let at = furthest(reached);
    let path = reached.path(plan.alloc, at)?;
    Ok(report_of(reached, at, OrderAnswer::Nowhere(path)))
}

/// The report where each path was followed, none has the end that is asked for, and the one at a place matches all lines.
fn other_end(plan: &Plan, reached: &Reached, at: u32) -> Result<OrderReport, Fault>
    requires under_way { IsUnderWay plan.now reached.now }
    requires followed { Settles plan.now reached.now Followed.Nowhere }
    requires there { at < length reached.now.cursors.items }
    requires matched { AreMatched plan.now.logs (cursors_at reached.now at) }
    ensures { IfOk result (λ r. AnswersFor plan.now r.answer) }
{
    let path = reached.path(plan.alloc, at)?;
    Ok(report_of(reached, at, OrderAnswer::OtherEnd(path)))
}

/// The report where each path was followed, and none is an order with the end that is asked for.
fn not_found(plan: &Plan, reached: &Reached) -> Result<OrderReport, Fault>
    requires under_way { IsUnderWay plan.now reached.now }
    requires followed { Settles plan.now reached.now Followed.Nowhere }
    ensures { IfOk result (λ r. AnswersFor plan.now r.answer) }
{
    match first_matched(plan, reached) {
        Some(at) => other_end(plan, reached, at),
        None => nowhere(plan, reached),
    }
}

/// The report where there is one state too many.
fn spent(plan: &Plan, reached: &Reached) -> Result<OrderReport, Fault>
    requires { IsUnderWay plan.now reached.now }
    ensures { IfOk result (λ r. AnswersFor plan.now r.answer) }
{
    let at = furthest(reached);
    let path = reached.path(plan.alloc, at)?;
    Ok(report_of(reached, at, OrderAnswer::Spent(path)))
}

/// The report on what came of following the paths.
fn report_on(plan: &Plan, reached: &Reached, followed: Followed) -> Result<OrderReport, Fault>
    requires under_way { IsUnderWay plan.now reached.now }
    requires settles { Settles plan.now reached.now followed }
    ensures { IfOk result (λ r. AnswersFor plan.now r.answer) }
{
    match followed {
        Followed::Whole(at) => found(plan, reached, at),
        Followed::Nowhere => not_found(plan, reached),
        Followed::Spent => spent(plan, reached),
    }
}

/// The report of a search by a plan, which goes on from the paths that it has.
fn report_from<W: Watch>(
    plan: &Plan,
    search: &mut Search,
    watch: &mut W,
) -> Result<OrderReport, Fault>
    requires { Follows plan.now search.old }
    ensures { IfOk result (λ r. AnswersFor plan.now r.answer) }
{
    let followed = search.follow_all(plan, watch)?;
    report_on(plan, &search.reached, followed)
}

/// The report of a search by a plan.
fn report<W: Watch>(plan: &Plan, watch: &mut W) -> Result<OrderReport, Fault>
    requires { IsPlan plan.now }
    ensures { IfOk result (λ r. AnswersFor plan.now r.answer) }
{
    let mut search = Search::new(plan)?;
    let report = report_from(plan, &mut search, watch);
    drop(search);
    report
}

/// All kinds of choices: a step of any kind may be missing.
fn all_kinds() -> ChoiceKinds
    ensures { result ≡ spec.all_kinds }
{
    ChoiceKinds {
        start: true,
        begin: true,
        kill: true,
        run: true,
        take: true,
        finish: true,
        push: true,
    }
}

/// All choices of a machine's scenario.
fn all_choices(alloc: Global, start: &Machine) -> Result<Vec<Choice>, AllocError>
    ensures choices { IfOk result (λ v. v.items ≡ considered spec.all_kinds (length start.now.scenario.programs)) }
    ensures replay { IsReplay start.now }
{
    let programs = start.scenario().programs();
    considered(alloc, all_kinds(), programs.len() as u8)
}

/// All choices of a machine's scenario, and a copy of the machine whose history is shared by its copies.
fn start_from(alloc: Global, start: &Machine) -> Result<(Vec<Choice>, Machine), Fault>
    ensures choices { IfOk result (λ r. r.0.items
        ≡ considered spec.all_kinds (length start.now.scenario.programs)) }
    ensures start { IfOk result (λ r. r.1 ≡ start.now) }
    ensures replay { IsReplay start.now }
{
    let choices = all_choices(alloc, start)?;
    let start = start.copy(alloc)?.share(alloc)?;
    Ok((choices, start))
}

/// What a search goes by.
fn plan_from(
    alloc: Global,
    start: &Machine,
    lines: &[LogLine],
    gaps: Gaps,
    end: End,
    most: u32,
) -> Result<Plan, Fault>
    requires { IsInput start.now lines.now gaps }
    ensures plan { IfOk result IsPlan }
    ensures start { IfOk result (λ p. p.start ≡ start.now) }
    ensures logs { IfOk result (λ p. AreLogs lines.now gaps p.logs) }
    ensures end { IfOk result (λ p. p.end ≡ end) }
{
    let logs = Logs::split(alloc, lines, gaps)?;
    match start_from(alloc, start) {
        Ok((choices, start)) => Ok(Plan {
            alloc,
            start,
            logs,
            end,
            choices,
            most,
        }),
        Err(fault) => {
            drop(logs);
            Err(fault)
        }
    }
}

/// Looks for an order of the lines of three logs, one for each actor, and of steps that are missing from the logs, in
/// which each line agrees with what comes of its choice, where the choices are made from a machine's state. The logs
/// are mixed in any way: only the order of each actor's own lines counts. The gaps say how many steps may be missing,
/// and where; the end says what is asked of the last state. The search goes depth first, and gives up where it would
/// reach more states than `most`. The watch learns how far it is.
pub fn order<W: Watch>(
    alloc: Global,
    start: &Machine,
    lines: &[LogLine],
    gaps: Gaps,
    end: End,
    most: u32,
    watch: &mut W,
) -> Result<OrderReport, Fault>
    requires { IsInput start.now lines.now gaps }
    ensures { IfOk result (λ r. IsAnswer start.now lines.now gaps end r.answer) }
{
    let plan = plan_from(alloc, start, lines, gaps, end, most)?;
    let report = report(&plan, watch);
    plan.start.discard();
    report
}
