//! Lines that are followed alone: where such a line of a node fits, it may come before all steps of the client and of
//! the other node.
ghost use Rattle.std.specs.Prelude.{◌≡◌, IfOk, IfSome, OnOk, true};
ghost use Rattle.zy_order.specs.Reaches as spec;
ghost use Rattle.zy_order.specs.Machines.{IsPlaced};
ghost use Rattle.zy_order.specs.Reaches.{FollowsAlone, StandsAt, Adds, MayBeAlone, TellsDid, TellsNothing};

use crate::cursors::Cursors;
use crate::line::Met;
use crate::logs::Logs;
use crate::placed_machine::PlacedMachine;
use crate::plan::Plan;
use crate::search::Search;
use crate::tellers::{StepLines, Tellers};
use zy_isa::{Actor, Choice, Node};
use zy_logs::LogLine;
use zy_machine::Fault;
use zy_patterns::OutcomePattern;

/// Whether a line tells of a `run` that did.
fn tells_did(line: &LogLine) -> bool
    ensures { result ≡ true → TellsDid line.now }
{
    matches!(line.choice, Choice::Run(_, _)) && matches!(line.told, Some(OutcomePattern::Did))
}

/// Whether an outcome changes nothing.
fn is_nothing(told: OutcomePattern) -> bool
    ensures { result ≡ spec.is_nothing told }
{
    match told {
        OutcomePattern::BadMode
        | OutcomePattern::Idle
        | OutcomePattern::Elsewhere
        | OutcomePattern::NotYet => true,
        OutcomePattern::Waits(_) | OutcomePattern::Awaits(_) => true,
        OutcomePattern::NoMessage | OutcomePattern::Held(_) | OutcomePattern::Stray => true,
        OutcomePattern::Active(_) | OutcomePattern::NoPush => true,
        _ => false,
    }
}

/// Whether a line tells that nothing came of its choice.
fn tells_nothing(line: &LogLine) -> bool
    ensures { result ≡ true → TellsNothing line.now }
{
    match line.told {
        Some(told) => is_nothing(told),
        None => false,
    }
}

/// The next line of a node, if it may be followed alone.
fn next_alone(logs: &Logs, cursors: Cursors, node: Node) -> Option<LogLine>
    ensures { IfSome result (MayBeAlone node logs.now cursors) }
{
    let actor = Actor::of(node);
    if logs.has_gap(cursors, actor) {
        return None;
    }
    let line = logs.next(cursors, actor)?;
    if line.choice.actor() != actor {
        return None;
    }
    if !tells_did(&line) && !tells_nothing(&line) {
        return None;
    }
    Some(line)
}

impl Search {
    /// Follows a node's next line from the path at a place, if the line may be followed alone and fits. Otherwise the machine stays
    /// there.
    fn follow_of(
        &mut self,
        plan: &Plan,
        at: u32,
        machine: &mut PlacedMachine,
        node: Node,
    ) -> Result<Met, Fault>
        requires at { StandsAt plan.now self.old at machine.old.machine }
        requires placed { IsPlaced plan.now.start self.old.reached.visited machine.old }
        ensures adds { OnOk result (Adds plan.now self.old self.new) }
        ensures alone { let p = plan.now in IfOk result (λ met. met ≡ Met.Known → FollowsAlone p.start p.logs self.new.reached at) }
        ensures placed { OnOk result (IsPlaced plan.now.start self.new.reached.visited machine.new) }
        ensures back { IfOk result (λ met. met ≡ Met.Unfit → StandsAt plan.now self.new at machine.new.machine) }
    {
        let Some(line) = next_alone(&plan.logs, self.reached.cursors_at(at), node) else {
            return Ok(Met::Unfit);
        };
        let by = Tellers::One(Actor::of(node));
        let other = None;
        self.meet_in_place(plan, at, machine, &StepLines { by, line, other })
    }

    /// Follows the next line of A from the path at a place, if it may be followed alone and fits, or else that of B. Otherwise the
    /// machine stays there.
    pub(crate) fn follow_alone(
        &mut self,
        plan: &Plan,
        at: u32,
        machine: &mut PlacedMachine,
    ) -> Result<Met, Fault>
        requires at { StandsAt plan.now self.old at machine.old.machine }
        requires placed { IsPlaced plan.now.start self.old.reached.visited machine.old }
        ensures adds { OnOk result (Adds plan.now self.old self.new) }
        ensures alone { let p = plan.now in IfOk result (λ met. met ≡ Met.Known → FollowsAlone p.start p.logs self.new.reached at) }
        ensures placed { OnOk result (IsPlaced plan.now.start self.new.reached.visited machine.new) }
        ensures back { IfOk result (λ met. met ≡ Met.Unfit → StandsAt plan.now self.new at machine.new.machine) }
    {
        match self.follow_of(plan, at, machine, Node::A)? {
            Met::Known => Ok(Met::Known),
            Met::Spent => Ok(Met::Spent),
            Met::Unfit => self.follow_of(plan, at, machine, Node::B),
        }
    }
}
