//! The logs of the three actors.
ghost use Rattle.std.specs.Prelude.{◌≡◌, ◌≤◌, Any, IfOk, MatchOption, Some, true, length, slice_get};
ghost use Rattle.std.specs.Bool.{Decides};
ghost use Rattle.zy_order.specs.Orders as orders;
ghost use Rattle.zy_order.specs.Gaps.{gaps_of};
ghost use Rattle.zy_order.specs.Ways as spec;
ghost use Rattle.zy_logs.specs.declared.log_line.LogLine.{LogLine as ALine};
ghost use Rattle.zy_order.specs.Twins.{AreTwins, HasTwin};
ghost use Rattle.zy_order.specs.Orders.{MayBeOne};
ghost use Rattle.zy_order.specs.Ways.{log_of, cursor, AreLogs, AreMatched, ComesAlone, ComeTogether, ComeNext};
ghost use Rattle.zy_order.specs.declared.tellers.StepLines.{StepLines as SomeLines};
ghost use Rattle.zy_isa.specs.declared.node.Actor.{Actor as AnActor};

use crate::cursors::Cursors;
use crate::gaps::Gaps;
use crate::tellers::{StepLines, Tellers};
use crate::twins::{are_twins, tells_once};
use std::alloc::{AllocError, Global};
use zy_isa::{Actor, Node, Version};
use zy_logs::LogLine;

/// The log of each actor: its lines, in order.
#[derive(Drop)]
pub(crate) struct Logs {
    /// The client's.
    pub c: Vec<LogLine>,
    /// That of A.
    pub a: Vec<LogLine>,
    /// That of B.
    pub b: Vec<LogLine>,
    /// Where steps may be missing from them.
    pub gaps: Gaps,
}

/// Whether a line stands in the log of an actor.
fn stands_in(line: &LogLine, actor: Actor) -> bool
    ensures { result ≡ orders.stands_in actor line.now }
{
    line.log == actor
}

/// Whether one of these lines is the twin of a line.
fn has_twin_in(version: Version, lines: &[LogLine], line: &LogLine) -> bool
    ensures { Decides result (Any (λ other. AreTwins version line.now other) lines.now) }
{
    lines.iter().any(|other| are_twins(version, line, other))
}

/// The lines that stand in the log of an actor, in order.
fn lines_of(alloc: Global, lines: &[LogLine], actor: Actor) -> Result<Vec<LogLine>, AllocError>
    ensures { IfOk result (λ v. v.items ≡ orders.lines_of actor lines.now) }
{
    let mut found = Vec::new(alloc);
    for line in lines {
        if stands_in(line, actor) {
            found.push(*line)?;
        }
    }
    Ok(found)
}

impl Logs {
    /// Splits lines into the logs that they stand in.
    pub(crate) fn split(alloc: Global, lines: &[LogLine], gaps: Gaps) -> Result<Logs, AllocError>
        ensures { IfOk result (AreLogs lines.now gaps) }
    {
        let c = lines_of(alloc, lines, Actor::C)?;
        let a = lines_of(alloc, lines, Actor::A)?;
        let b = lines_of(alloc, lines, Actor::B)?;
        Ok(Logs { c, a, b, gaps })
    }

    /// The lines of an actor.
    fn of(&self, actor: Actor) -> &[LogLine]
        ensures { result.now ≡ log_of actor self.entry.now }
    {
        match actor {
            Actor::C => self.c.as_slice(),
            Actor::A => self.a.as_slice(),
            Actor::B => self.b.as_slice(),
        }
    }

    /// The next line of an actor, if one is left.
    pub(crate) fn next(&self, cursors: Cursors, actor: Actor) -> Option<LogLine>
        ensures { MatchOption result (length (log_of actor self.now) ≤ cursor actor cursors)
            (λ line. slice_get (log_of actor self.now) (cursor actor cursors) ≡ Some line) }
    {
        let at = usize::from(cursors.of(actor).lines);
        self.of(actor).get(at).copied()
    }

    /// Whether another log has a line that tells the step of this one.
    fn has_twin(&self, version: Version, line: &LogLine) -> bool
        ensures { Decides result (HasTwin version (λ x. log_of x self.now) line.now) }
    {
        tells_once(version, line)
            && (has_twin_in(version, &self.c, line)
                || has_twin_in(version, &self.a, line)
                || has_twin_in(version, &self.b, line))
    }

    /// Whether a line of the client's log and one of a node's may tell one step.
    fn may_be_one(&self, version: Version, line: &LogLine, other: &LogLine) -> bool
        ensures { Decides result (MayBeOne version (λ x. log_of x self.now) line.now other.now) }
    {
        line.choice == other.choice
            && (are_twins(version, line, other) || !self.has_twin(version, other))
    }

    /// The next line of an actor, if it comes alone.
    fn next_alone(&self, version: Version, cursors: Cursors, actor: Actor) -> Option<LogLine>
        ensures { MatchOption result ((line : ALine) → ComesAlone version actor self.now cursors line → ⊥)
            (ComesAlone version actor self.now cursors) }
    {
        let line = self.next(cursors, actor)?;
        if self.has_twin(version, &line) {
            None
        } else {
            Some(line)
        }
    }

    /// The next lines of the client and of a node, if they may tell one step.
    fn next_together(
        &self,
        version: Version,
        cursors: Cursors,
        node: Node,
    ) -> Option<(LogLine, LogLine)>
        ensures { MatchOption result ((line other : ALine) → ComeTogether version node self.now cursors line other → ⊥)
            (λ lines. ComeTogether version node self.now cursors lines.0 lines.1) }
    {
        let line = self.next(cursors, Actor::C)?;
        let other = self.next(cursors, Actor::of(node))?;
        if self.may_be_one(version, &line, &other) {
            Some((line, other))
        } else {
            None
        }
    }

    /// The lines of these logs that come next and tell one step, if they do.
    pub(crate) fn next_by(
        &self,
        version: Version,
        cursors: Cursors,
        by: Tellers,
    ) -> Option<StepLines>
        ensures { MatchOption result ((lines : SomeLines) → lines.by ≡ by → ComeNext version self.now cursors lines → ⊥)
            (λ lines. (lines.by ≡ by) × ComeNext version self.now cursors lines) }
    {
        match by {
            Tellers::One(actor) => {
                let line = self.next_alone(version, cursors, actor)?;
                let other = None;
                Some(StepLines { by, line, other })
            }
            Tellers::Both(node) => {
                let (line, other) = self.next_together(version, cursors, node)?;
                let other = Some(other);
                Some(StepLines { by, line, other })
            }
        }
    }

    /// How many steps may be missing where an actor is in its log.
    fn gap_at(&self, cursors: Cursors, actor: Actor) -> u16
        ensures { result ≡ spec.gap_at (gaps_of actor self.now.gaps) (spec.cursor_of actor cursors) }
    {
        let at = usize::from(cursors.of(actor).lines);
        let gap = match actor {
            Actor::C => self.gaps.c.get(at),
            Actor::A => self.gaps.a.get(at),
            Actor::B => self.gaps.b.get(at),
        };
        gap.copied().unwrap_or(0)
    }

    /// Whether an actor may have made one step more that its log lacks.
    pub(crate) fn has_gap(&self, cursors: Cursors, actor: Actor) -> bool
        ensures { Decides result (spec.HasGap actor self.now cursors) }
    {
        cursors.of(actor).missing < self.gap_at(cursors, actor)
    }

    /// Whether no actor may have made one step more that its log lacks. The contract speaks of yes alone.
    pub(crate) fn has_no_gap(&self, cursors: Cursors) -> bool
        ensures { result ≡ true → (x : AnActor) → spec.HasGap x self.now cursors → ⊥ }
    {
        !self.has_gap(cursors, Actor::C)
            && !self.has_gap(cursors, Actor::A)
            && !self.has_gap(cursors, Actor::B)
    }

    /// Whether all lines are matched.
    pub(crate) fn are_matched(&self, cursors: Cursors) -> bool
        ensures { Decides result (AreMatched self.now cursors) }
    {
        usize::from(cursors.c.lines) == self.c.len()
            && usize::from(cursors.a.lines) == self.a.len()
            && usize::from(cursors.b.lines) == self.b.len()
    }
}
