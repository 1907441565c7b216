//! Whose line is tried first. No answer depends on it, but how soon it comes does.
ghost use Rattle.zy_order.specs.Reaches.{HasEachActor};

use crate::cursors::Cursors;
use crate::logs::Logs;
use zy_isa::{Actor, Choice};
use zy_logs::LogLine;
use zy_patterns::OutcomePattern;

/// The three actors, in the order in which their lines are tried.
#[derive(Clone, Copy)]
pub(crate) struct Turns {
    /// The actor whose line is tried first.
    pub first: Actor,
    /// The actor whose line is tried next.
    pub second: Actor,
    /// The actor whose line is tried last. Where it fits, its path is the next one to follow.
    pub third: Actor,
}

/// How easily a line is tried too early, with lines of other actors before it that were not yet tried: 1 is the least.
fn rank(line: &LogLine) -> u8 {
    match line.choice {
        Choice::Begin(_) => 1,
        Choice::Run(_, _) => match line.told {
            Some(OutcomePattern::Pulls(_)) => 3,
            None => 3,
            _ => 2,
        },
        Choice::Take(_) => 4,
        Choice::Finish(_) => 4,
        Choice::Push(_) => 4,
        Choice::Start => 5,
        Choice::Kill(_) => 5,
    }
}

/// The rank of an actor's next line; higher than that of any line where none is left.
fn next_rank(logs: &Logs, cursors: Cursors, actor: Actor) -> u8 {
    match logs.next(cursors, actor) {
        Some(line) => rank(&line),
        None => u8::MAX,
    }
}

/// The actor whose next line has the lowest rank.
fn least(logs: &Logs, cursors: Cursors) -> Actor {
    let c = next_rank(logs, cursors, Actor::C);
    let a = next_rank(logs, cursors, Actor::A);
    let b = next_rank(logs, cursors, Actor::B);
    if a <= b && a <= c {
        Actor::A
    } else if b <= c {
        Actor::B
    } else {
        Actor::C
    }
}

/// The turns of the actors. The one whose next line has the lowest rank comes last, so that its path is followed first.
pub(crate) fn turns_by(logs: &Logs, cursors: Cursors) -> Turns
    ensures { HasEachActor result }
{
    let (c, a, b) = (Actor::C, Actor::A, Actor::B);
    match least(logs, cursors) {
        Actor::C => Turns {
            first: a,
            second: b,
            third: c,
        },
        Actor::A => Turns {
            first: b,
            second: c,
            third: a,
        },
        Actor::B => Turns {
            first: c,
            second: a,
            third: b,
        },
    }
}
