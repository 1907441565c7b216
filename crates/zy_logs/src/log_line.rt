//! A line of a log.
ghost use Rattle.std.specs.Prelude.{◌≡◌, ◌⊎◌, IfSome, Some, true};
ghost use Rattle.std.specs.Bool.{Decides};
ghost use Rattle.zy_isa.specs.Choices.{actor_at, actor_of};
ghost use Rattle.zy_logs.specs.Agrees.{Agrees};
ghost use Rattle.zy_logs.specs.Logs.{steps_of};
ghost use Rattle.zy_patterns.specs.Patterns.{matches as matches_outcome};

use zy_isa::{Actor, Choice, Node};
use zy_model::Kind;
use zy_page::PageRows;
use zy_patterns::OutcomePattern;
use zy_patterns::patterns::matches;
use zy_table::{Observation, Outcome};

/// A line of a log: a choice, and what was logged of its step. A part that was not logged may be any: no line says that its step sent
/// no message.
#[derive(Clone, Copy)]
pub struct LogLine {
    /// Whose log it stands in: the actor of the choice, or the node where a choice of the client took place.
    pub log: Actor,
    /// The choice.
    pub choice: Choice,
    /// What was logged of the outcome of its step, if anything was.
    pub told: Option<OutcomePattern>,
    /// The value that its step shows, if it was logged.
    pub value: Option<u32>,
    /// The kind of message that its step sent, if it was logged.
    pub sent: Option<Kind>,
    /// The rows of the page that its step moved, if they were logged.
    pub rows: Option<PageRows>,
}

/// What a line of a log says: what was logged of a step, or that steps of an actor may be missing there.
#[derive(Clone, Copy)]
pub enum Logged {
    /// A step.
    Step(LogLine),
    /// A gap in the log of this actor, which stands for any of its steps, or none.
    Gap(Actor),
}

/// Whether an outcome is what was logged, if anything was.
fn is_outcome(told: Option<OutcomePattern>, came: Outcome) -> bool
    ensures { Decides result (IfSome told (λ t. matches_outcome t came ≡ true)) }
{
    match told {
        Some(told) => matches(told, came),
        None => true,
    }
}

/// Whether a step shows the logged value, if one was logged.
fn is_value(logged: Option<u32>, came: Option<u32>) -> bool
    ensures { Decides result (IfSome logged (λ v. came ≡ Some v)) }
{
    match logged {
        Some(value) => came == Some(value),
        None => true,
    }
}

/// Whether a message of the logged kind was sent, if one was logged.
fn is_sent(logged: Option<Kind>, came: Option<Kind>) -> bool
    ensures { Decides result (IfSome logged (λ kind. came ≡ Some kind)) }
{
    match logged {
        Some(kind) => came == Some(kind),
        None => true,
    }
}

/// Whether a step shows the logged rows, if rows were logged.
fn are_rows(logged: Option<PageRows>, came: Option<PageRows>) -> bool
    ensures { Decides result (IfSome logged (λ rows. came ≡ Some rows)) }
{
    match logged {
        Some(rows) => came == Some(rows),
        None => true,
    }
}

/// Whether a log is that of the node where a step took place, if it took place at one.
fn is_log_of(log: Actor, node: Option<Node>) -> bool
    ensures { Decides result (IfSome node (λ n. log ≡ actor_at n)) }
{
    match node {
        Some(node) => log == Actor::of(node),
        None => true,
    }
}

/// Whether a line stands in the log of its choice's actor, or in that of the node where the step took place, if it took place at
/// one.
fn stands_in(log: Actor, choice: Choice, node: Option<Node>) -> bool
    ensures { Decides result ((log ≡ actor_of choice) ⊎ IfSome node (λ n. log ≡ actor_at n)) }
{
    log == choice.actor() || is_log_of(log, node)
}

impl Logged {
    /// How many steps it counts for, where a gap counts for `gap`.
    pub fn steps(self, gap: usize) -> usize
        ensures { result ≡ steps_of gap self }
    {
        match self {
            Logged::Step(_) => 1,
            Logged::Gap(_) => gap,
        }
    }
}

impl LogLine {
    /// Whether the line agrees with what a step shows: each of outcome, value, message and rows that it tells is the step's, and
    /// it stands in the log of its choice's actor, or in that of the node where the step took place, if it took place at one.
    pub fn agrees(&self, observation: &Observation) -> bool
        ensures { Decides result (Agrees self.now observation.now) }
    {
        is_outcome(self.told, observation.entry.outcome)
            && is_value(self.value, observation.value)
            && is_sent(self.sent, observation.entry.sent)
            && are_rows(self.rows, observation.rows)
            && stands_in(self.log, self.choice, observation.node)
    }
}
