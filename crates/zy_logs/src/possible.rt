//! Of which choices an outcome can come, whatever the state.
ghost use Rattle.std.specs.Prelude.{◌≡◌};
ghost use Rattle.zy_logs.specs.Possible as spec;

use zy_isa::{Actor, Choice, Node};
use zy_patterns::{OutcomePattern, ReasonPattern};

/// Whether a migration is started.
fn is_start(choice: Choice) -> bool
    ensures { result ≡ spec.is_start choice }
{
    matches!(choice, Choice::Start)
}

/// Whether a transaction is begun.
fn is_begin(choice: Choice) -> bool
    ensures { result ≡ spec.is_begin choice }
{
    matches!(choice, Choice::Begin(_))
}

/// Whether a transaction is killed.
fn is_kill(choice: Choice) -> bool
    ensures { result ≡ spec.is_kill choice }
{
    matches!(choice, Choice::Kill(_))
}

/// Whether a transaction is run.
fn is_run(choice: Choice) -> bool
    ensures { result ≡ spec.is_run choice }
{
    matches!(choice, Choice::Run(_, _))
}

/// Whether a message is taken.
fn is_take(choice: Choice) -> bool
    ensures { result ≡ spec.is_take choice }
{
    matches!(choice, Choice::Take(_))
}

/// Whether a source says that it runs no transaction any more.
fn is_finish(choice: Choice) -> bool
    ensures { result ≡ spec.is_finish choice }
{
    matches!(choice, Choice::Finish(_))
}

/// Whether a page is pushed.
fn is_push(choice: Choice) -> bool
    ensures { result ≡ spec.is_push choice }
{
    matches!(choice, Choice::Push(_))
}

/// Whether rows may stand behind a choice: it takes or pushes.
pub(crate) fn can_have_rows(choice: Choice) -> bool
    ensures { result ≡ spec.can_have_rows choice }
{
    is_take(choice) || is_push(choice)
}

/// Whether an outcome may stand in the log of an actor: in the log of a node, `began` names that node, or none.
pub(crate) fn can_stand(log: Actor, told: OutcomePattern) -> bool
    ensures { result ≡ spec.can_stand log told }
{
    match (log, told) {
        (Actor::A, OutcomePattern::Began(Some(Node::B))) => false,
        (Actor::B, OutcomePattern::Began(Some(Node::A))) => false,
        _ => true,
    }
}

/// Whether a choice can abort a transaction for this reason.
fn can_abort(choice: Choice, reason: ReasonPattern) -> bool
    ensures { result ≡ spec.can_abort choice reason }
{
    match reason {
        ReasonPattern::Killed => is_kill(choice),
        ReasonPattern::Own => is_run(choice),
        ReasonPattern::BadKey => is_run(choice),
        ReasonPattern::Missing => is_run(choice),
        ReasonPattern::Duplicate => is_run(choice),
        ReasonPattern::Frozen(_) => is_run(choice),
        ReasonPattern::NoPage => is_run(choice),
        ReasonPattern::Gone(_) => is_run(choice),
    }
}

/// Whether a choice can give the outcome of a line, whatever the state.
pub(crate) fn can_give(choice: Choice, told: OutcomePattern) -> bool
    ensures { result ≡ spec.can_give choice told }
{
    match told {
        OutcomePattern::Started => is_start(choice),
        OutcomePattern::BadMode => is_start(choice) || is_finish(choice) || is_push(choice),
        OutcomePattern::Began(_) => is_begin(choice),
        OutcomePattern::Idle => is_begin(choice) || is_kill(choice) || is_run(choice),
        OutcomePattern::Elsewhere => is_run(choice),
        OutcomePattern::NotYet => is_run(choice),
        OutcomePattern::Did => is_run(choice),
        OutcomePattern::Split { .. } => is_run(choice),
        OutcomePattern::Aborted(None) => is_kill(choice) || is_run(choice),
        OutcomePattern::Aborted(Some(reason)) => can_abort(choice, reason),
        OutcomePattern::Committed(_) => is_run(choice),
        OutcomePattern::Waits(_) => is_run(choice),
        OutcomePattern::Pulls(_) => is_run(choice),
        OutcomePattern::Awaits(_) => is_run(choice),
        OutcomePattern::NoMessage => is_take(choice),
        OutcomePattern::GotWire => is_take(choice),
        OutcomePattern::GotReady => is_take(choice),
        OutcomePattern::GotDual => is_take(choice),
        OutcomePattern::Stale(_) => is_take(choice),
        OutcomePattern::Held(_) => is_take(choice),
        OutcomePattern::GotPull(_) => is_take(choice),
        OutcomePattern::GotPage(_) => is_take(choice),
        OutcomePattern::GotFinish => is_take(choice),
        OutcomePattern::GotDone => is_take(choice),
        OutcomePattern::Stray => is_take(choice),
        OutcomePattern::Finishing => is_finish(choice),
        OutcomePattern::Active(_) => is_finish(choice),
        OutcomePattern::Pushed(_) => is_push(choice),
        OutcomePattern::NoPush => is_push(choice),
    }
}
