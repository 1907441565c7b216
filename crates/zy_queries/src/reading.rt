//! Reads goals. The grammar is in docs/search.md, and `Means` of specs/Grammar.antt says which words mean which goal. The
//! word at hand decides what comes, and a text is rejected at the first word that does not fit.
ghost use Rattle.std.specs.Prelude.{◌≡◌, true, codes, IfOk, IfErr};
ghost use Rattle.zy_queries.specs.Words.{words_of, begin_with};
ghost use Rattle.zy_queries.specs.Cursors.{left, found};
ghost use Rattle.zy_queries.specs.Phrases.{outcome_of};
ghost use Rattle.zy_queries.specs.Grammar as spec;
ghost use Rattle.zy_queries.specs.Grammar.{Means, MeansNever, AreOne, IsNoGoal, IsNoInvariant, OnRefused};
ghost use Rattle.zy_queries.specs.declared.reading.Query.{Query as AQuery};
ghost use Rattle.zy_queries.specs.Expressions.{Asks, AsksThen, AsksNever};

mod cursor;
mod expressions;
mod facts;
mod numbers;
mod outcomes;
mod terms;
mod words;

use crate::names::Names;
use crate::reading::cursor::GoalCursor;
use crate::reading::expressions::{Prefix, expression, negated};
use crate::reading::outcomes::outcome;
use crate::refusal::{ExpectedInGoal, GoalFault, WordFault};
use std::alloc::Global;
use zy_goals::goal::{Comparison, Fact, Goal, StateFact, Term};
use zy_patterns::OutcomePattern;

/// What words say, and the word after them.
type Parsed<'a, T> = Result<(T, GoalCursor<'a>), WordFault>;

/// What a text asks for.
#[derive(Drop)]
pub struct Query {
    /// What a state is to meet.
    pub goal: Goal,
    /// The outcome that a step from such a state is to have, if one is asked for.
    pub then: Option<OutcomePattern>,
}

/// What was expected after an expression, where another word is at hand: this, unless that word is a bracket.
fn expected_after(at: GoalCursor<'_>, expected: ExpectedInGoal) -> ExpectedInGoal {
    if at.is_at(b")") {
        ExpectedInGoal::OpenBracket
    } else {
        expected
    }
}

/// The outcome after `then`, if nothing follows it.
fn last_outcome<'a>(names: Names<'a>, at: GoalCursor<'a>) -> Result<OutcomePattern, WordFault>
    ensures { found result ≡ spec.whole (outcome_of names.entry (left at.entry)) }
{
    let (outcome, end) = outcome(names, at)?;
    if end.is_end() {
        Ok(outcome)
    } else {
        Err(end.refuses(ExpectedInGoal::End))
    }
}

/// What comes after an expression: the end, or `then` and an outcome.
#[tactic(auto, unfolding(crate::specs::Grammar::ending))]
fn ending<'a>(names: Names<'a>, at: GoalCursor<'a>) -> Result<Option<OutcomePattern>, WordFault>
    ensures { found result ≡ spec.ending names.entry (left at.entry) }
{
    if at.is_end() {
        Ok(None)
    } else if at.is_at(b"then") {
        let outcome = last_outcome(names, at.next())?;
        Ok(Some(outcome))
    } else {
        Err(at.refuses(expected_after(at, ExpectedInGoal::Operator)))
    }
}

/// A goal that every state meets.
fn anything() -> Goal
    ensures { spec.Says (spec.fact spec.anything) result }
{
    Goal::Is(Fact::OfState(StateFact::Compare(Term::Number(0), Comparison::Equal, Term::Number(0))))
}

/// `then` and an outcome alone.
fn then_alone<'a>(names: Names<'a>, at: GoalCursor<'a>) -> Result<Query, GoalFault>
    requires { begin_with (codes "then") (left at) ≡ true }
    ensures { AsksThen names.entry (left at.entry) result }
{
    match ending(names, at) {
        Ok(then) => Ok(Query {
            goal: anything(),
            then,
        }),
        Err(refusal) => Err(GoalFault::Refused(refusal)),
    }
}

/// What an expression and the words after it ask for.
fn asked<'a>(names: Names<'a>, part: Prefix<'a>) -> Result<Query, GoalFault>
    ensures { Asks names.entry part.entry result }
{
    match ending(names, part.at) {
        Ok(then) => Ok(Query {
            goal: part.goal,
            then,
        }),
        Err(refusal) => Err(GoalFault::Refused(refusal)),
    }
}

/// What an expression asks for, of which a state is wanted that does not meet it. Nothing may follow.
fn asked_never(alloc: Global, part: Prefix<'_>) -> Result<Query, GoalFault>
    ensures { AsksNever part.entry result }
{
    let at = part.at;
    if at.is_end() {
        match negated(alloc, part.goal) {
            Ok(goal) => Ok(Query { goal, then: None }),
            Err(_) => Err(GoalFault::Memory),
        }
    } else if at.is_at(b"then") {
        Err(GoalFault::Refused(at.refuses(ExpectedInGoal::NoThen)))
    } else {
        Err(GoalFault::Refused(at.refuses(expected_after(at, ExpectedInGoal::OperatorAlone))))
    }
}

/// Reads a goal, `then` after it or not, or `then` alone, which asks for a step from any state. It is rejected at the
/// first word that does not fit.
pub fn read_goal(alloc: Global, text: &[u8], names: Names<'_>) -> Result<Query, GoalFault>
    // What is read is what the words mean.
    ensures meant { IfOk result (λ query. Means names.entry (words_of text.now) query) }
    // They mean nothing else.
    ensures only { IfOk result (λ query. (other : AQuery) → Means names.entry (words_of text.now) other
        → AreOne query other) }
    // What is rejected means nothing.
    ensures refused { IfErr result (λ fault. OnRefused fault (IsNoGoal names.entry (words_of text.now))) }
{
    let start = GoalCursor::new(text);
    if start.is_at(b"then") {
        return then_alone(names, start);
    }
    let part = expression(alloc, names, start)?;
    asked(names, part)
}

/// Reads a goal that every state is to meet, and gives its negation: a state is asked for that does not meet it. It is
/// rejected at the first word that does not fit; `then` is such a word.
pub fn read_always(alloc: Global, text: &[u8], names: Names<'_>) -> Result<Query, GoalFault>
    // What is read is the negation of what the words mean.
    ensures meant { IfOk result (λ query. MeansNever names.entry (words_of text.now) query) }
    // They mean nothing else.
    ensures only { IfOk result (λ query. (other : AQuery) → MeansNever names.entry (words_of text.now) other
        → AreOne query other) }
    // What is rejected means nothing.
    ensures refused { IfErr result (λ fault. OnRefused fault (IsNoInvariant names.entry (words_of text.now))) }
{
    let start = GoalCursor::new(text);
    let part = expression(alloc, names, start)?;
    asked_never(alloc, part)
}
