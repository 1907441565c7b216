//! Reads expressions: facts, joined by operators, with brackets.
ghost use Rattle.std.specs.Prelude.{◌≡◌, suc, true, false, codes, IfOk};
ghost use Rattle.zy_queries.specs.Words.{begin_with};
ghost use Rattle.zy_queries.specs.Cursors.{left};
ghost use Rattle.zy_queries.specs.Grammar as spec;
ghost use Rattle.zy_queries.specs.Grammar.{Tree, Says, level_of};
ghost use Rattle.zy_queries.specs.Grammar.{negated as negated_tree, joined as joined_tree};
ghost use Rattle.zy_queries.specs.Expressions.{Answers, AnswersMore, Closes, Counts, Joins, Negates};

use crate::names::Names;
use crate::reading::cursor::GoalCursor;
use crate::reading::facts::fact;
use crate::refusal::{ExpectedInGoal, GoalFault};
use std::alloc::{AllocError, Global};
use zy_goals::goal::Goal;

/// The most facts, operators and pairs of brackets of an expression. It bounds the depth of a goal.
const MAX_PARTS: usize = 64;

/// An operator between two operands.
#[derive(Clone, Copy)]
pub enum Operator {
    Or,
    And,
}

/// A prefix of an expression, as far as it was read.
#[derive(Drop)]
pub struct Prefix<'a> {
    /// What it says.
    pub goal: Goal,
    /// The word after it.
    pub at: GoalCursor<'a>,
    /// How many facts, operators and pairs of brackets may still come.
    pub spare: usize,
}

/// Counts a fact, an operator or a pair of brackets, which begins with the word at hand. It is rejected where no more may
/// come.
fn count(at: GoalCursor<'_>, spare: usize) -> Result<usize, GoalFault>
    ensures { Counts spare result }
{
    if spare == 0 {
        return Err(GoalFault::Refused(at.refuses(ExpectedInGoal::FewerParts)));
    }
    Ok(spare - 1)
}

impl Operator {
    /// Whether its word is the one at hand.
    fn is_at(self, at: GoalCursor<'_>) -> bool
        ensures { result ≡ begin_with (spec.word_of self) (left at.entry) }
    {
        match self {
            Operator::Or => at.is_at(b"or"),
            Operator::And => at.is_at(b"and"),
        }
    }
}

/// The goal that is met where this one is not.
pub fn negated(alloc: Global, goal: Goal) -> Result<Goal, AllocError>
    ensures { IfOk result (λ g. (t : Tree) → Says t goal → Says (negated_tree t) g) }
{
    let goal = Box::new(alloc, goal)?;
    Ok(Goal::Not(goal))
}

/// What an operator makes of the goals on both sides of it.
fn both(alloc: Global, operator: Operator, left: Goal, right: Goal) -> Result<Goal, AllocError>
    ensures { IfOk result (λ g. (t u : Tree) → Says t left → Says u right → Says (joined_tree operator t u) g) }
{
    let left = Box::new(alloc, left)?;
    let right = Box::new(alloc, right)?;
    match operator {
        Operator::Or => Ok(Goal::Or(left, right)),
        Operator::And => Ok(Goal::And(left, right)),
    }
}

/// An expression, and an operand that was read behind it.
fn joined<'a>(
    alloc: Global,
    operator: Operator,
    first: Prefix<'a>,
    second: Prefix<'a>,
) -> Result<Prefix<'a>, AllocError>
    ensures { IfOk result (Joins operator first.entry second.entry) }
{
    let goal = both(alloc, operator, first.goal, second.goal)?;
    Ok(Prefix {
        goal,
        at: second.at,
        spare: second.spare,
    })
}

/// The negation of what was read.
fn negated_part<'a>(alloc: Global, part: Prefix<'a>) -> Result<Prefix<'a>, AllocError>
    ensures { IfOk result (Negates part.entry) }
{
    let goal = negated(alloc, part.goal)?;
    Ok(Prefix {
        goal,
        at: part.at,
        spare: part.spare,
    })
}

/// What was read, with the bracket that closes it.
fn closed(part: Prefix<'_>) -> Result<Prefix<'_>, GoalFault>
    ensures { Closes part.entry result }
{
    if part.at.is_at(b")") {
        Ok(Prefix {
            goal: part.goal,
            at: part.at.next(),
            spare: part.spare,
        })
    } else if part.at.is_end() || part.at.is_at(b"then") {
        Err(GoalFault::Refused(part.at.refuses(ExpectedInGoal::ClosingBracket)))
    } else {
        Err(GoalFault::Refused(part.at.refuses(ExpectedInGoal::Operator)))
    }
}

/// A fact.
fn lone<'a>(names: Names<'a>, at: GoalCursor<'a>, spare: usize) -> Result<Prefix<'a>, GoalFault>
    requires bracket { begin_with (codes "(") (left at) ≡ false }
    requires negation { begin_with (codes "not") (left at) ≡ false }
    ensures { Answers names.entry 2 (left at.entry) spare result }
{
    match fact(names, at) {
        Ok((fact, end)) => {
            let spare = count(at, spare)?;
            Ok(Prefix {
                goal: Goal::Is(fact),
                at: end,
                spare,
            })
        }
        Err(refusal) => Err(GoalFault::Refused(refusal)),
    }
}

/// `not` and what it negates.
#[cycle(expression)]
fn negation<'a>(
    alloc: Global,
    names: Names<'a>,
    at: GoalCursor<'a>,
    spare: usize,
) -> Result<Prefix<'a>, GoalFault>
    requires { begin_with (codes "not") (left at) ≡ true }
    ensures { Answers names.entry 2 (left at.entry) spare result }
{
    let spare = count(at, spare)?;
    let part = one(alloc, names, at.next(), spare)?;
    match negated_part(alloc, part) {
        Ok(part) => Ok(part),
        Err(_) => Err(GoalFault::Memory),
    }
}

/// An expression in brackets.
#[cycle(expression)]
fn bracketed<'a>(
    alloc: Global,
    names: Names<'a>,
    at: GoalCursor<'a>,
    spare: usize,
) -> Result<Prefix<'a>, GoalFault>
    requires { begin_with (codes "(") (left at) ≡ true }
    ensures { Answers names.entry 2 (left at.entry) spare result }
{
    let spare = count(at, spare)?;
    let part = chain(alloc, names, Operator::Or, at.next(), spare)?;
    closed(part)
}

/// A fact, `not` with what it negates, or an expression in brackets.
#[cycle(expression)]
fn one<'a>(
    alloc: Global,
    names: Names<'a>,
    at: GoalCursor<'a>,
    spare: usize,
) -> Result<Prefix<'a>, GoalFault>
    ensures { Answers names.entry 2 (left at.entry) spare result }
{
    if at.is_at(b"(") {
        bracketed(alloc, names, at, spare)
    } else if at.is_at(b"not") {
        negation(alloc, names, at, spare)
    } else {
        lone(names, at, spare)
    }
}

/// An operand of an operator: of `or` it is operands that are joined by `and`.
#[cycle(expression)]
fn operand<'a>(
    alloc: Global,
    names: Names<'a>,
    operator: Operator,
    at: GoalCursor<'a>,
    spare: usize,
) -> Result<Prefix<'a>, GoalFault>
    ensures { Answers names.entry (suc (level_of operator)) (left at.entry) spare result }
{
    match operator {
        Operator::Or => chain(alloc, names, Operator::And, at, spare),
        Operator::And => one(alloc, names, at, spare),
    }
}

/// Operands that are joined by an operator, from left to right: one or more of them.
#[cycle(expression)]
fn chain<'a>(
    alloc: Global,
    names: Names<'a>,
    operator: Operator,
    at: GoalCursor<'a>,
    spare: usize,
) -> Result<Prefix<'a>, GoalFault>
    ensures { Answers names.entry (level_of operator) (left at.entry) spare result }
{
    let first = operand(alloc, names, operator, at, spare)?;
    more(alloc, names, operator, first)
}

/// What was read, joined with the operands that go on with it.
#[cycle(expression)]
fn more<'a>(
    alloc: Global,
    names: Names<'a>,
    operator: Operator,
    first: Prefix<'a>,
) -> Result<Prefix<'a>, GoalFault>
    ensures { AnswersMore names.entry operator first.entry result }
{
    if operator.is_at(first.at) {
        let spare = count(first.at, first.spare)?;
        let second = operand(alloc, names, operator, first.at.next(), spare)?;
        match joined(alloc, operator, first, second) {
            Ok(part) => more(alloc, names, operator, part),
            Err(_) => Err(GoalFault::Memory),
        }
    } else {
        Ok(first)
    }
}

/// The expression that begins with the word at hand, of at most 64 parts.
pub fn expression<'a>(
    alloc: Global,
    names: Names<'a>,
    at: GoalCursor<'a>,
) -> Result<Prefix<'a>, GoalFault>
    ensures { Answers names.entry 0 (left at.entry) spec.max_parts result }
{
    chain(alloc, names, Operator::Or, at, MAX_PARTS)
}
