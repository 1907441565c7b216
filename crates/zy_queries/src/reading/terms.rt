//! Reads terms and comparisons.
ghost use Rattle.std.specs.Prelude.{◌≡◌};
ghost use Rattle.zy_queries.specs.Cursors.{left, read};
ghost use Rattle.zy_queries.specs.Phrases as spec;

use crate::names::Names;
use crate::reading::Parsed;
use crate::reading::cursor::GoalCursor;
use crate::reading::numbers::{key, number, txn};
use crate::reading::words::{register, sign};
use crate::refusal::ExpectedInGoal;
use zy_goals::goal::{StateFact, Term};
use zy_text::names::is_numeral;

/// What comes after `sum`: a key, `to`, a key.
#[tactic(auto, unfolding(crate::specs::Phrases::sum))]
fn sum<'a>(at: GoalCursor<'a>) -> Parsed<'a, Term>
    ensures { read result ≡ spec.sum (left at.entry) }
{
    let (first, at) = key(at)?;
    if !at.is_at(b"to") {
        return Err(at.refuses(ExpectedInGoal::To));
    }
    let (last, at) = key(at.next())?;
    Ok((Term::Sum { first, last }, at))
}

/// What comes after `reg`: a transaction and a register of it.
#[tactic(auto, unfolding(crate::specs::Phrases::register))]
fn register_of<'a>(names: Names<'a>, at: GoalCursor<'a>) -> Parsed<'a, Term>
    ensures { read result ≡ spec.register names.entry (left at.entry) }
{
    let (txn, at) = txn(names, at)?;
    let (register, at) = at.gives(register(at.word()), ExpectedInGoal::Register)?;
    Ok((Term::Register { txn, register }, at))
}

/// A key, as a term.
fn value_at<'a>(at: GoalCursor<'a>) -> Parsed<'a, Term>
    ensures { read result ≡ spec.value_at (left at.entry) }
{
    let (key, at) = key(at)?;
    Ok((Term::Key(key), at))
}

/// What comes after `pc`.
fn pc_of<'a>(names: Names<'a>, at: GoalCursor<'a>) -> Parsed<'a, Term>
    ensures { read result ≡ spec.pc_of names.entry (left at.entry) }
{
    let (txn, at) = txn(names, at)?;
    Ok((Term::Pc(txn), at))
}

/// What comes after `done`.
fn done_of<'a>(names: Names<'a>, at: GoalCursor<'a>) -> Parsed<'a, Term>
    ensures { read result ≡ spec.done_of names.entry (left at.entry) }
{
    let (txn, at) = txn(names, at)?;
    Ok((Term::Done(txn), at))
}

/// A term that begins with a word. Where the word at hand begins none, it is rejected with what was expected there.
#[tactic(auto, unfolding(crate::specs::Phrases::spelled_term))]
fn spelled_term<'a>(
    names: Names<'a>,
    at: GoalCursor<'a>,
    expected: ExpectedInGoal,
) -> Parsed<'a, Term>
    ensures { read result ≡ spec.spelled_term names.entry (left at.entry) }
{
    let next = at.next();
    if at.is_at(b"key") {
        value_at(next)
    } else if at.is_at(b"sum") {
        sum(next)
    } else if at.is_at(b"reg") {
        register_of(names, next)
    } else if at.is_at(b"pc") {
        pc_of(names, next)
    } else if at.is_at(b"done") {
        done_of(names, next)
    } else if at.is_at(b"commits") {
        Ok((Term::Commits, next))
    } else {
        Err(at.refuses(expected))
    }
}

/// A term. Where the word at hand begins none, it is rejected with what was expected there.
#[tactic(auto, unfolding(crate::specs::Phrases::term_of))]
fn term_at<'a>(names: Names<'a>, at: GoalCursor<'a>, expected: ExpectedInGoal) -> Parsed<'a, Term>
    ensures { read result ≡ spec.term_of names.entry (left at.entry) }
{
    if is_numeral(at.word()) {
        let (number, at) = number(at)?;
        return Ok((Term::Number(number), at));
    }
    spelled_term(names, at, expected)
}

/// A sign and a term, after a term.
#[tactic(auto, unfolding(crate::specs::Phrases::compared))]
fn compared<'a>(names: Names<'a>, term: Term, at: GoalCursor<'a>) -> Parsed<'a, StateFact>
    ensures { read result ≡ spec.compared names.entry term (left at.entry) }
{
    let (sign, at) = at.gives(sign(at.word()), ExpectedInGoal::Comparison)?;
    let (other, at) = term_at(names, at, ExpectedInGoal::Term)?;
    Ok((StateFact::Compare(term, sign, other), at))
}

/// What comes after a term: `absent` after a key, or a sign and a term.
#[tactic(auto, unfolding(crate::specs::Phrases::after_term))]
fn after_term<'a>(names: Names<'a>, term: Term, at: GoalCursor<'a>) -> Parsed<'a, StateFact>
    ensures { read result ≡ spec.after_term names.entry term (left at.entry) }
{
    if let Term::Key(key) = term {
        if at.is_at(b"absent") {
            return Ok((StateFact::NoRow(key), at.next()));
        }
    }
    compared(names, term, at)
}

/// A comparison of two terms, or that a key has no row. Facts of other kinds were ruled out before.
#[tactic(auto, unfolding(crate::specs::Phrases::comparison))]
pub fn comparison<'a>(names: Names<'a>, at: GoalCursor<'a>) -> Parsed<'a, StateFact>
    ensures { read result ≡ spec.comparison names.entry (left at.entry) }
{
    let (term, at) = term_at(names, at, ExpectedInGoal::Fact)?;
    after_term(names, term, at)
}
