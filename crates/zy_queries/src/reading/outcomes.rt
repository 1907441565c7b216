//! Reads the outcome after `then`, and the reason of an abort.
ghost use Rattle.std.specs.Prelude.{◌≡◌};
ghost use Rattle.zy_queries.specs.Words.{made};
ghost use Rattle.zy_queries.specs.Cursors.{left, read};
ghost use Rattle.zy_queries.specs.Phrases as spec;
ghost use Rattle.zy_patterns.specs.Paged.{with_page as paged_with};
ghost use Rattle.zy_patterns.specs.declared.patterns.OutcomePattern.TheVariants as pattern;

use crate::names::Names;
use crate::reading::Parsed;
use crate::reading::cursor::GoalCursor;
use crate::reading::numbers::{is_txn_name, key, place, txn};
use crate::refusal::ExpectedInGoal;
use zy_patterns::paged::with_page;
use zy_patterns::words::{lone_got, lone_outcome, lone_reason, node, paged_got, paged_outcome};
use zy_patterns::{OutcomePattern, PagedOutcome, ReasonPattern};
use zy_text::names::is_numeral;

/// The number of a page, or a key, if a number comes.
fn page_or_none<'a>(at: GoalCursor<'a>) -> Parsed<'a, Option<u16>>
    ensures { read result ≡ spec.page_or_none (left at.entry) }
{
    if !is_numeral(at.word()) {
        return Ok((None, at));
    }
    let (page, at) = key(at)?;
    Ok((Some(page), at))
}

/// The reason of an abort, if one comes.
#[tactic(auto, unfolding(crate::specs::Phrases::reason_or_none))]
pub fn reason_or_none<'a>(at: GoalCursor<'a>) -> Parsed<'a, Option<ReasonPattern>>
    ensures { read result ≡ spec.reason_or_none (left at.entry) }
{
    if at.is_at(b"frozen") {
        let (page, at) = page_or_none(at.next())?;
        Ok((Some(ReasonPattern::Frozen(page)), at))
    } else if at.is_at(b"gone") {
        let (page, at) = page_or_none(at.next())?;
        Ok((Some(ReasonPattern::Gone(page)), at))
    } else {
        match lone_reason(at.word()) {
            Some(reason) => Ok((Some(reason), at.next())),
            None => Ok((None, at)),
        }
    }
}

/// What comes after `began`: a node, or nothing.
fn began<'a>(at: GoalCursor<'a>) -> Parsed<'a, OutcomePattern>
    ensures { read result ≡ spec.outcome_began (left at.entry) }
{
    match node(at.word()) {
        Some(node) => Ok((OutcomePattern::Began(Some(node)), at.next())),
        None => Ok((OutcomePattern::Began(None), at)),
    }
}

/// What comes after `committed`: a place in commit order, or nothing.
fn committed<'a>(at: GoalCursor<'a>) -> Parsed<'a, OutcomePattern>
    ensures { read result ≡ spec.outcome_committed (left at.entry) }
{
    if !is_numeral(at.word()) {
        return Ok((OutcomePattern::Committed(None), at));
    }
    let (place, at) = place(at)?;
    Ok((OutcomePattern::Committed(Some(place)), at))
}

/// What comes after `aborted`: a reason, or nothing.
fn aborted<'a>(at: GoalCursor<'a>) -> Parsed<'a, OutcomePattern>
    ensures { read result ≡ made pattern.Aborted (spec.reason_or_none (left at.entry)) }
{
    let (reason, at) = reason_or_none(at)?;
    Ok((OutcomePattern::Aborted(reason), at))
}

/// What comes after `active`: a transaction, or nothing.
fn active<'a>(names: Names<'a>, at: GoalCursor<'a>) -> Parsed<'a, OutcomePattern>
    ensures { read result ≡ spec.outcome_active names.entry (left at.entry) }
{
    if !is_numeral(at.word()) && !is_txn_name(at.word()) {
        return Ok((OutcomePattern::Active(None), at));
    }
    let (txn, at) = txn(names, at)?;
    Ok((OutcomePattern::Active(Some(txn)), at))
}

/// What comes after `split`: the page, the new page and the boundary, of which the last ones may be left out.
fn split<'a>(at: GoalCursor<'a>) -> Parsed<'a, OutcomePattern>
    ensures { read result ≡ spec.outcome_split (left at.entry) }
{
    let (page, at) = page_or_none(at)?;
    let (new_page, at) = page_or_none(at)?;
    let (boundary, at) = page_or_none(at)?;
    let split = OutcomePattern::Split {
        page,
        new_page,
        boundary,
    };
    Ok((split, at))
}

/// The outcome with the page that comes next, if one does.
fn of_page<'a>(outcome: PagedOutcome, at: GoalCursor<'a>) -> Parsed<'a, OutcomePattern>
    ensures { read result ≡ made (paged_with outcome) (spec.page_or_none (left at.entry)) }
{
    let (page, at) = page_or_none(at)?;
    Ok((with_page(outcome, page), at))
}

/// What comes after `got`: a kind of message.
fn got<'a>(at: GoalCursor<'a>) -> Parsed<'a, OutcomePattern>
    ensures { read result ≡ spec.outcome_got (left at.entry) }
{
    match paged_got(at.word()) {
        Some(outcome) => of_page(outcome, at.next()),
        None => at.gives(lone_got(at.word()), ExpectedInGoal::Outcome),
    }
}

/// An outcome with a page, or of one word.
fn paged<'a>(at: GoalCursor<'a>) -> Parsed<'a, OutcomePattern>
    ensures { read result ≡ spec.outcome_paged (left at.entry) }
{
    match paged_outcome(at.word()) {
        Some(outcome) => of_page(outcome, at.next()),
        None => at.gives(lone_outcome(at.word()), ExpectedInGoal::Outcome),
    }
}

/// The outcome that begins with the word at hand.
#[tactic(auto, unfolding(crate::specs::Phrases::outcome_of))]
pub fn outcome<'a>(names: Names<'a>, at: GoalCursor<'a>) -> Parsed<'a, OutcomePattern>
    ensures { read result ≡ spec.outcome_of names.entry (left at.entry) }
{
    if at.is_at(b"began") {
        began(at.next())
    } else if at.is_at(b"committed") {
        committed(at.next())
    } else if at.is_at(b"aborted") {
        aborted(at.next())
    } else if at.is_at(b"active") {
        active(names, at.next())
    } else if at.is_at(b"split") {
        split(at.next())
    } else if at.is_at(b"got") {
        got(at.next())
    } else {
        paged(at)
    }
}
