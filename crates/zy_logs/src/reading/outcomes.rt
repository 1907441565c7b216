//! Reads what a line tells of an outcome.
ghost use Rattle.std.specs.Prelude.{◌≡◌, ◌≤◌};
ghost use Rattle.zy_isa.specs.Limits.{max_txns};
ghost use Rattle.zy_logs.specs.Cursors.{left, read};
ghost use Rattle.zy_logs.specs.Lines as spec;
ghost use Rattle.zy_logs.specs.Parts.{or_none, page, place, txn_or_none, node_at, reason};
ghost use Rattle.zy_logs.specs.Words.{made};
ghost use Rattle.zy_patterns.specs.declared.patterns.OutcomePattern.TheVariants as pattern;
ghost use Rattle.zy_patterns.specs.Paged.{with_page as paged_with};

use crate::expected::ExpectedInLog;
use crate::reading::cursor::{LogCursor, Parsed};
use crate::reading::parts::{
    node_or_none, page_or_none, place_or_none, reason_or_none, txn_or_none,
};
use crate::txns::Txns;
use zy_patterns::paged::with_page;
use zy_patterns::words::{lone_got, lone_outcome, paged_got, paged_outcome};
use zy_patterns::{OutcomePattern, PagedOutcome};

/// The outcome with the page that comes next, if it is there.
fn of_page<'a>(outcome: PagedOutcome, at: LogCursor<'a>) -> Parsed<'a, OutcomePattern>
    ensures { read result ≡ made (paged_with outcome) (or_none page (left at.entry)) }
{
    let (page, at) = page_or_none(at)?;
    Ok((with_page(outcome, page), at))
}

/// What comes after `began`: the node.
fn began<'a>(at: LogCursor<'a>) -> Parsed<'a, OutcomePattern>
    ensures { read result ≡ made pattern.Began (or_none node_at (left at.entry)) }
{
    let (node, at) = node_or_none(at)?;
    Ok((OutcomePattern::Began(node), at))
}

/// What comes after `committed`: the place in commit order.
fn committed<'a>(at: LogCursor<'a>) -> Parsed<'a, OutcomePattern>
    ensures { read result ≡ made pattern.Committed (or_none place (left at.entry)) }
{
    let (place, at) = place_or_none(at)?;
    Ok((OutcomePattern::Committed(place), at))
}

/// What comes after `aborted`: the reason.
fn aborted<'a>(at: LogCursor<'a>) -> Parsed<'a, OutcomePattern>
    ensures { read result ≡ made pattern.Aborted (or_none reason (left at.entry)) }
{
    let (reason, at) = reason_or_none(at)?;
    Ok((OutcomePattern::Aborted(reason), at))
}

/// What comes after `active`: the transaction.
fn active<'a>(txns: Txns<'a>, at: LogCursor<'a>) -> Parsed<'a, OutcomePattern>
    requires { txns.count ≤ max_txns }
    ensures { read result ≡ made pattern.Active (txn_or_none txns.entry (left at.entry)) }
{
    let (txn, at) = txn_or_none(txns, at)?;
    Ok((OutcomePattern::Active(txn), at))
}

/// What comes after `split`: the page, the new page and the boundary, of which the last ones may be left out.
fn split<'a>(at: LogCursor<'a>) -> Parsed<'a, OutcomePattern>
    ensures { read result ≡ spec.split (left at.entry) }
{
    let (page, at) = page_or_none(at)?;
    let (new_page, at) = page_or_none(at)?;
    let (boundary, at) = page_or_none(at)?;
    let split = OutcomePattern::Split {
        page,
        new_page,
        boundary,
    };
    Ok((split, at))
}

/// What comes after `got`: the kind of the message that was taken.
fn got<'a>(at: LogCursor<'a>) -> Parsed<'a, OutcomePattern>
    ensures { read result ≡ spec.got (left at.entry) }
{
    match paged_got(at.word()) {
        Some(outcome) => of_page(outcome, at.next()),
        None => at.gives(lone_got(at.word()), ExpectedInLog::Got),
    }
}

/// An outcome with a page, or of one word.
fn paged<'a>(at: LogCursor<'a>) -> Parsed<'a, OutcomePattern>
    ensures { read result ≡ spec.paged (left at.entry) }
{
    match paged_outcome(at.word()) {
        Some(outcome) => of_page(outcome, at.next()),
        None => at.gives(lone_outcome(at.word()), ExpectedInLog::Outcome),
    }
}

/// The outcome that begins with the word at hand.
#[tactic(auto, unfolding(crate::specs::Lines::outcome_of))]
pub fn outcome<'a>(txns: Txns<'a>, at: LogCursor<'a>) -> Parsed<'a, OutcomePattern>
    requires { txns.count ≤ max_txns }
    ensures { read result ≡ spec.outcome_of txns.entry (left at.entry) }
{
    if at.is_at(b"began") {
        began(at.next())
    } else if at.is_at(b"committed") {
        committed(at.next())
    } else if at.is_at(b"aborted") {
        aborted(at.next())
    } else if at.is_at(b"active") {
        active(txns, at.next())
    } else if at.is_at(b"split") {
        split(at.next())
    } else if at.is_at(b"got") {
        got(at.next())
    } else {
        paged(at)
    }
}
