//! Reads facts.
ghost use Rattle.std.specs.Prelude.{◌≡◌};
ghost use Rattle.zy_queries.specs.Words.{after, made};
ghost use Rattle.zy_queries.specs.Cursors.{left, read};
ghost use Rattle.zy_queries.specs.Phrases as spec;
ghost use Rattle.zy_goals.specs.declared.goal.Fact.TheVariants as facts;

use crate::names::Names;
use crate::reading::cursor::GoalCursor;
use crate::reading::numbers::{key, selector, txn};
use crate::reading::outcomes::reason_or_none;
use crate::reading::terms::comparison;
use crate::reading::{Parsed, words};
use crate::refusal::ExpectedInGoal;
use zy_goals::goal::{
    Fact, LinkContent, MessagePattern, PagePlace, Selector, StateFact, TxnProperty,
};
use zy_isa::Node;
use zy_model::Kind;
use zy_patterns::words::{kind, node};
use zy_text::names::is_numeral;

/// What comes after `mode`: a node and a mode.
#[tactic(auto, unfolding(crate::specs::Phrases::mode))]
fn mode<'a>(at: GoalCursor<'a>) -> Parsed<'a, StateFact>
    ensures { read result ≡ spec.mode (left at.entry) }
{
    let (node, at) = at.gives(node(at.word()), ExpectedInGoal::Node)?;
    let (mode, at) = at.gives(words::mode(at.word()), ExpectedInGoal::Mode)?;
    Ok((StateFact::Mode(node, mode), at))
}

/// What comes after `page P at`: a place.
fn page_at<'a>(page: u16, at: GoalCursor<'a>) -> Parsed<'a, StateFact>
    ensures { read result ≡ spec.page_at page (left at.entry) }
{
    let (place, at) = at.gives(words::place(at.word()), ExpectedInGoal::Place)?;
    Ok((StateFact::Page(page, place), at))
}

/// What comes after `page P`.
#[tactic(auto, unfolding(crate::specs::Phrases::of_page))]
fn of_page<'a>(page: u16, at: GoalCursor<'a>) -> Parsed<'a, StateFact>
    ensures { read result ≡ spec.of_page page (left at.entry) }
{
    let next = at.next();
    if at.is_at(b"at") {
        page_at(page, next)
    } else if at.is_at(b"moving") {
        Ok((StateFact::Page(page, PagePlace::Moving), next))
    } else if at.is_at(b"absent") {
        Ok((StateFact::Page(page, PagePlace::Absent), next))
    } else if at.is_at(b"locked") {
        Ok((StateFact::Locked(page), next))
    } else {
        Err(at.refuses(ExpectedInGoal::Place))
    }
}

/// What comes after `page`.
fn page<'a>(at: GoalCursor<'a>) -> Parsed<'a, StateFact>
    ensures { read result ≡ spec.page (left at.entry) }
{
    let (page, at) = key(at)?;
    of_page(page, at)
}

/// What may come after `txn T committed`: `before` and a transaction.
#[tactic(auto, unfolding(crate::specs::Phrases::committed))]
fn committed<'a>(names: Names<'a>, selector: Selector, at: GoalCursor<'a>) -> Parsed<'a, StateFact>
    ensures { read result ≡ spec.committed names.entry selector (left at.entry) }
{
    if let Selector::One(earlier) = selector {
        if at.is_at(b"before") {
            let (later, at) = txn(names, at.next())?;
            return Ok((StateFact::CommittedBefore { earlier, later }, at));
        }
    }
    Ok((StateFact::Txns(selector, TxnProperty::Committed), at))
}

/// What comes after `txn T locks`: a page. It is said of one transaction alone; else `locks` is rejected.
#[tactic(auto, unfolding(crate::specs::Phrases::locks))]
fn locks<'a>(selector: Selector, locks: GoalCursor<'a>) -> Parsed<'a, StateFact>
    ensures { read result ≡ spec.locks selector (after (left locks.entry)) }
{
    match selector {
        Selector::One(txn) => {
            let (page, at) = key(locks.next())?;
            Ok((StateFact::LockedBy { txn, page }, at))
        }
        _ => Err(locks.refuses(ExpectedInGoal::TxnProperty)),
    }
}

/// What comes after `txn T aborted`.
fn aborted<'a>(selector: Selector, at: GoalCursor<'a>) -> Parsed<'a, StateFact>
    ensures { read result ≡ spec.aborted selector (left at.entry) }
{
    let (reason, at) = reason_or_none(at)?;
    Ok((StateFact::Txns(selector, TxnProperty::Aborted(reason)), at))
}

/// What comes after `txn T at`: a node.
fn at_node<'a>(selector: Selector, at: GoalCursor<'a>) -> Parsed<'a, StateFact>
    ensures { read result ≡ spec.at_node selector (left at.entry) }
{
    let (node, at) = at.gives(node(at.word()), ExpectedInGoal::Node)?;
    Ok((StateFact::Txns(selector, TxnProperty::At(node)), at))
}

/// What comes after `txn T wrote`: a key.
fn wrote<'a>(selector: Selector, at: GoalCursor<'a>) -> Parsed<'a, StateFact>
    ensures { read result ≡ spec.wrote selector (left at.entry) }
{
    let (key, at) = key(at)?;
    Ok((StateFact::Txns(selector, TxnProperty::Wrote(key)), at))
}

/// What comes after `txn T`, `txn any` or `txn all`.
#[tactic(auto, unfolding(crate::specs::Phrases::of_txns))]
fn of_txns<'a>(names: Names<'a>, selector: Selector, at: GoalCursor<'a>) -> Parsed<'a, StateFact>
    ensures { read result ≡ spec.of_txns names.entry selector (left at.entry) }
{
    let next = at.next();
    if at.is_at(b"new") {
        Ok((StateFact::Txns(selector, TxnProperty::New), next))
    } else if at.is_at(b"active") {
        Ok((StateFact::Txns(selector, TxnProperty::Active), next))
    } else if at.is_at(b"committed") {
        committed(names, selector, next)
    } else if at.is_at(b"aborted") {
        aborted(selector, next)
    } else if at.is_at(b"at") {
        at_node(selector, next)
    } else if at.is_at(b"wrote") {
        wrote(selector, next)
    } else if at.is_at(b"locks") {
        locks(selector, at)
    } else {
        Err(at.refuses(ExpectedInGoal::TxnProperty))
    }
}

/// What comes after `txn`.
fn txns<'a>(names: Names<'a>, at: GoalCursor<'a>) -> Parsed<'a, StateFact>
    ensures { read result ≡ spec.txns names.entry (left at.entry) }
{
    let (selector, at) = selector(names, at)?;
    of_txns(names, selector, at)
}

/// A request for the page of this number.
fn pull_of<'a>(at: GoalCursor<'a>) -> Parsed<'a, MessagePattern>
    ensures { read result ≡ spec.pull_of (left at.entry) }
{
    let (page, at) = key(at)?;
    Ok((MessagePattern::Pull(page), at))
}

/// The page of this number.
fn page_of<'a>(at: GoalCursor<'a>) -> Parsed<'a, MessagePattern>
    ensures { read result ≡ spec.page_of (left at.entry) }
{
    let (page, at) = key(at)?;
    Ok((MessagePattern::Page(page), at))
}

/// After `has pull` and `has page` the number of the page, if one follows.
#[tactic(auto, unfolding(crate::specs::Phrases::numbered))]
fn numbered<'a>(kind: Kind, at: GoalCursor<'a>) -> Parsed<'a, MessagePattern>
    ensures { read result ≡ spec.numbered kind (left at.entry) }
{
    let is_numbered = is_numeral(at.word());
    match kind {
        Kind::Pull if is_numbered => pull_of(at),
        Kind::Page if is_numbered => page_of(at),
        _ => Ok((MessagePattern::OfKind(kind), at)),
    }
}

/// What comes after `link L has`: a kind of message, and after `pull` or `page` the number of the page, if one follows.
#[tactic(auto, unfolding(crate::specs::Phrases::message))]
fn message<'a>(at: GoalCursor<'a>) -> Parsed<'a, MessagePattern>
    ensures { read result ≡ spec.message (left at.entry) }
{
    let (kind, at) = at.gives(kind(at.word()), ExpectedInGoal::LinkContent)?;
    numbered(kind, at)
}

/// A link that has a message.
fn link_has<'a>(from: Node, at: GoalCursor<'a>) -> Parsed<'a, StateFact>
    ensures { read result ≡ spec.link_has from (left at.entry) }
{
    let (pattern, at) = message(at)?;
    Ok((StateFact::Link(from, LinkContent::Has(pattern)), at))
}

/// What comes after `link L`.
#[tactic(auto, unfolding(crate::specs::Phrases::of_link))]
fn of_link<'a>(from: Node, at: GoalCursor<'a>) -> Parsed<'a, StateFact>
    ensures { read result ≡ spec.of_link from (left at.entry) }
{
    if at.is_at(b"empty") {
        Ok((StateFact::Link(from, LinkContent::Empty), at.next()))
    } else if at.is_at(b"has") {
        link_has(from, at.next())
    } else {
        Err(at.refuses(ExpectedInGoal::LinkContent))
    }
}

/// What comes after `link`.
fn link<'a>(at: GoalCursor<'a>) -> Parsed<'a, StateFact>
    ensures { read result ≡ spec.link (left at.entry) }
{
    let (from, at) = at.gives(words::link(at.word()), ExpectedInGoal::Link)?;
    of_link(from, at)
}

/// A fact of the state of several words.
#[tactic(auto, unfolding(crate::specs::Phrases::state_fact_of))]
fn state_fact<'a>(names: Names<'a>, at: GoalCursor<'a>) -> Parsed<'a, StateFact>
    ensures { read result ≡ spec.state_fact_of names.entry (left at.entry) }
{
    let next = at.next();
    if at.is_at(b"mode") {
        mode(next)
    } else if at.is_at(b"page") {
        page(next)
    } else if at.is_at(b"txn") {
        txns(names, next)
    } else if at.is_at(b"link") {
        link(next)
    } else {
        comparison(names, at)
    }
}

/// A fact of the state of several words, as a fact.
fn fact_of_state<'a>(names: Names<'a>, at: GoalCursor<'a>) -> Parsed<'a, Fact>
    ensures { read result ≡ made facts.OfState (spec.state_fact_of names.entry (left at.entry)) }
{
    let (state_fact, at) = state_fact(names, at)?;
    Ok((Fact::OfState(state_fact), at))
}

/// The fact that begins with the word at hand.
#[tactic(auto, unfolding(crate::specs::Phrases::fact_of))]
pub fn fact<'a>(names: Names<'a>, at: GoalCursor<'a>) -> Parsed<'a, Fact>
    ensures { read result ≡ spec.fact_of names.entry (left at.entry) }
{
    if let Some(fact) = words::lone_fact(at.word()) {
        return Ok((fact, at.next()));
    }
    let (reason, next) = reason_or_none(at)?;
    match reason {
        Some(reason) => Ok((words::aborted(Some(reason)), next)),
        None => fact_of_state(names, at),
    }
}
