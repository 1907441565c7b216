//! Numbers, nodes and transactions, and which of them may be left out.
ghost use Rattle.std.specs.Prelude.{◌≡◌, ◌≤◌, IfOk};
ghost use Rattle.zy_isa.specs.Limits.{max_key, max_txns, max_value};
ghost use Rattle.zy_logs.specs.Cursors.{left, read};
ghost use Rattle.zy_logs.specs.Parts as spec;
ghost use Rattle.zy_logs.specs.Parts.{or_none};

use crate::expected::ExpectedInLog;
use crate::reading::cursor::{LogCursor, Parsed};
use crate::txns::Txns;
use zy_isa::{MAX_TXNS, Node};
use zy_patterns::ReasonPattern;
use zy_patterns::words::{lone_reason, node};
use zy_text::names::{is_name, is_numeral};
use zy_text::numbers::number_of;

/// The greatest key, and the greatest number of a page that a line can name.
const MAX_PAGE: u64 = u16::MAX as u64;

/// The greatest place in commit order.
const MAX_PLACE: u64 = MAX_TXNS as u64;

/// The greatest value.
const MAX_VALUE: u64 = u32::MAX as u64;

/// A number that is not above `most`, and which the word or a part of it spells.
fn number_in<'a>(most: u64, part: &[u8], at: LogCursor<'a>) -> Parsed<'a, u64>
    ensures value { read result ≡ spec.number_in most part.now (left at.entry) }
    ensures few { IfOk result (λ n. n.0 ≤ most) }
{
    let (number, next) = at.gives(number_of(part), ExpectedInLog::Number)?;
    if number <= most {
        Ok((number, next))
    } else {
        Err(at.refuses(ExpectedInLog::AtMost(most)))
    }
}

/// A number that is not above `most`, and which the word spells.
fn number<'a>(most: u64, at: LogCursor<'a>) -> Parsed<'a, u64>
    ensures value { read result ≡ spec.number most (left at.entry) }
    ensures few { IfOk result (λ n. n.0 ≤ most) }
{
    number_in(most, at.word(), at)
}

/// The key of a row.
pub fn key_in<'a>(part: &[u8], at: LogCursor<'a>) -> Parsed<'a, u16>
    ensures { read result ≡ spec.number_in max_key part.now (left at.entry) }
{
    let (number, at) = number_in(MAX_PAGE, part, at)?;
    Ok((number as u16, at))
}

/// The value of a row.
pub fn value_in<'a>(part: &[u8], at: LogCursor<'a>) -> Parsed<'a, u32>
    ensures { read result ≡ spec.number_in max_value part.now (left at.entry) }
{
    let (number, at) = number_in(MAX_VALUE, part, at)?;
    Ok((number as u32, at))
}

/// The number of a page, or a key.
fn page<'a>(at: LogCursor<'a>) -> Parsed<'a, u16>
    ensures { read result ≡ spec.page (left at.entry) }
{
    key_in(at.word(), at)
}

/// A place in commit order.
fn place<'a>(at: LogCursor<'a>) -> Parsed<'a, u8>
    ensures { read result ≡ spec.place (left at.entry) }
{
    let (number, at) = number(MAX_PLACE, at)?;
    Ok((number as u8, at))
}

/// A value.
fn value<'a>(at: LogCursor<'a>) -> Parsed<'a, u32>
    ensures { read result ≡ spec.value (left at.entry) }
{
    value_in(at.word(), at)
}

/// A transaction by its number, where there are `count`.
fn numbered<'a>(count: usize, at: LogCursor<'a>) -> Parsed<'a, u8>
    requires { count ≤ max_txns }
    ensures { read result ≡ spec.numbered count (left at.entry) }
{
    let (number, next) = at.gives(number_of(at.word()), ExpectedInLog::Number)?;
    if number < count as u64 {
        Ok((number as u8, next))
    } else {
        Err(at.refuses(ExpectedInLog::KnownTxn))
    }
}

/// A transaction by its number or its name.
pub fn txn<'a>(txns: Txns<'a>, at: LogCursor<'a>) -> Parsed<'a, u8>
    requires { txns.count ≤ max_txns }
    ensures { read result ≡ spec.txn txns.entry (left at.entry) }
{
    if is_numeral(at.word()) {
        numbered(txns.count, at)
    } else if is_name(at.word()) {
        at.gives(txns.named(at.word()), ExpectedInLog::KnownTxn)
    } else {
        Err(at.refuses(ExpectedInLog::Txn))
    }
}

/// The number of a page, or a key, if it is there.
pub fn page_or_none<'a>(at: LogCursor<'a>) -> Parsed<'a, Option<u16>>
    ensures { read result ≡ or_none spec.page (left at.entry) }
{
    if at.ends_outcome() {
        return Ok((None, at));
    }
    let (page, at) = page(at)?;
    Ok((Some(page), at))
}

/// A place in commit order, if it is there.
pub fn place_or_none<'a>(at: LogCursor<'a>) -> Parsed<'a, Option<u8>>
    ensures { read result ≡ or_none spec.place (left at.entry) }
{
    if at.ends_outcome() {
        return Ok((None, at));
    }
    let (place, at) = place(at)?;
    Ok((Some(place), at))
}

/// A value, if it is there.
pub fn value_or_none<'a>(at: LogCursor<'a>) -> Parsed<'a, Option<u32>>
    ensures { read result ≡ or_none spec.value (left at.entry) }
{
    if at.ends_outcome() {
        return Ok((None, at));
    }
    let (value, at) = value(at)?;
    Ok((Some(value), at))
}

/// A transaction, if it is there. It may have the name `rows`.
pub fn txn_or_none<'a>(txns: Txns<'a>, at: LogCursor<'a>) -> Parsed<'a, Option<u8>>
    requires { txns.count ≤ max_txns }
    ensures { read result ≡ spec.txn_or_none txns.entry (left at.entry) }
{
    if at.is_message_or_end() {
        return Ok((None, at));
    }
    let (txn, at) = txn(txns, at)?;
    Ok((Some(txn), at))
}

/// A node, if it is there.
pub fn node_or_none<'a>(at: LogCursor<'a>) -> Parsed<'a, Option<Node>>
    ensures { read result ≡ or_none spec.node_at (left at.entry) }
{
    if at.ends_outcome() {
        return Ok((None, at));
    }
    let (node, at) = at.gives(node(at.word()), ExpectedInLog::Node)?;
    Ok((Some(node), at))
}

/// The reason of an abort.
fn reason<'a>(at: LogCursor<'a>) -> Parsed<'a, ReasonPattern>
    ensures { read result ≡ spec.reason (left at.entry) }
{
    if at.is_at(b"frozen") {
        let (page, at) = page_or_none(at.next())?;
        Ok((ReasonPattern::Frozen(page), at))
    } else if at.is_at(b"gone") {
        let (page, at) = page_or_none(at.next())?;
        Ok((ReasonPattern::Gone(page), at))
    } else {
        at.gives(lone_reason(at.word()), ExpectedInLog::Reason)
    }
}

/// The reason of an abort, if it is there.
pub fn reason_or_none<'a>(at: LogCursor<'a>) -> Parsed<'a, Option<ReasonPattern>>
    ensures { read result ≡ or_none spec.reason (left at.entry) }
{
    if at.ends_outcome() {
        return Ok((None, at));
    }
    let (reason, at) = reason(at)?;
    Ok((Some(reason), at))
}
