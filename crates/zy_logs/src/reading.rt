//! Reads a line of a log, word by word. The word at hand decides what comes, and a line is rejected at the first word that
//! does not fit.
ghost use Rattle.std.specs.Prelude.{◌≡◌, ◌≤◌};
ghost use Rattle.zy_isa.specs.Limits.{max_txns};
ghost use Rattle.zy_text.specs.Lines.{texts};
ghost use Rattle.zy_logs.specs.Cursors.{left, read};
ghost use Rattle.zy_logs.specs.Lines as spec;

mod choices;
mod cursor;
mod outcomes;
mod parts;
mod rows;

use crate::expected::{ExpectedInLog, Misread};
use crate::log_line::{LogLine, Logged};
use crate::possible::{can_give, can_have_rows, can_stand};
use crate::reading::choices::{choice, whose};
use crate::reading::cursor::{LogCursor, Misfit, Parsed};
use crate::reading::outcomes::outcome;
use crate::reading::parts::value_or_none;
use crate::reading::rows::rows;
use crate::txns::Txns;
use zy_isa::{Actor, Choice};
use zy_model::Kind;
use zy_page::PageRows;
use zy_patterns::OutcomePattern;
use zy_patterns::words::kind;

/// The outcome that begins with the word at hand. That word is rejected where no step of the choice gives the outcome, and where no
/// line of the log tells it.
fn possible<'a>(
    txns: Txns<'a>,
    log: Actor,
    choice: Choice,
    at: LogCursor<'a>,
) -> Parsed<'a, OutcomePattern>
    requires { txns.count ≤ max_txns }
    ensures { read result ≡ spec.possible txns.entry log choice (left at.entry) }
{
    let (told, next) = outcome(txns, at)?;
    if can_give(choice, told) && can_stand(log, told) {
        Ok((told, next))
    } else {
        Err(at.refuses(ExpectedInLog::OutcomeOf(choice)))
    }
}

/// What was logged of the outcome of a choice, after `->`: nothing, or an outcome.
fn logged<'a>(
    txns: Txns<'a>,
    log: Actor,
    choice: Choice,
    at: LogCursor<'a>,
) -> Parsed<'a, Option<OutcomePattern>>
    requires { txns.count ≤ max_txns }
    ensures { read result ≡ spec.logged txns.entry log choice (left at.entry) }
{
    if at.is_at(b"?") {
        return Ok((None, at.next()));
    }
    let (told, at) = possible(txns, log, choice, at)?;
    Ok((Some(told), at))
}

/// Whether rows come, which the choice may have.
fn rows_come(choice: Choice, at: LogCursor<'_>) -> bool
    ensures { result ≡ spec.rows_come choice (left at.entry) }
{
    at.is_at(b"rows") && can_have_rows(choice)
}

/// Whether there comes what may stand behind the outcome of a choice: the message, rows, or the end.
fn ends_told(choice: Choice, at: LogCursor<'_>) -> bool
    ensures { result ≡ spec.end_told choice (left at.entry) }
{
    at.is_message_or_end() || rows_come(choice, at)
}

/// What was logged of the outcome, after the choice.
fn told<'a>(
    txns: Txns<'a>,
    log: Actor,
    choice: Choice,
    at: LogCursor<'a>,
) -> Parsed<'a, Option<OutcomePattern>>
    requires { txns.count ≤ max_txns }
    ensures { read result ≡ spec.told_of txns.entry log choice (left at.entry) }
{
    if at.is_at(b"->") {
        logged(txns, log, choice, at.next())
    } else if ends_told(choice, at) {
        Ok((None, at))
    } else {
        Err(at.refuses(ExpectedInLog::AfterChoice(choice)))
    }
}

/// Whether a line tells `did`.
fn is_did(told: Option<OutcomePattern>) -> bool
    ensures { result ≡ spec.is_did told }
{
    matches!(told, Some(OutcomePattern::Did))
}

/// The value behind `did`, if it was logged; no other outcome has one.
fn value_behind<'a>(told: Option<OutcomePattern>, at: LogCursor<'a>) -> Parsed<'a, Option<u32>>
    ensures { read result ≡ spec.value_behind told (left at.entry) }
{
    if is_did(told) {
        value_or_none(at)
    } else {
        Ok((None, at))
    }
}

/// The kind of the message that was sent.
fn message<'a>(at: LogCursor<'a>) -> Parsed<'a, Option<Kind>>
    ensures { read result ≡ spec.message (left at.entry) }
{
    let (kind, at) = at.gives(kind(at.word()), ExpectedInLog::Message)?;
    Ok((Some(kind), at))
}

/// The kind of the message that was sent, if it was logged.
fn sent<'a>(choice: Choice, at: LogCursor<'a>) -> Parsed<'a, Option<Kind>>
    ensures { read result ≡ spec.sent_of choice (left at.entry) }
{
    if at.is_at(b"!") {
        message(at.next())
    } else if ends_told(choice, at) {
        Ok((None, at))
    } else {
        Err(at.refuses(ExpectedInLog::AfterOutcome(choice)))
    }
}

/// The rows of the page that was moved, if they were logged, and nothing after them.
fn rows_or_end(choice: Choice, at: LogCursor<'_>) -> Result<Option<PageRows>, Misfit>
    ensures { result ≡ spec.rows_of choice (left at.entry) }
{
    if rows_come(choice, at) {
        let rows = rows(at.next())?;
        Ok(Some(rows))
    } else if at.is_end() {
        Ok(None)
    } else {
        Err(at.refuses(ExpectedInLog::AfterMessage(choice)))
    }
}

/// The line that begins with the word at hand, and nothing after it.
fn whole(txns: Txns<'_>, at: LogCursor<'_>) -> Result<LogLine, Misfit>
    requires { txns.count ≤ max_txns }
    ensures { result ≡ spec.whole txns.entry (left at.entry) }
{
    let (log, at) = whose(at)?;
    let (choice, at) = choice(txns, log, at)?;
    let (told, at) = told(txns, log, choice, at)?;
    let (value, at) = value_behind(told, at)?;
    let (sent, at) = sent(choice, at)?;
    let rows = rows_or_end(choice, at)?;
    Ok(LogLine {
        log,
        choice,
        told,
        value,
        sent,
        rows,
    })
}

/// What a line says whose second word is `...`: whose log has a gap.
fn gap(at: LogCursor<'_>) -> Result<Logged, Misfit>
    ensures { result ≡ spec.gap (left at.entry) }
{
    let (actor, at) = whose(at)?;
    let at = at.next();
    if !at.is_end() {
        return Err(at.refuses(ExpectedInLog::EndOfGap));
    }
    Ok(Logged::Gap(actor))
}

/// What the line that begins with the word at hand says.
fn gap_or_step(txns: Txns<'_>, at: LogCursor<'_>) -> Result<Logged, Misfit>
    requires { txns.count ≤ max_txns }
    ensures { result ≡ spec.gap_or_step txns.entry (left at.entry) }
{
    if at.next().is_at(b"...") {
        return gap(at);
    }
    let line = whole(txns, at)?;
    Ok(Logged::Step(line))
}

/// What a line of a log says, by its words.
pub fn read_line(txns: Txns<'_>, words: &[&[u8]]) -> Result<Logged, Misread>
    requires { txns.count ≤ max_txns }
    ensures { result ≡ spec.line_of txns.entry (texts words.now) }
{
    match gap_or_step(txns, LogCursor::new(words)) {
        Ok(logged) => Ok(logged),
        Err(stop) => Err(Misread {
            word: words.len().saturating_sub(stop.left),
            expected: stop.expected,
        }),
    }
}
