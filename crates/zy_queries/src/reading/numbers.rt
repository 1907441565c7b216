//! Numbers, keys and transactions.
ghost use Rattle.std.specs.Prelude.{◌≡◌};
ghost use Rattle.zy_queries.specs.Cursors.{left, read};
ghost use Rattle.zy_queries.specs.Words.{one};
ghost use Rattle.zy_queries.specs.Vocabulary as spec;

use crate::names::{MAX_TXN, Names};
use crate::reading::Parsed;
use crate::reading::cursor::GoalCursor;
use crate::refusal::ExpectedInGoal;
use zy_goals::goal::Selector;
use zy_text::names::{is, is_name, is_numeral};
use zy_text::numbers::number_of;

/// The greatest number that a goal may name: ten digits.
const MAX_NUMBER: u64 = 9999999999;

/// The greatest key, and the greatest number of a page that can be named.
const MAX_KEY: u64 = 65535;

/// The greatest place in commit order.
const MAX_PLACE: u64 = 64;

/// The number that a word is, where it is not above `most`.
#[tactic(auto, unfolding(crate::specs::Vocabulary::number_to))]
fn number_to(most: u64, word: &[u8]) -> Option<u64>
    ensures { result ≡ spec.number_to most word.now }
{
    match number_of(word) {
        Some(number) => { if number <= most { Some(number) } else { None } }
        None => None,
    }
}

/// The number that the word is.
pub fn number<'a>(at: GoalCursor<'a>) -> Parsed<'a, u64>
    ensures { read result ≡ one spec.number (left at.entry) }
{
    at.gives(
        number_to(MAX_NUMBER, at.word()),
        ExpectedInGoal::Number(MAX_NUMBER),
    )
}

/// The key, or the number of a page, that a word is.
#[tactic(auto, unfolding(crate::specs::Vocabulary::number_to))]
fn key_of(word: &[u8]) -> Option<u16>
    ensures { result ≡ spec.key word.now }
{
    match number_of(word) {
        Some(number) => {
            if number <= MAX_KEY {
                Some(number as u16)
            } else {
                None
            }
        }
        None => None,
    }
}

/// The key, or the number of a page, that the word is.
pub fn key<'a>(at: GoalCursor<'a>) -> Parsed<'a, u16>
    ensures { read result ≡ one spec.key (left at.entry) }
{
    at.gives(key_of(at.word()), ExpectedInGoal::Number(MAX_KEY))
}

/// The place in commit order that a word is.
#[tactic(auto, unfolding(crate::specs::Vocabulary::number_to))]
fn place_of(word: &[u8]) -> Option<u8>
    ensures { result ≡ spec.place_in_order word.now }
{
    match number_of(word) {
        Some(number) => {
            if number <= MAX_PLACE {
                Some(number as u8)
            } else {
                None
            }
        }
        None => None,
    }
}

/// The place in commit order that the word is.
pub fn place<'a>(at: GoalCursor<'a>) -> Parsed<'a, u8>
    ensures { read result ≡ one spec.place_in_order (left at.entry) }
{
    at.gives(place_of(at.word()), ExpectedInGoal::Number(MAX_PLACE))
}

/// Whether a word has the form of a transaction's name. `any` and `all` stand for several transactions.
pub fn is_txn_name(word: &[u8]) -> bool
    ensures { result ≡ spec.is_name word.now }
{
    is_name(word) && !is(word, b"any") && !is(word, b"all")
}

/// The number of a transaction that a word is.
#[tactic(auto, unfolding(crate::specs::Vocabulary::number_to))]
fn txn_number(word: &[u8]) -> Option<u8>
    ensures { result ≡ spec.number_to spec.max_txn word.now }
{
    match number_of(word) {
        Some(number) => {
            if number <= u64::from(MAX_TXN) {
                Some(number as u8)
            } else {
                None
            }
        }
        None => None,
    }
}

/// The number of the transaction that the word names, by its number or by its name.
#[tactic(auto, unfolding(crate::specs::Vocabulary::txn))]
pub fn txn<'a>(names: Names<'a>, at: GoalCursor<'a>) -> Parsed<'a, u8>
    ensures { read result ≡ one (spec.txn names.entry) (left at.entry) }
{
    if is_txn_name(at.word()) {
        at.gives(names.number_of(at.word()), ExpectedInGoal::KnownName)
    } else {
        at.gives(
            txn_number(at.word()),
            ExpectedInGoal::Number(u64::from(MAX_TXN)),
        )
    }
}

/// The selector of several transactions that a word is.
#[tactic(auto, unfolding(crate::specs::Vocabulary::several))]
fn several(word: &[u8]) -> Option<Selector>
    ensures { result ≡ spec.several word.now }
{
    if is(word, b"any") {
        Some(Selector::Any)
    } else if is(word, b"all") {
        Some(Selector::All)
    } else {
        None
    }
}

/// The transactions that the word selects.
#[tactic(auto, unfolding(crate::specs::Vocabulary::selected))]
pub fn selector<'a>(names: Names<'a>, at: GoalCursor<'a>) -> Parsed<'a, Selector>
    ensures { read result ≡ one (spec.selected names.entry) (left at.entry) }
{
    if is_numeral(at.word()) || is_txn_name(at.word()) {
        let (txn, at) = txn(names, at)?;
        Ok((Selector::One(txn), at))
    } else {
        at.gives(several(at.word()), ExpectedInGoal::Selector)
    }
}
