//! The choice of a line, and how often it is made.
ghost use Rattle.std.specs.Prelude.{◌≡◌, ◌≤◌, IfOk, IfSome, Some, Ok, true, ℕ};
ghost use Rattle.zy_isa.specs.Limits.{max_txns, max_choices};
ghost use Rattle.zy_asm.specs.Reasons.{by_kind, kind_of};
ghost use Rattle.zy_text.specs.Lines.{texts};
ghost use Rattle.zy_text.specs.Words as text;
ghost use Rattle.zy_asm.specs.declared.choices.TxnAction.{TxnAction as AnAction};
ghost use Rattle.zy_asm.specs.declared.choices.Action.TheVariants.{Txn, Plain};
ghost use Rattle.zy_asm.specs.Choices as spec;

use crate::faults::{AsmKind, Reason};
use crate::name_table::NameTable;
use crate::numbers::number_in;
use crate::shown::WordStart;
use crate::word_fault::WordFault;
use zy_isa::{Actor, Choice, MAX_CHOICES, Node};
use zy_text::names::{is, is_name, is_numeral};
use zy_text::numbers::number_of;

/// What is done with a transaction.
#[derive(Clone, Copy)]
pub enum TxnAction {
    /// The client begins it.
    Begin,
    /// The client kills it.
    Kill,
    /// This node runs one instruction of it.
    Run(Node),
}

/// What an actor does.
#[derive(Clone, Copy)]
pub enum Action {
    /// Something with the transaction that the next word names.
    Txn(TxnAction),
    /// A choice that names no transaction.
    Plain(Choice),
}

/// The actor that a word names.
#[inline(always)]
pub fn actor_of(word: &[u8]) -> Option<Actor>
    ensures { result ≡ spec.actor_of word.now }
{
    if is(word, b"C") {
        Some(Actor::C)
    } else if is(word, b"A") {
        Some(Actor::A)
    } else if is(word, b"B") {
        Some(Actor::B)
    } else {
        None
    }
}

/// The action of the client that a word names.
fn client_action(word: &[u8]) -> Option<Action>
    ensures { result ≡ spec.client_action word.now }
{
    if is(word, b"start") {
        Some(Action::Plain(Choice::Start))
    } else if is(word, b"begin") {
        Some(Action::Txn(TxnAction::Begin))
    } else if is(word, b"kill") {
        Some(Action::Txn(TxnAction::Kill))
    } else {
        None
    }
}

/// The action of this node that a word names.
#[inline(always)]
fn node_action(node: Node, word: &[u8]) -> Option<Action>
    ensures { result ≡ spec.node_action node word.now }
{
    if is(word, b"run") {
        Some(Action::Txn(TxnAction::Run(node)))
    } else if is(word, b"take") {
        Some(Action::Plain(Choice::Take(node)))
    } else if is(word, b"finish") {
        Some(Action::Plain(Choice::Finish(node)))
    } else if is(word, b"push") {
        Some(Action::Plain(Choice::Push(node)))
    } else {
        None
    }
}

/// The action of this actor that a word names.
#[inline(always)]
pub fn action_of(actor: Actor, word: &[u8]) -> Option<Action>
    ensures { result ≡ spec.action_of actor word.now }
{
    match actor {
        Actor::C => client_action(word),
        Actor::A => node_action(Node::A, word),
        Actor::B => node_action(Node::B, word),
    }
}

/// The action with this transaction.
pub fn chosen(action: TxnAction, t: u8) -> Choice
    ensures { result ≡ spec.chosen action t }
{
    match action {
        TxnAction::Begin => Choice::Begin(t),
        TxnAction::Kill => Choice::Kill(t),
        TxnAction::Run(node) => Choice::Run(node, t),
    }
}

/// The number of a transaction, of which there are `count`.
fn numbered(count: usize, word: &[u8]) -> Result<u8, Reason>
    requires { count ≤ max_txns }
    ensures { by_kind result ≡ spec.numbered count word.now }
{
    let Some(number) = number_of(word) else {
        return Err(Reason::NotDigits(WordStart::of(word)));
    };
    if number < count as u64 {
        Ok(number as u8)
    } else {
        Err(Reason::NoTransaction { number, count })
    }
}

/// The transaction of this number or name, where there are `count`, and those with names have these.
pub fn transaction(count: usize, names: &NameTable, word: &[u8]) -> Result<u8, Reason>
    requires { count ≤ max_txns }
    ensures { by_kind result ≡ spec.transaction count names.now word.now }
{
    if is_numeral(word) {
        return numbered(count, word);
    }
    if !is_name(word) {
        return Err(Reason::NotAName(WordStart::of(word)));
    }
    match names.find(word) {
        Some(number) => Ok(number),
        None => Err(Reason::NoName(WordStart::of(word))),
    }
}

/// Whether these words are `x` and another one, or none.
pub fn are_times(words: &[&[u8]]) -> bool
    ensures { result ≡ spec.are_times (texts words.now) }
{
    match words {
        [] => true,
        [x, _] => is(x, b"x"),
        _ => false,
    }
}

/// Why such words, of which the first has this number in its line, are neither `x` and another one nor none.
pub fn not_times(at: usize, words: &[&[u8]]) -> WordFault
    ensures { kind_of result.reason ≡ AsmKind.Word }
{
    match words {
        [word, _] => Reason::NotKnown(WordStart::of(word)).at(at),
        [x, _, _, ..] if is(x, b"x") => Reason::WordCount.at(at.saturating_add(2)),
        _ => Reason::WordCount.at(at),
    }
}

/// How often the words behind a choice say that it is made.
pub fn times_of(words: &[&[u8]]) -> Result<u64, Reason>
    ensures value { by_kind result ≡ spec.times_of (texts words.now) }
    ensures few { IfOk result (λ n. n ≤ max_choices) }
{
    match words {
        [] => Ok(1),
        [_, number] => number_in(number, 1, MAX_CHOICES as u64),
        _ => Err(Reason::WordCount),
    }
}
