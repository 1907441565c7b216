//! The command of a line.
ghost use Rattle.std.specs.Prelude.{◌≡◌};
ghost use Rattle.zy_text.specs.Lines.{texts};
ghost use Rattle.zy_debug_text.specs.Lines as spec;

use zy_debug::Command;
use zy_isa::Node;
use zy_text::names::is;
use zy_text::numbers::number_of;

/// The number that a word spells, where it is a `u32`.
fn count_of(word: &[u8]) -> Option<u32>
    ensures { result ≡ spec.count_of word.now }
{
    match number_of(word) {
        Some(number) => {
            if number <= u64::from(u32::MAX) {
                Some(number as u32)
            } else {
                None
            }
        }
        None => None,
    }
}

/// The command that is one word.
fn bare(word: &[u8]) -> Option<Command>
    ensures { result ≡ spec.bare word.now }
{
    if is(word, b"cont") {
        Some(Command::Cont)
    } else if is(word, b"rcont") {
        Some(Command::RCont)
    } else if is(word, b"links") {
        Some(Command::Links)
    } else if is(word, b"where") {
        Some(Command::Position)
    } else {
        None
    }
}

/// The command that a word and a number spell.
fn numbered(word: &[u8], number: u32) -> Option<Command>
    ensures { result ≡ spec.numbered word.now number }
{
    if is(word, b"step") {
        Some(Command::Step(number))
    } else if is(word, b"back") {
        Some(Command::Back(number))
    } else if is(word, b"goto") {
        Some(Command::Goto(number))
    } else if is(word, b"watch") {
        Some(Command::Watch(number))
    } else if is(word, b"delete") {
        Some(Command::Delete(number))
    } else if is(word, b"page") {
        Some(Command::Page(number))
    } else if is(word, b"txn") {
        Some(Command::Txn(number))
    } else {
        None
    }
}

/// The command that `break` and a word spell.
fn break_at(word: &[u8]) -> Option<Command>
    ensures { result ≡ spec.break_at word.now }
{
    if is(word, b"mode") {
        Some(Command::BreakMode)
    } else if is(word, b"abort") {
        Some(Command::BreakAbort)
    } else {
        None
    }
}

/// The command that `node` and a word spell.
fn node_at(word: &[u8]) -> Option<Command>
    ensures { result ≡ spec.node_at word.now }
{
    if is(word, b"A") {
        Some(Command::Node(Node::A))
    } else if is(word, b"B") {
        Some(Command::Node(Node::B))
    } else {
        None
    }
}

/// The command that two words spell.
fn of_two(first: &[u8], second: &[u8]) -> Option<Command>
    ensures { result ≡ spec.of_two first.now second.now }
{
    if is(first, b"break") {
        return break_at(second);
    }
    if is(first, b"node") {
        return node_at(second);
    }
    match count_of(second) {
        Some(number) => numbered(first, number),
        None => None,
    }
}

/// The command that three words spell.
fn of_three(first: &[u8], second: &[u8], third: &[u8]) -> Option<Command>
    ensures { result ≡ spec.of_three first.now second.now third.now }
{
    if !(is(first, b"break") && is(second, b"page")) {
        return None;
    }
    match count_of(third) {
        Some(number) => Some(Command::BreakPage(number)),
        None => None,
    }
}

/// The command that the words of a line spell, if they spell one.
pub fn command_of(words: &[&[u8]]) -> Option<Command>
    ensures { result ≡ spec.command_of (texts words.now) }
{
    match words {
        [first] => bare(first),
        [first, second] => of_two(first, second),
        [first, second, third] => of_three(first, second, third),
        _ => None,
    }
}
