//! The keywords: the first words of the lines below the header.
ghost use Rattle.std.specs.Prelude.{◌≡◌};
ghost use Rattle.zy_asm.specs.Reading.Keywords as spec;

use crate::choices::actor_of;
use zy_isa::{Actor, Operation, Version};
use zy_text::names::is;

/// What the first word of a line below the header says that the line is.
#[derive(Clone, Copy)]
pub enum Keyword {
    /// A line of the header, which has no place below it.
    Header,
    /// A row.
    Row,
    /// The beginning of a program.
    Txn,
    /// An instruction with this operation.
    Instr(Operation),
    /// A choice of this actor.
    Choice(Actor),
    /// The end of the text.
    End,
}

/// The keyword that a word is in a version.
pub fn keyword_of(version: Version, word: &[u8]) -> Option<Keyword>
    ensures { result ≡ spec.keyword_of version word.now }
{
    if let Some(operation) = Operation::named_in(version, word) {
        return Some(Keyword::Instr(operation));
    }
    if let Some(actor) = actor_of(word) {
        return Some(Keyword::Choice(actor));
    }
    if is(word, b"row") {
        Some(Keyword::Row)
    } else if is(word, b"txn") {
        Some(Keyword::Txn)
    } else if is(word, b"end") {
        Some(Keyword::End)
    } else if is(word, b"zephyr") || is(word, b"cap") || is(word, b"pages") || is(word, b"rule") {
        Some(Keyword::Header)
    } else {
        None
    }
}
