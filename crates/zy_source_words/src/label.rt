//! Labels in statements, and the words that name one.

use crate::line::Statement;
use zy_isa::Operation;
use zy_text::names::label_of;

/// The label that a statement begins with.
pub fn label(statement: Statement<'_>) -> Option<&[u8]> {
    label_of(statement.text(0))
}

/// The number of the word at which a statement's instruction begins: 1 behind a label, else 0.
pub fn operation_at(statement: Statement<'_>) -> usize {
    usize::from(label(statement).is_some())
}

/// The label that is the target of a statement's jump.
pub fn target(statement: Statement<'_>) -> Option<&[u8]> {
    let at = operation_at(statement);
    let word = statement.text(at.saturating_add(3));
    match Operation::named(statement.text(at)) {
        Some(Operation::Jump(_)) if !word.is_empty() && !word.starts_with(b"@") => Some(word),
        _ => None,
    }
}
