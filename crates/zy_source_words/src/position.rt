//! A position in a source.

/// A position in a source.
#[derive(Clone, Copy)]
pub struct Position {
    /// The number of the line, from 1.
    pub line: usize,
    /// The number of the character in the line, from 1.
    pub column: usize,
}
