//! A word of a line with marks around it, which show where a fault is.

use crate::bytes::{show_byte, show_code};
use crate::line::{SourceLine, SourceWord};
use crate::position::Position;
use std::fmt::{self, Formatter, Write};

/// The most bytes that are shown of a word, and on each side of it.
const MOST: usize = 40;

/// A word of a line, shown between those on each side of it.
#[derive(Clone, Copy)]
pub struct MarkedWord<'a> {
    /// The number of its line, if the fault is in another line.
    line: Option<usize>,
    before: &'a [u8],
    word: &'a [u8],
    after: &'a [u8],
    /// Whether a `>` or `<` of the line is shown as `\xNN`, so that the only ones shown are the marks.
    has_lone_marks: bool,
}

impl<'a> MarkedWord<'a> {
    /// A word of these bytes of a line.
    pub fn of(bytes: &'a [u8], word: SourceWord<'a>) -> MarkedWord<'a> {
        let (before, rest) = bytes.split_at(word.start.min(bytes.len()));
        let (word, after) = rest.split_at(word.bytes.len().min(rest.len()));
        MarkedWord {
            line: None,
            before,
            word,
            after: after.trim_ascii_end(),
            has_lone_marks: false,
        }
    }

    /// This word, in a line that has `>` and `<` among its words: the only ones shown as such are the marks.
    pub fn with_lone_marks(self) -> MarkedWord<'a> {
        MarkedWord {
            has_lone_marks: true,
            ..self
        }
    }

    /// The word of this number in a line, from 0; the first one if the line has fewer.
    pub fn word(line: SourceLine<'a>, number: usize) -> Option<MarkedWord<'a>> {
        let statement = line.statement();
        let word = statement.word(number).or(statement.word(0))?;
        Some(MarkedWord::of(statement.bytes, word))
    }

    /// The word of this number in a line other than the fault's; it is shown with its line number.
    pub fn word_elsewhere(line: SourceLine<'a>, number: usize) -> Option<MarkedWord<'a>> {
        let mut place = MarkedWord::word(line, number)?;
        place.line = Some(line.number);
        Some(place)
    }

    /// The position of the word, where this is the line of the fault.
    pub fn position(self, line: usize) -> Position {
        Position {
            line: self.line.unwrap_or(line),
            column: self.column(),
        }
    }

    /// The column of the word, from 1 and in characters.
    fn column(self) -> usize {
        characters(self.before).saturating_add(1)
    }
}

/// The column, from 1 and in characters, and the line with the word between `>` and `<`. Two dots stand for bytes that
/// are cut off, and `\xNN` for a byte that does not print.
impl fmt::Display for MarkedWord<'_> {
    fn fmt<W: Write>(&self, f: &mut Formatter<W>) -> fmt::Result {
        self.show_position(f)?;
        self.show_end(f, self.before)?;
        self.show_front(f, ">", self.word)?;
        self.show_front(f, "<", self.after)?;
        f.write_str("'")
    }
}

/// The dots for the bytes that are cut off, if any are.
fn dots(bytes: &[u8]) -> &'static str {
    if bytes.len() > MOST { ".." } else { "" }
}

/// The number of characters in some UTF-8.
fn characters(bytes: &[u8]) -> usize {
    bytes.iter().filter(|byte| **byte & 0xc0 != 0x80).count()
}

impl MarkedWord<'_> {
    /// Shows the column, with the line number if the fault is in another line.
    fn show_position<W: Write>(self, f: &mut Formatter<W>) -> fmt::Result {
        let column = self.column();
        match self.line {
            Some(line) => write!(f, "line {line}, column {column}: '"),
            None => write!(f, "column {column}: '"),
        }
    }

    /// Shows the last bytes before the word.
    fn show_end<W: Write>(self, f: &mut Formatter<W>, bytes: &[u8]) -> fmt::Result {
        let cut = bytes.len().saturating_sub(MOST);
        f.write_str(dots(bytes))?;
        self.show(f, bytes.get(cut..).unwrap_or(&[]))
    }

    /// Shows a mark, and the first bytes of the word or of what follows it.
    fn show_front<W: Write>(self, f: &mut Formatter<W>, mark: &str, bytes: &[u8]) -> fmt::Result {
        f.write_str(mark)?;
        self.show(f, bytes.get(..MOST).unwrap_or(bytes))?;
        f.write_str(dots(bytes))
    }

    /// Shows bytes.
    fn show<W: Write>(self, f: &mut Formatter<W>, bytes: &[u8]) -> fmt::Result {
        for byte in bytes {
            match *byte {
                mark @ (b'<' | b'>') if self.has_lone_marks => show_code(f, mark)?,
                other => show_byte(f, other)?,
            }
        }
        Ok(())
    }
}
