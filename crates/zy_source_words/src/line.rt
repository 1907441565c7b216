//! The lines of a source, and the words of a line.

use memchr::memchr;
use zy_text::line::is_space;
use zy_text::names::is;

/// Whether a byte ends a line.
pub fn is_line_feed(byte: &u8) -> bool {
    *byte == b'\n'
}

/// Whether a byte separates words.
fn is_gap(byte: &u8) -> bool {
    is_space(*byte)
}

/// A line of a source.
#[derive(Clone, Copy)]
pub struct SourceLine<'a> {
    /// Its number, from 1.
    pub number: usize,
    /// Its bytes, without the line feed.
    pub bytes: &'a [u8],
}

impl<'a> SourceLine<'a> {
    /// The line of this number; an empty one if the source has fewer.
    pub fn of(source: &'a [u8], number: usize) -> SourceLine<'a> {
        let bytes = source.split(is_line_feed).nth(number.saturating_sub(1));
        SourceLine {
            number,
            bytes: bytes.unwrap_or(&[]),
        }
    }

    /// The line without its comment.
    pub fn statement(self) -> Statement<'a> {
        Statement::of(self.bytes)
    }
}

/// The lines of a source above the one of this number.
pub fn lines_above(source: &[u8], number: usize) -> &[u8] {
    let mut rest = source;
    for _ in 1..number {
        let (_, below) = first_line(rest);
        rest = below;
    }
    let front = source.get(..source.len().saturating_sub(rest.len()));
    front.unwrap_or(source)
}

/// The line of this number, from 1, with its line feed; empty if the source has fewer.
pub fn whole_line(source: &[u8], number: usize) -> &[u8] {
    let above = lines_above(source, number);
    let (line, _) = first_line(source.get(above.len()..).unwrap_or(&[]));
    line
}

/// The first line of a text with its line feed, and the rest.
fn first_line(text: &[u8]) -> (&[u8], &[u8]) {
    let end = memchr(b'\n', text).map_or(text.len(), |end| end.saturating_add(1));
    text.split_at(end.min(text.len()))
}

/// A word of a line.
#[derive(Clone, Copy)]
pub struct SourceWord<'a> {
    /// How many bytes of the line precede it.
    pub start: usize,
    /// Its bytes.
    pub bytes: &'a [u8],
}

/// A line without its comment.
#[derive(Clone, Copy)]
pub struct Statement<'a> {
    /// Its bytes.
    pub bytes: &'a [u8],
}

impl<'a> Statement<'a> {
    /// The part of a line before its comment.
    pub fn of(line: &'a [u8]) -> Statement<'a> {
        let end = line.iter().position(|byte| *byte == b';');
        let front = end.and_then(|end| line.get(..end));
        Statement {
            bytes: front.unwrap_or(line),
        }
    }

    /// The word of this number, from 0.
    pub fn word(self, number: usize) -> Option<SourceWord<'a>> {
        let mut start = 0usize;
        let mut count = 0usize;
        for bytes in self.bytes.split(is_gap) {
            if !bytes.is_empty() {
                if count == number {
                    return Some(SourceWord { start, bytes });
                }
                count = count.saturating_add(1);
            }
            start = start.saturating_add(bytes.len()).saturating_add(1);
        }
        None
    }

    /// The bytes of the word of this number; none if there are fewer.
    pub fn text(self, number: usize) -> &'a [u8] {
        match self.word(number) {
            Some(word) => word.bytes,
            None => &[],
        }
    }

    /// Whether this is one of its words.
    pub fn has(self, word: &[u8]) -> bool {
        let mut words = self.bytes.split(is_gap);
        words.any(|other| is(other, word))
    }

    /// The bytes of the last word; none if there is no word.
    pub fn last(self) -> &'a [u8] {
        self.text(self.count().saturating_sub(1))
    }

    /// How many words there are.
    pub fn count(self) -> usize {
        let words = self.bytes.split(is_gap);
        words.filter(|word| !word.is_empty()).count()
    }
}
