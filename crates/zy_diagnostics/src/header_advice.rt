//! Advice on the header of a text, and on bytes that are no text.

use crate::header_statement::HeaderStatement;
use crate::text_advice::TextAdvice;
use crate::unknown_word::begins_other_comment;
use std::fmt::{self, Formatter, Write};
use zy_source_words::prefix::number_behind;
use zy_source_words::{Bytes, NearestWord, Quoted};

/// A byte order mark in UTF-8.
const MARK: &[u8] = b"\xef\xbb\xbf";

/// How many bytes decide whether an input is text.
const FRONT: usize = 512;

/// What an input that is not UTF-8 is, by its first bytes.
fn other_format(input: &[u8]) -> Option<&'static str> {
    let front = input.get(..FRONT).unwrap_or(input);
    if front.starts_with(b"\xff\xfe") || front.starts_with(b"\xfe\xff") {
        Some("the text is UTF-16: save it as UTF-8")
    } else if front.starts_with(b"\x89PNG") {
        Some("this is a PNG picture, and not text")
    } else if front.starts_with(b"\x1f\x8b") {
        Some("this was compressed by gzip, and is not text")
    } else if front.starts_with(b"PK\x03\x04") {
        Some("this is a zip archive, and not text")
    } else if front.contains(&0) {
        Some("this is not text")
    } else {
        None
    }
}

impl TextAdvice<'_> {
    /// Says what is wrong with a line of the header.
    pub(crate) fn tell_header<W: Write>(&self, f: &mut Formatter<W>) -> fmt::Result {
        let Some(statement) = HeaderStatement::of(self.above.stage) else {
            return write!(f, "{}", self.reason);
        };
        if let Some(told) = self.wrong_bytes() {
            f.write_str(told)
        } else if !statement.begins(self.statement) {
            self.tell_other_statement(f, statement)
        } else if begins_other_comment(self.word()) {
            f.write_str("a comment begins with ;")
        } else {
            self.tell_statement(f, statement)
        }
    }

    /// What is wrong with the bytes of the line, whatever its words are.
    fn wrong_bytes(&self) -> Option<&'static str> {
        if self.line.number == 1 && self.input.starts_with(MARK) {
            Some("a byte order mark is before the text: save it without one")
        } else if self.statement.bytes.trim_ascii_end().contains(&b'\r') {
            Some("a CR ends no line: each line ends with LF")
        } else {
            None
        }
    }

    /// Says what follows the first word of this statement of the header.
    fn tell_statement<W: Write>(
        &self,
        f: &mut Formatter<W>,
        statement: HeaderStatement,
    ) -> fmt::Result {
        let pattern = statement.pattern;
        match statement.choice {
            Some(choice) if self.statement.count() == 2 => {
                write!(f, "there is no {choice} {}: {pattern}", Quoted(self.word()))
            }
            _ => write!(f, "{}: {pattern}", statement.takes),
        }
    }

    /// Says that this statement of the header should be here, and how the first word should be written if it is near to that.
    fn tell_other_statement<W: Write>(
        &self,
        f: &mut Formatter<W>,
        statement: HeaderStatement,
    ) -> fmt::Result {
        let word = self.statement.text(0);
        write!(
            f,
            "the {} statement is {}, and not {}",
            statement.ordinal,
            statement.pattern,
            Quoted(word)
        )?;
        if begins_other_comment(word) {
            return f.write_str(": a comment begins with ;");
        }
        let first = statement.word;
        if let Some(number) = number_behind(word, first.as_bytes()) {
            return write!(f, ": {first} {}, with a space between", Bytes(number));
        }
        match NearestWord::of(word, &[first]) {
            Some(nearest) => write!(f, ": {nearest}"),
            None => Ok(()),
        }
    }

    /// Says what is wrong where a byte is not UTF-8.
    pub(crate) fn tell_not_text<W: Write>(&self, f: &mut Formatter<W>) -> fmt::Result {
        match other_format(self.input) {
            Some(told) => f.write_str(told),
            None => write!(f, "{}: save the text as UTF-8", self.reason),
        }
    }
}
