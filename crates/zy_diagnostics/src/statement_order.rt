//! Advice on the order of statements and on their number.

use crate::header_statement::begins_as_header;
use crate::text_advice::TextAdvice;
use std::fmt::{self, Formatter, Write};
use zy_text::names::is;

impl TextAdvice<'_> {
    /// Says where a misplaced statement is allowed.
    pub(crate) fn tell_misplaced<W: Write>(&self, f: &mut Formatter<W>) -> fmt::Result {
        let word = self.word();
        self.tell_reason(f)?;
        if begins_as_header(self.statement) {
            f.write_str("zephyr, cap, pages and rule come once, at the head of the text")
        } else if is(word, b"row") {
            f.write_str("rows come above the first program")
        } else {
            self.tell_place_of(f, word)
        }
    }

    /// Says where programs, or instructions and labels, are allowed.
    fn tell_place_of<W: Write>(&self, f: &mut Formatter<W>, word: &[u8]) -> fmt::Result {
        let (allowed, above) = if is(word, b"txn") {
            ("programs come above the first choice", "")
        } else {
            (
                "an instruction or a label belongs in a program",
                ", above the first choice",
            )
        };
        f.write_str(allowed)?;
        match self.line_of(&["A", "B", "C"]) {
            Some(line) => write!(f, "{above}, which is line {line}"),
            None => f.write_str(", below its line txn T"),
        }
    }

    /// Says that the rows need too many pages.
    pub(crate) fn tell_page_count<W: Write>(&self, f: &mut Formatter<W>) -> fmt::Result {
        let rows = self.above.cap.saturating_add(1) / 2;
        write!(
            f,
            "{}: a page opens with (cap + 1) / 2 rows, here {rows}: raise pages or cap",
            self.reason
        )
    }
}

/// Says that the key of a row is not above that of the row before.
pub(crate) fn tell_not_above<W: Write>(f: &mut Formatter<W>, key: u16, last: u16) -> fmt::Result {
    if key == last {
        write!(f, "the key {key} has a row already: each key has one")
    } else {
        write!(
            f,
            "the key {key} is not above the last one, {last}: rows come in the order of their keys"
        )
    }
}
