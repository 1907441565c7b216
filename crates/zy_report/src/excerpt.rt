//! Lines of an input and of a listing, as a person is shown them.

use std::fmt::{self, Formatter, Write};
use zy_source_words::prefix::common_prefix;
use zy_source_words::{Bytes, Position};
use zy_text::names::is;

/// How many bytes of a line are shown.
const MOST: usize = 120;

/// How many bytes are shown in front of the first one that differs.
const BEFORE: usize = 60;

/// A line of an input that is not that of the listing.
#[derive(Clone, Copy)]
pub struct Differing<'a> {
    /// Its number, from 1.
    pub number: usize,
    /// The line of the input, with its line feed; empty if the input ends above it.
    pub is: &'a [u8],
    /// The line of the listing; empty if the listing ends above it.
    pub expected: &'a [u8],
    /// Whether the input has nothing below its scenario.
    pub is_scenario: bool,
}

impl Differing<'_> {
    /// How many bytes of the line are right.
    fn right(&self) -> usize {
        common_prefix(self.is, self.expected)
    }

    /// Whether the steps of a trace begin where those of a listing are to begin.
    fn is_trace(&self) -> bool {
        is(self.is, b"trace\n") && is(self.expected, b"steps\n")
    }

    /// Whether an extra carriage return is all that is wrong with the line.
    fn has_return(&self) -> bool {
        match (self.is, self.expected) {
            ([is @ .., b'\r', b'\n'], [expected @ .., b'\n']) => is == expected,
            _ => false,
        }
    }

    /// The first place that is not right.
    pub fn position(&self) -> Position {
        Position {
            line: self.number,
            column: self.right().saturating_add(1),
        }
    }
}

impl fmt::Display for Differing<'_> {
    fn fmt<W: Write>(&self, f: &mut Formatter<W>) -> fmt::Result {
        if self.is_scenario {
            f.write_str("this is a scenario without its listing: ")?;
        } else if self.is_trace() {
            f.write_str("this is a trace, and check reads a listing, as run writes it: ")?;
        }
        let number = self.number;
        let at = self.right();
        let (is, expected) = (Excerpt::of(self.is, at), Excerpt::of(self.expected, at));
        if self.expected.is_empty() {
            write!(f, "line {number} is {is}, and the listing ends above it")
        } else if self.is.is_empty() {
            write!(f, "the listing goes on with line {number}, {expected}")
        } else {
            let column = self.position().column;
            write!(
                f,
                "line {number} is {is} and should be {expected}, from column {column} on"
            )?;
            if self.has_return() {
                f.write_str(": the lines of a listing end with a line feed alone")?;
            }
            Ok(())
        }
    }
}

/// The part of a line that is shown.
#[derive(Clone, Copy)]
pub struct Excerpt<'a> {
    is_cut: bool,
    shown: &'a [u8],
    is_cut_behind: bool,
}

impl<'a> Excerpt<'a> {
    /// The part of a line around this place.
    pub fn of(line: &'a [u8], at: usize) -> Excerpt<'a> {
        let (_, rest) = line.split_at(at.saturating_sub(BEFORE).min(line.len()));
        let (shown, behind) = rest.split_at(MOST.min(rest.len()));
        Excerpt {
            is_cut: at > BEFORE,
            shown,
            is_cut_behind: !behind.is_empty(),
        }
    }
}

/// In quotes; a line feed is shown as `\n`, another byte that does not print as `\xNN`, and what was cut off as two
/// dots.
impl fmt::Display for Excerpt<'_> {
    fn fmt<W: Write>(&self, f: &mut Formatter<W>) -> fmt::Result {
        f.write_str(if self.is_cut { "..'" } else { "'" })?;
        for byte in self.shown {
            if *byte == b'\n' {
                f.write_str("\\n")?;
            } else {
                write!(f, "{}", Bytes(&[*byte]))?;
            }
        }
        f.write_str(if self.is_cut_behind { "'.." } else { "'" })
    }
}
