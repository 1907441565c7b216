//! The programs of a scenario's text.

use crate::bytes::Bytes;
use crate::label::{label, operation_at, target};
use crate::line::{SourceLine, Statement, is_line_feed};
use crate::nearest_word::is_near;
use std::fmt::{self, Formatter, Write};
use zy_isa::MAX_TXNS;
use zy_text::names::{is, is_numeral};

/// A program of a scenario's text.
#[derive(Clone, Copy)]
pub struct SourceProgram<'a> {
    number: usize,
    /// The word behind its `txn`.
    word: &'a [u8],
    /// The line of its `txn`.
    pub line: usize,
    /// The lines below that.
    below: &'a [u8],
}

impl<'a> SourceProgram<'a> {
    /// The program of this number, from 0, in the first lines of a source.
    pub fn of(lines: &'a [u8], number: usize) -> Option<SourceProgram<'a>> {
        let mut count = 0usize;
        let mut start = 0usize;
        for (index, bytes) in lines.split(is_line_feed).enumerate() {
            start = start.saturating_add(bytes.len()).saturating_add(1);
            let statement = Statement::of(bytes);
            if is(statement.text(0), b"txn") {
                if count == number {
                    return Some(SourceProgram {
                        number,
                        word: statement.text(1),
                        line: index.saturating_add(1),
                        below: lines.get(start..).unwrap_or(&[]),
                    });
                }
                count = count.saturating_add(1);
            }
        }
        None
    }

    /// The program of this name.
    pub fn named(lines: &'a [u8], name: &[u8]) -> Option<SourceProgram<'a>> {
        for number in 0..MAX_TXNS {
            let program = SourceProgram::of(lines, number)?;
            if is(program.word, name) {
                return Some(program);
            }
        }
        None
    }

    /// The first program with a name that is near to this word.
    pub fn nearest(lines: &'a [u8], word: &[u8]) -> Option<SourceProgram<'a>> {
        for number in 0..MAX_TXNS {
            let program = SourceProgram::of(lines, number)?;
            if !is_numeral(program.word) && is_near(word, program.word) {
                return Some(program);
            }
        }
        None
    }

    /// The line number of the line at this index below `txn`.
    fn number_at(self, index: usize) -> usize {
        self.line.saturating_add(1).saturating_add(index)
    }

    /// How many instructions it has.
    pub fn count(self) -> usize {
        let lines = self.below.split(is_line_feed);
        lines.filter(|line| has_instruction(line)).count()
    }

    /// The line of its instruction of this number, from 0.
    pub fn instruction(self, number: usize) -> Option<SourceLine<'a>> {
        let mut count = 0usize;
        for (index, bytes) in self.below.split(is_line_feed).enumerate() {
            if has_instruction(bytes) {
                if count == number {
                    return Some(SourceLine {
                        number: self.number_at(index),
                        bytes,
                    });
                }
                count = count.saturating_add(1);
            }
        }
        None
    }

    /// The number of the line that defines this label.
    pub fn line_of_label(self, name: &[u8]) -> Option<usize> {
        let mut lines = self.below.split(is_line_feed);
        let index = lines.position(|line| has_label(line, name))?;
        Some(self.number_at(index))
    }

    /// The first line with a target that no line defines, and that target.
    pub fn missing_label(self) -> Option<(SourceLine<'a>, &'a [u8])> {
        for (index, bytes) in self.below.split(is_line_feed).enumerate() {
            if let Some(name) = self.missing_in(bytes) {
                let number = self.number_at(index);
                return Some((SourceLine { number, bytes }, name));
            }
        }
        None
    }

    /// The target of a line, if no line defines it.
    fn missing_in(self, line: &'a [u8]) -> Option<&'a [u8]> {
        let name = target(Statement::of(line))?;
        match self.line_of_label(name) {
            Some(_) => None,
            None => Some(name),
        }
    }

    /// The first label that is near to a word.
    pub fn nearest_label(self, word: &[u8]) -> Option<&'a [u8]> {
        for bytes in self.below.split(is_line_feed) {
            if let Some(name) = label(Statement::of(bytes)) {
                if is_near(word, name) {
                    return Some(name);
                }
            }
        }
        None
    }
}

/// Whether a line defines this label.
fn has_label(line: &[u8], name: &[u8]) -> bool {
    label(Statement::of(line)).is_some_and(|label| is(label, name))
}

/// Whether a line of a program has an instruction.
fn has_instruction(line: &[u8]) -> bool {
    let statement = Statement::of(line);
    statement.word(operation_at(statement)).is_some()
}

/// Its number, and its name if it has one.
impl fmt::Display for SourceProgram<'_> {
    fn fmt<W: Write>(&self, f: &mut Formatter<W>) -> fmt::Result {
        let number = self.number;
        if is_numeral(self.word) {
            write!(f, "program {number}")
        } else {
            write!(f, "program {number} ({})", Bytes(self.word))
        }
    }
}
