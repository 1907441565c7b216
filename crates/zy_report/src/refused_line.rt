//! Why a line of a log is rejected.

use crate::origin::Origin;
use std::fmt::{self, Formatter, Write};
use zy_logs::LogLineFault;
use zy_source_words::{MarkedWord, SourceLine, SourceWord, Statement};

/// A line of a log that is rejected, and the word that does not fit.
#[derive(Clone, Copy)]
pub struct RefusedLine<'a> {
    file: Option<&'a str>,
    input: &'a [u8],
    refusal: LogLineFault,
}

impl<'a> RefusedLine<'a> {
    /// Why a line of this input (of this file, if there is one) is not a line of a log.
    pub fn of(file: Option<&'a str>, input: &'a [u8], refusal: LogLineFault) -> RefusedLine<'a> {
        RefusedLine {
            file,
            input,
            refusal,
        }
    }

    /// The line as far as its comment.
    fn statement(self) -> Statement<'a> {
        SourceLine::of(self.input, self.refusal.line).statement()
    }

    /// Whether the line looks like an object.
    fn is_object(self) -> bool {
        self.statement().text(0).starts_with(b"{")
    }
}

/// The word of this number in a line, from 0; where it is missing, the end of the line.
pub fn misfit(statement: Statement<'_>, number: usize) -> MarkedWord<'_> {
    let end = SourceWord {
        start: statement.bytes.trim_ascii_end().len(),
        bytes: &[],
    };
    MarkedWord::of(statement.bytes, statement.word(number).unwrap_or(end))
}

/// Where it is, the fault's name, what is expected, and the line with the word at fault marked; the flag that reads objects, where
/// the line looks like one.
impl fmt::Display for RefusedLine<'_> {
    fn fmt<W: Write>(&self, f: &mut Formatter<W>) -> fmt::Result {
        let refusal = self.refusal;
        let place = misfit(self.statement(), refusal.word);
        let origin = Origin::at(self.file, place.position(refusal.line));
        write!(f, "{origin}: {refusal} ({place})")?;
        if self.is_object() {
            f.write_str(": --json reads objects")?;
        }
        Ok(())
    }
}
