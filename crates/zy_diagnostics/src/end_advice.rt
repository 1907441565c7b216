//! Advice on the end of a text, and on logs that follow a text without its line `end`.

use crate::command::CommandName;
use crate::header_statement::HeaderStatement;
use crate::text_advice::TextAdvice;
use std::fmt::{self, Formatter, Write};
use zy_asm::{Reason, Stage};
use zy_source_words::Statement;
use zy_source_words::line::is_line_feed;
use zy_text::names::is;

/// What to write above logs.
const END_ABOVE_LOGS: &'static str = "write end between the scenario and the lines of the logs";

/// Whether a line's only word is `end`.
fn is_end(line: &[u8]) -> bool {
    let statement = Statement::of(line);
    statement.count() == 1 && is(statement.text(0), b"end")
}

/// The output of `run` or `trace` that has this word below its line `end`.
fn output_with(word: &[u8]) -> Option<&'static str> {
    match word {
        b"steps" => Some("listing"),
        b"trace" => Some("trace"),
        _ => None,
    }
}

impl TextAdvice<'_> {
    /// Whether the rejected line is one of a log, and no line of the input is `end`.
    pub(crate) fn is_unended(&self) -> bool {
        let is_of_words = matches!(
            self.reason,
            Reason::WordCount | Reason::NotKnown(_) | Reason::NotAName(_)
        );
        let mut lines = self.input.split(is_line_feed);
        self.command == CommandName::Order && is_of_words && self.is_of_log() && !lines.any(is_end)
    }

    /// Whether the rejected line has an outcome, a message or a gap, or looks like an object.
    fn is_of_log(&self) -> bool {
        let line = self.statement;
        let has_of_log = line.has(b"->") || line.has(b"!") || is(line.text(1), b"...");
        has_of_log || line.text(0).starts_with(b"{")
    }

    /// Says that the line `end` is missing above the logs.
    pub(crate) fn tell_unended<W: Write>(&self, f: &mut Formatter<W>) -> fmt::Result {
        let advice = END_ABOVE_LOGS;
        write!(
            f,
            "this is a line of a log, and the scenario has no line end: {advice}"
        )
    }

    /// Says what the text has below its end.
    pub(crate) fn tell_below_end<W: Write>(&self, f: &mut Formatter<W>) -> fmt::Result {
        self.tell_end(f)?;
        match output_with(self.statement.text(0)) {
            Some(output) => write!(
                f,
                ": this is a {output}, of which {} takes the lines through end",
                self.command
            ),
            None => f.write_str(": only comments may be there"),
        }
    }

    /// Says that the text goes on below its end, and where it ends.
    fn tell_end<W: Write>(&self, f: &mut Formatter<W>) -> fmt::Result {
        match self.line_of(&["end"]) {
            Some(line) => write!(f, "{}, which is line {line}", self.reason),
            None => write!(f, "{}", self.reason),
        }
    }

    /// Says what should follow where the text stops.
    pub(crate) fn tell_no_end<W: Write>(&self, f: &mut Formatter<W>) -> fmt::Result {
        let stage = self.above.stage;
        self.tell_reason(f)?;
        if self.input.is_empty() {
            return f.write_str("the input is empty");
        }
        if let Some(next) = HeaderStatement::of(stage) {
            return write!(f, "the next statement is {}", next.pattern);
        }
        match stage {
            Stage::Program => {
                f.write_str("a program ends with commit or abort, and the text with end")
            }
            Stage::Choices if self.command == CommandName::Order => { f.write_str(END_ABOVE_LOGS) }
            _ => f.write_str("write end as its last line"),
        }
    }
}
