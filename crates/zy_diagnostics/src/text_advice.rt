//! Advice on a rejected text.

use crate::command::{CommandName, ForImage};
use crate::image_advice::is_image;
use crate::statement_form::StatementForm;
use crate::statement_order::tell_not_above;
use std::fmt::{self, Formatter, Write};
use std::str::from_utf8;
use zy_asm::{LineFault, LinesAbove, Reason};
use zy_isa::ProgramFault;
use zy_source_words::label::operation_at;
use zy_source_words::line::{SourceLine, SourceWord, Statement, is_line_feed, lines_above};
use zy_source_words::nearest_word::is_one_of;
use zy_source_words::{MarkedWord, Position};

/// Why a command rejects a text: what is wrong, what to write, and where.
#[derive(Clone, Copy)]
pub struct TextAdvice<'a> {
    pub(crate) command: CommandName,
    pub(crate) input: &'a [u8],
    pub(crate) reason: Reason,
    /// The number of the word at fault in its line.
    pub(crate) at: usize,
    /// The lines above the rejected one.
    pub(crate) lines: &'a [u8],
    /// What they say.
    pub(crate) above: LinesAbove,
    pub(crate) line: SourceLine<'a>,
    pub(crate) statement: Statement<'a>,
}

impl<'a> TextAdvice<'a> {
    /// Why this command rejects this input.
    pub fn of(command: CommandName, input: &'a [u8], refusal: LineFault) -> TextAdvice<'a> {
        let lines = lines_above(input, refusal.line);
        let line = SourceLine::of(input, refusal.line);
        TextAdvice {
            command,
            input,
            reason: refusal.reason,
            at: refusal.at,
            lines,
            above: refusal.above,
            line,
            statement: line.statement(),
        }
    }

    /// The position of the word at fault, or else of the beginning of the rejected line.
    pub fn position(&self) -> Position {
        let number = self.line.number;
        match self.marked_word() {
            Some(marked) if !is_image(self.input) => marked.position(number),
            _ => Position {
                line: number,
                column: 1,
            },
        }
    }
}

impl fmt::Display for TextAdvice<'_> {
    fn fmt<W: Write>(&self, f: &mut Formatter<W>) -> fmt::Result {
        if is_image(self.input) {
            return write!(f, "{}", ForImage(self.command));
        }
        self.tell(f)?;
        match self.marked_word() {
            Some(marked) => write!(f, " ({marked})"),
            None => Ok(()),
        }
    }
}

impl<'a> TextAdvice<'a> {
    /// The form of the line, if its first words are known.
    pub(crate) fn form(&self) -> Option<StatementForm<'a>> {
        StatementForm::of(self.above.version, self.statement)
    }

    /// The word at fault.
    pub(crate) fn word(&self) -> &'a [u8] {
        self.statement.text(self.at)
    }

    /// The number of the first line above that begins with one of these words.
    pub(crate) fn line_of(&self, words: &[&str]) -> Option<usize> {
        for (index, line) in self.lines.split(is_line_feed).enumerate() {
            if is_one_of(Statement::of(line).text(0), words) {
                return Some(index.saturating_add(1));
            }
        }
        None
    }

    /// Says what the reader found, before what to write.
    pub(crate) fn tell_reason<W: Write>(&self, f: &mut Formatter<W>) -> fmt::Result {
        write!(f, "{}: ", self.reason)
    }

    /// Says what is wrong, and what to write.
    fn tell<W: Write>(&self, f: &mut Formatter<W>) -> fmt::Result {
        if self.is_unended() {
            return self.tell_unended(f);
        }
        match self.reason {
            Reason::NotTheHeader => self.tell_header(f),
            Reason::NotText => self.tell_not_text(f),
            Reason::NotKnown(_) => self.tell_not_known(f),
            Reason::NotAName(_) => self.tell_no_name(f),
            Reason::NotAnInstr(_) => self.tell_no_instruction(f),
            Reason::WordCount => self.tell_count(f),
            Reason::NotDigits(_) | Reason::OutOfRange { .. } => self.tell_number(f),
            Reason::Misplaced => self.tell_misplaced(f),
            Reason::BelowEnd => self.tell_below_end(f),
            Reason::NoEnd => self.tell_no_end(f),
            _ => self.tell_of_others(f),
        }
    }

    /// Says what is wrong with a line that is well formed but does not fit the others.
    fn tell_of_others<W: Write>(&self, f: &mut Formatter<W>) -> fmt::Result {
        match self.reason {
            Reason::NotAbove { key, last } => tell_not_above(f, key, last),
            Reason::NoTransaction { number, .. } => self.tell_no_transaction(f, number),
            Reason::NoName(_) => self.tell_no_program_of_name(f),
            Reason::NotOwnNumber { own, .. } => write!(f, "{}: txn {own}", self.reason),
            Reason::NameTwice(_) => self.tell_name_twice(f),
            Reason::PageCount { .. } => self.tell_page_count(f),
            _ => match self.program() {
                Some(program) => self.tell_of_program(f, program),
                None => write!(f, "{}", self.reason),
            },
        }
    }

    /// The word to mark.
    fn marked_word(&self) -> Option<MarkedWord<'a>> {
        if self.is_unended() {
            return MarkedWord::word(self.line, 0);
        }
        match self.reason {
            Reason::NoEnd | Reason::NoMemory => None,
            Reason::NotText => self.wrong_byte(),
            Reason::NoLabel(_) => {
                let (line, _) = self.program()?.missing_label()?;
                target_of(line)
            }
            Reason::NoProgram { fault, .. } => self.place_in_program(fault),
            _ => MarkedWord::word(self.line, self.at),
        }
    }

    /// The first byte that is not UTF-8.
    fn wrong_byte(&self) -> Option<MarkedWord<'a>> {
        let Err(error) = from_utf8(self.input) else {
            return None;
        };
        let start = error.valid_up_to().saturating_sub(self.lines.len());
        let rest = self.line.bytes.get(start..)?;
        let bytes = rest.get(..1)?;
        Some(MarkedWord::of(self.line.bytes, SourceWord { start, bytes }))
    }

    /// The instruction at fault in the last program, or else its `txn`.
    fn place_in_program(&self, fault: ProgramFault) -> Option<MarkedWord<'a>> {
        let program = self.program()?;
        match fault {
            ProgramFault::Target(at) => target_of(program.instruction(usize::from(at))?),
            ProgramFault::NoEnd => {
                let line = program.instruction(program.count().saturating_sub(1))?;
                MarkedWord::word_elsewhere(line, operation_at(line.statement()))
            }
            _ => MarkedWord::word_elsewhere(SourceLine::of(self.input, program.line), 0),
        }
    }
}

/// The target of a line's jump.
fn target_of(line: SourceLine<'_>) -> Option<MarkedWord<'_>> {
    MarkedWord::word_elsewhere(line, operation_at(line.statement()).saturating_add(3))
}
