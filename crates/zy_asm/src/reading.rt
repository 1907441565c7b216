//! Reads a text line by line.
ghost use Rattle.std.specs.Prelude.{◌≡◌, ◌<◌, IfOk, Some, length};
ghost use Rattle.zy_asm.specs.Reasons.{by_kind};
ghost use Rattle.zy_text.specs.Words.{lines_of, words_of};
ghost use Rattle.zy_text.specs.Lines.{first_line, first_words, lines_below, texts};
ghost use Rattle.zy_asm.specs.Reading.{Reads, nothing_seen, statement, body_line, step, line_step, reading};
ghost use Rattle.zy_asm.specs.Reading as spec;
ghost use Rattle.zy_asm.specs.Reading.Progress.{Steps, progress_of};

mod choices;
mod head;
mod keyword;
mod programs;
mod rows;
mod usual;

use crate::faults::{LineFault, Reason};
use crate::name_table::NameTable;
use crate::pending::Unresolved;
use crate::reading::keyword::{Keyword, keyword_of};
use crate::shown::WordStart;
use crate::state::{LinesAbove, Reader, Stage};
use crate::word_fault::WordFault;
use std::alloc::{AllocError, Global};
use zy_isa::{MAX_CHOICES, Rule, Version};
use zy_text::Words;
use zy_text::line::take_line;
use zy_text::names::label_of;

impl Reader {
    /// Nothing is read, and there is room for this many choices.
    fn new(alloc: Global, choices: usize) -> Result<Reader, AllocError>
        ensures { IfOk result (λ r. progress_of r ≡ nothing_seen) }
    {
        let choices = Vec::with_capacity(alloc, choices)?;
        Ok(Reader {
            alloc,
            stage: Stage::Zephyr,
            version: Version::One,
            cap: 2,
            pages: 1,
            rule: Rule::Held,
            rows: Vec::new(alloc),
            names: NameTable::new(alloc),
            programs: Vec::new(alloc),
            labels: NameTable::new(alloc),
            instrs: Vec::new(alloc),
            choices,
        })
    }

    /// Takes a line below the header, whose first word is this keyword.
    fn statement(&mut self, keyword: Keyword, words: &[&[u8]]) -> Result<(), WordFault>
        ensures { Steps result (progress_of self.new) (statement (Some keyword) (progress_of self.old)
            (texts words.now)) }
    {
        match keyword {
            Keyword::Header => Err(Reason::Misplaced.at(0)),
            Keyword::Row => self.row_line(words),
            Keyword::Txn => self.txn_line(words),
            Keyword::Instr(operation) => self.program_line(operation, words),
            Keyword::Choice(actor) => {
                self.close()?;
                self.choice_line(actor, words)
            }
            Keyword::End => {
                self.close()?;
                self.end_line(words)
            }
        }
    }

    /// Takes a line below the header: one that a label begins, or one by its keyword.
    fn body_line(&mut self, words: &[&[u8]]) -> Result<(), WordFault>
        ensures { Steps result (progress_of self.new) (body_line (progress_of self.old) (texts words.now)) }
    {
        let Some((first, rest)) = words.split_first() else {
            return Err(Reason::WordCount.at(0));
        };
        if let Some(label) = label_of(first) {
            return self.label_line(label, rest);
        }
        match keyword_of(self.version, first) {
            Some(keyword) => self.statement(keyword, rest),
            None => Err(Reason::NotKnown(WordStart::of(first)).at(0)),
        }
    }

    /// Takes a line with words.
    #[inline(never)]
    fn worded_line(&mut self, words: &[&[u8]]) -> Result<(), WordFault>
        ensures { Steps result (progress_of self.new) (step (progress_of self.old) (texts words.now)) }
    {
        match self.stage {
            Stage::Zephyr => self.zephyr_line(words),
            Stage::Cap => self.cap_line(words),
            Stage::Pages => self.pages_line(words),
            Stage::Rule => self.rule_line(words),
            Stage::Done => Err(Reason::BelowEnd.at(0)),
            _ => self.body_line(words),
        }
    }

    /// Takes a line.
    #[inline(always)]
    fn line(&mut self, words: &[&[u8]]) -> Result<(), WordFault>
        ensures { Steps result (progress_of self.new) (line_step (progress_of self.old) (texts words.now)) }
    {
        if let [first, second, third] = words {
            if let Some(instr) = self.usual_instr(first, second, third) {
                self.instrs
                    .push(Unresolved::Whole(instr))
                    .map_err(|_| Reason::NoMemory)?;
                return Ok(());
            }
        }
        if words.is_empty() {
            return Ok(());
        }
        self.worded_line(words)
    }

    /// Takes a text's first line, and gives what is below it.
    fn take<'a>(
        &mut self,
        words: &mut Words<'a>,
        text: &'a [u8],
    ) -> (Result<(), WordFault>, &'a [u8])
        requires { 0 < length text.now }
        ensures step { Steps result.0 (progress_of self.new)
            (line_step (progress_of self.old) (first_words (words_of (first_line text.entry.now)))) }
        ensures below { lines_of result.1.now ≡ lines_below text.entry.now }
        ensures shorter { length result.1.now < length text.entry.now }
    {
        let below = take_line(words, text);
        (self.line(words.as_slice()), below)
    }
}

/// The text has had its end.
fn end_reached(stage: Stage) -> Result<(), Reason>
    ensures { by_kind result ≡ spec.end_reached stage }
{
    match stage {
        Stage::Done => Ok(()),
        _ => Err(Reason::NoEnd),
    }
}

/// How many choices a text has if each of its lines is a choice of eight bytes, but no more than there may be.
fn likely_choices(text: &str) -> usize {
    (text.len() / 8).min(MAX_CHOICES)
}

/// Reads a whole text.
pub fn read(alloc: Global, text: &str) -> Result<Reader, LineFault>
    ensures { Reads result (reading text.now) }
{
    let Ok(mut reader) = Reader::new(alloc, likely_choices(text)) else {
        return Err(LineFault {
            line: 1,
            at: 0,
            reason: Reason::NoMemory,
            above: LinesAbove::none(),
        });
    };
    let mut words = Words::new();
    let mut rest = text.as_bytes();
    let mut line = 1usize;
    while !rest.is_empty() {
        // Apart from the others, since the bookkeeping of faults is a fifth of what such a line takes.
        if let Some(below) = reader.take_usual(rest) {
            rest = below;
            line += 1;
            continue;
        }
        let (outcome, below) = reader.take(&mut words, rest);
        rest = below;
        if let Err(fault) = outcome {
            return Err(reader.rejected(line, fault));
        }
        line += 1;
    }
    match end_reached(reader.stage) {
        Ok(()) => Ok(reader),
        Err(reason) => Err(reader.rejected(line, reason.at(0))),
    }
}
