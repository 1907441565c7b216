//! A scenario text with other choices, in its own words.

use std::alloc::{AllocError, Global};
use zy_asm::names::names_of;
use zy_io::{Decimal, Line, LineBuffer, joined};
use zy_isa::Choice;
use zy_text::line::take_line;
use zy_text::names::is;
use zy_text::numbers::number_of;
use zy_text::{Canonical, Words};

/// How a scenario is written.
#[derive(Clone, Copy)]
pub enum Wording {
    /// As the input has it: with its comments, and with the names of its transactions.
    Own,
    /// As canonical text.
    Canonical,
}

/// What a line of a scenario text is.
#[derive(Clone, Copy)]
enum LineKind {
    /// A choice, and how often it is made.
    Choice(usize),
    /// The end.
    End,
    /// Something else.
    Other,
}

/// How often the choice of a line is made: N behind `x`, or else once.
fn times(words: &[&[u8]]) -> usize {
    match words {
        [.., x, count] if is(x, b"x") => number_of(count).unwrap_or(1) as usize,
        _ => 1,
    }
}

impl LineKind {
    /// What a line is, by its words.
    fn of(line: &[u8]) -> LineKind {
        if line.is_empty() {
            return LineKind::Other;
        }
        let mut words = Words::new();
        take_line(&mut words, line);
        match words.as_slice() {
            [b"A" | b"B" | b"C", ..] => LineKind::Choice(times(words.as_slice())),
            [b"end"] => LineKind::End,
            _ => LineKind::Other,
        }
    }
}

/// The parts of a scenario text that its own words are kept of.
#[derive(Clone, Copy)]
struct Parts {
    /// How many bytes are above the first choice that is not kept whole, or above the end.
    above: usize,
    /// How many choices they have.
    choices: usize,
    /// How many bytes are above the end.
    body: usize,
}

impl Parts {
    /// Those of a text of which this number of choices is kept.
    fn of(text: &[u8], kept: usize) -> Parts {
        let mut parts = Parts {
            above: 0,
            choices: 0,
            body: 0,
        };
        for line in text.split(|byte| *byte == b'\n') {
            let kind = LineKind::of(line);
            if matches!(kind, LineKind::End) {
                break;
            }
            parts.add(kind, line.len().saturating_add(1), kept);
        }
        parts
    }

    /// Goes on over a line of this length.
    fn add(&mut self, kind: LineKind, len: usize, kept: usize) {
        let is_whole = self.above == self.body;
        self.body = self.body.saturating_add(len);
        let count = match kind {
            LineKind::Choice(count) => count,
            _ => 0,
        };
        let choices = self.choices.saturating_add(count);
        if is_whole && choices <= kept {
            self.choices = choices;
            self.above = self.body;
        }
    }
}

/// Appends the name of a transaction, or else its number.
fn append_txn(names: &[&[u8]], txn: u8, line: &mut LineBuffer) -> Result<(), AllocError> {
    match names.get(usize::from(txn)) {
        Some(name) if !name.is_empty() => line.push_bytes(name),
        _ => Decimal(txn).append(line),
    }
}

/// Appends a choice as a line, with the names of the transactions.
fn append_choice(names: &[&[u8]], choice: Choice, line: &mut LineBuffer) -> Result<(), AllocError> {
    match choice {
        Choice::Begin(txn) => {
            "C begin ".append(line)?;
            append_txn(names, txn, line)?;
        }
        Choice::Kill(txn) => {
            "C kill ".append(line)?;
            append_txn(names, txn, line)?;
        }
        Choice::Run(node, txn) => {
            line.push_piece(joined!(Canonical(node), b" run "))?;
            append_txn(names, txn, line)?;
        }
        other => line.push_piece(Canonical(other))?,
    }
    line.push(b'\n')
}

/// The text of a scenario with these choices in place of its own, of which the first `kept` are its own. All above the
/// first line whose choices do not all stay is as it is written there, and so is all from the line `end` on; the lines
/// between, comments too, go. Each choice that is left gets a line.
pub(crate) fn reworded(
    alloc: Global,
    text: &[u8],
    kept: usize,
    choices: &[Choice],
) -> Result<LineBuffer, AllocError> {
    let names = names_of(alloc, text)?;
    let parts = Parts::of(text, kept);
    let mut reworded = LineBuffer::new(alloc);
    let (above, _) = text.split_at(parts.above.min(text.len()));
    reworded.push_bytes(above)?;
    for choice in choices.iter().skip(parts.choices) {
        append_choice(&names, *choice, &mut reworded)?;
    }
    let (_, end) = text.split_at(parts.body.min(text.len()));
    reworded.push_bytes(end)?;
    Ok(reworded)
}
