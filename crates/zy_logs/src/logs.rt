//! Reads the lines of logs of a text.
ghost use Rattle.std.specs.Prelude.{◌≡◌, ◌≤◌, ◌<◌, ◌+◌, length};
ghost use Rattle.zy_isa.specs.Limits.{max_txns};
ghost use Rattle.zy_text.specs.Lines.{texts, line_number_end};
ghost use Rattle.zy_text.specs.Words as text_words;
ghost use Rattle.zy_logs.specs.Logs as spec;
ghost use Rattle.zy_logs.specs.Logs.{Reads, TakesLine};

use crate::expected::ExpectedInLog;
use crate::faults::{LogFault, LogLineFault};
use crate::log_line::Logged;
use crate::reading::read_line;
use crate::text::{first_line, words_of};
use crate::txns::Txns;
use std::alloc::Global;

/// What a line of a log says, and the number of the line of the input that it is.
#[derive(Clone, Copy)]
pub struct NumberedLine {
    pub number: usize,
    pub logged: Logged,
}

/// Reads lines of logs one by one.
#[derive(Drop)]
struct LogReader<'a> {
    /// The transactions that the lines may name.
    txns: Txns<'a>,
    /// How many steps a gap counts for.
    gap: usize,
    /// How many steps there is room for.
    left: usize,
    /// What the lines that were read say.
    lines: Vec<NumberedLine>,
}

impl LogReader<'_> {
    /// What the words of line `number` say, if there are words.
    fn line_at(&self, number: usize, words: &[&[u8]]) -> Result<Option<NumberedLine>, LogLineFault>
        requires { self.now.txns.count ≤ max_txns }
        ensures { result ≡ spec.line_at self.now.txns self.now.gap self.now.left number (texts words.now) }
    {
        if words.is_empty() {
            return Ok(None);
        }
        match read_line(self.txns, words) {
            Ok(logged) => {
                if logged.steps(self.gap) <= self.left {
                    Ok(Some(NumberedLine { number, logged }))
                } else {
                    Err(LogLineFault {
                        line: number,
                        word: 0,
                        expected: ExpectedInLog::FewerLines,
                    })
                }
            }
            Err(misread) => Err(LogLineFault {
                line: number,
                word: misread.word,
                expected: misread.expected,
            }),
        }
    }

    /// Reads line `number` of a text: adds what it says, if it has words, after which there is less room.
    fn read(&mut self, alloc: Global, number: usize, line: &[u8]) -> Result<(), LogFault>
        requires { self.old.txns.count ≤ max_txns }
        ensures { TakesLine result self.old self.new (spec.line_at self.old.txns self.old.gap self.old.left number
            (text_words.words_of line.now)) }
    {
        let words = words_of(alloc, line)?;
        let Some(line) = self.line_at(number, &words)? else {
            return Ok(());
        };
        self.lines.push(line).map_err(|_| LogFault::Memory)?;
        self.left = self.left.saturating_sub(line.logged.steps(self.gap));
        Ok(())
    }
}

/// What the lines of logs of a text say, whose first line has number `first`, each with its number. A gap counts for `gap`
/// steps, and all count for at most `most`.
pub fn read_logs(
    alloc: Global,
    txns: Txns<'_>,
    gap: usize,
    most: usize,
    first: usize,
    text: &[u8],
) -> Result<Vec<NumberedLine>, LogFault>
    requires few { txns.count ≤ max_txns }
    requires numbers { first + length text.now < line_number_end }
    ensures { Reads result (spec.logs_of txns.entry gap most first text.now) }
{
    let mut reader = LogReader {
        txns,
        gap,
        left: most,
        lines: Vec::new(alloc),
    };
    let mut rest = text;
    let mut number = first;
    while !rest.is_empty() {
        let (line, below) = first_line(rest);
        reader.read(alloc, number, line)?;
        rest = below;
        number += 1;
    }
    Ok(reader.lines)
}
