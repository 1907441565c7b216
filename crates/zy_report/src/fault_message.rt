//! A fault of an input, with what to do about it.

use crate::failure::Failure;
use crate::origin::Origin;
use std::fmt::{self, Formatter, Write};
use zy_diagnostics::{CommandName, ImageAdvice, TextAdvice};
use zy_engine::BenchFault;

/// What a command has read.
#[derive(Clone, Copy)]
pub struct InputRead<'a> {
    /// The command that has read it.
    pub command: CommandName,
    /// The name of the file that it begins with.
    pub file: Option<&'a str>,
    /// How many lines precede standard input, if it is read below a file.
    pub lines: Option<usize>,
    /// The bytes that were read from the file and from standard input.
    pub bytes: &'a [u8],
    /// Why it was not read to its end.
    pub failure: Option<Failure>,
}

/// A fault, as standard error shows it.
#[derive(Clone, Copy)]
pub struct FaultMessage<'a> {
    reading: InputRead<'a>,
    fault: BenchFault,
}

impl<'a> FaultMessage<'a> {
    /// Why a command rejects what it has read.
    pub fn of(reading: InputRead<'a>, fault: BenchFault) -> FaultMessage<'a> {
        FaultMessage { reading, fault }
    }

    /// Where the fault is.
    fn origin(&self) -> Origin<'a> {
        let InputRead { command, bytes, .. } = self.reading;
        let file = self.reading.file;
        match self.fault {
            BenchFault::Input(refusal) => {
                let position = TextAdvice::of(command, bytes, refusal).position();
                match (file, self.reading.lines) {
                    (Some(file), Some(lines)) if position.line > lines => {
                        Origin::LineUnended(file, position.line.saturating_sub(lines))
                    }
                    _ => Origin::at(file, position),
                }
            }
            BenchFault::Image(_) | BenchFault::TooLong => Origin::of(file),
            BenchFault::Read => match self.reading.failure {
                Some(failure) if !failure.is_file => Origin::Program,
                _ => Origin::of(file),
            },
            BenchFault::Write | BenchFault::Memory => Origin::Program,
        }
    }
}

/// Where it is, the fault's name, and the words.
impl fmt::Display for FaultMessage<'_> {
    fn fmt<W: Write>(&self, f: &mut Formatter<W>) -> fmt::Result {
        let InputRead { command, bytes, .. } = self.reading;
        write!(f, "{}: ", self.origin())?;
        match self.fault {
            BenchFault::Input(refusal) => {
                let (line, kind) = (refusal.line, refusal.reason.kind());
                let advice = TextAdvice::of(command, bytes, refusal);
                write!(f, "Input(line {line}, {kind:?}): {advice}")
            }
            BenchFault::Image(refusal) => {
                let fault = refusal.fault;
                let advice = ImageAdvice::of(command, bytes, refusal);
                write!(f, "Image({fault:?}): {advice}")
            }
            fault => match self.reading.failure {
                Some(failure) if matches!(fault, BenchFault::Read) => write!(f, "Read: {failure}"),
                _ => write!(f, "{fault}"),
            },
        }
    }
}
