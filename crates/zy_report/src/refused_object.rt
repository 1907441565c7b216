//! Why an object is rejected that is to tell a line of a log.

use crate::excerpt::Excerpt;
use crate::origin::Origin;
use crate::refused_line::misfit;
use std::alloc::Global;
use std::fmt::{self, Formatter, Write};
use zy_engine::BenchFault;
use zy_json::logs::read_objects;
use zy_json::{JsonLineFault, JsonLogFault};
use zy_logs::LogLineFault;
use zy_source_words::line::whole_line;
use zy_source_words::{Position, SourceLine, Statement};

/// Where a line begins.
fn start_of(line: usize) -> Position {
    Position { line, column: 1 }
}

/// A line that tells no line of a log.
#[derive(Clone, Copy)]
pub struct RefusedObject<'a> {
    file: Option<&'a str>,
    input: &'a [u8],
    refusal: JsonLineFault,
}

impl<'a> RefusedObject<'a> {
    /// Why a line of this input (of this file, if there is one) does not tell a line of a log.
    pub fn of(file: Option<&'a str>, input: &'a [u8], refusal: JsonLineFault) -> RefusedObject<'a> {
        RefusedObject {
            file,
            input,
            refusal,
        }
    }
}

/// Where it is, what is wrong, and the line.
impl fmt::Display for RefusedObject<'_> {
    fn fmt<W: Write>(&self, f: &mut Formatter<W>) -> fmt::Result {
        let refusal = self.refusal;
        let origin = Origin::at(self.file, start_of(refusal.line));
        let told = Excerpt::of(
            SourceLine::of(self.input, refusal.line).bytes.trim_ascii(),
            0,
        );
        write!(f, "{origin}: {refusal}: {told}")
    }
}

/// The line of a log that an object tells.
#[derive(Drop)]
pub struct ToldLine {
    bytes: Vec<u8>,
}

impl ToldLine {
    /// The one that the line of this number of an input tells; an empty one, where it tells none.
    pub fn of(alloc: Global, input: &[u8], line: usize) -> Result<ToldLine, BenchFault> {
        let bytes = match read_objects(alloc, 1, whole_line(input, line)) {
            Ok(bytes) => bytes,
            Err(JsonLogFault::Memory) => return Err(BenchFault::Memory),
            Err(JsonLogFault::Refused(_)) => Vec::new(alloc),
        };
        Ok(ToldLine { bytes })
    }

    /// Why it is none of a log.
    pub fn refused<'a>(&'a self, file: Option<&'a str>, refusal: LogLineFault) -> RefusedTold<'a> {
        RefusedTold {
            file,
            told: SourceLine::of(self.bytes.as_slice(), 1).statement(),
            refusal,
        }
    }
}

/// A line of a log that an object tells and that is rejected, and the word that does not fit.
#[derive(Clone, Copy)]
pub struct RefusedTold<'a> {
    file: Option<&'a str>,
    told: Statement<'a>,
    refusal: LogLineFault,
}

/// Where the object is, the fault's name, what is expected, and the line that it tells with the word at fault marked.
impl fmt::Display for RefusedTold<'_> {
    fn fmt<W: Write>(&self, f: &mut Formatter<W>) -> fmt::Result {
        let refusal = self.refusal;
        let place = misfit(self.told, refusal.word);
        let origin = Origin::at(self.file, start_of(refusal.line));
        write!(f, "{origin}: {refusal} (told as a line, {place})")
    }
}
