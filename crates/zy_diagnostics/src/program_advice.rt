//! Advice on programs, their names and their labels.

use crate::text_advice::TextAdvice;
use std::fmt::{self, Formatter, Write};
use zy_asm::Reason;
use zy_isa::ProgramFault;
use zy_source_words::label::label;
use zy_source_words::{Quoted, SourceProgram};

impl<'a> TextAdvice<'a> {
    /// The last program that begins above the line.
    pub(crate) fn program(&self) -> Option<SourceProgram<'a>> {
        SourceProgram::of(self.lines, self.above.programs.saturating_sub(1))
    }

    /// Says which programs there are.
    pub(crate) fn tell_programs<W: Write>(&self, f: &mut Formatter<W>) -> fmt::Result {
        match (self.above.programs, self.program()) {
            (0, _) => f.write_str("no program is above"),
            (1, Some(program)) => write!(f, "the only one is {program}"),
            (count, _) => write!(f, "the programs are 0 to {}", count.saturating_sub(1)),
        }
    }

    /// Says that no transaction has this number.
    pub(crate) fn tell_no_transaction<W: Write>(
        &self,
        f: &mut Formatter<W>,
        number: u64,
    ) -> fmt::Result {
        write!(f, "there is no transaction {number}: ")?;
        self.tell_programs(f)
    }

    /// Says that no program has the name.
    pub(crate) fn tell_no_program_of_name<W: Write>(&self, f: &mut Formatter<W>) -> fmt::Result {
        self.tell_reason(f)?;
        match SourceProgram::nearest(self.lines, self.word()) {
            Some(program) => write!(f, "did you mean {program}"),
            None => self.tell_programs(f),
        }
    }

    /// Says which program already has the name.
    pub(crate) fn tell_name_twice<W: Write>(&self, f: &mut Formatter<W>) -> fmt::Result {
        match SourceProgram::named(self.lines, self.word()) {
            Some(program) => write!(f, "{}: {program}, in line {}", self.reason, program.line),
            None => write!(f, "{}", self.reason),
        }
    }

    /// Says what is wrong with the last program above the line.
    pub(crate) fn tell_of_program<W: Write>(
        &self,
        f: &mut Formatter<W>,
        program: SourceProgram<'_>,
    ) -> fmt::Result {
        match self.reason {
            Reason::NoLabel(_) => self.tell_no_label(f, program),
            Reason::LabelTwice(_) => self.tell_label_twice(f, program),
            Reason::NoProgram { fault, .. } => self.tell_no_program(f, program, fault),
            Reason::InstrCount => write!(f, "{}, and {program} has them already", self.reason),
            _ => write!(f, "{}", self.reason),
        }
    }

    /// Says which label a program lacks, and which one is near.
    fn tell_no_label<W: Write>(
        &self,
        f: &mut Formatter<W>,
        program: SourceProgram<'_>,
    ) -> fmt::Result {
        let Some((_, name)) = program.missing_label() else {
            return write!(f, "{}", self.reason);
        };
        write!(f, "the label {} is not defined in {program}", Quoted(name))?;
        match program.nearest_label(name) {
            Some(label) => write!(f, ": did you mean {}", Quoted(label)),
            None => Ok(()),
        }
    }

    /// Says which line already defines the label.
    fn tell_label_twice<W: Write>(
        &self,
        f: &mut Formatter<W>,
        program: SourceProgram<'_>,
    ) -> fmt::Result {
        let label = label(self.statement).unwrap_or(&[]);
        match program.line_of_label(label) {
            Some(line) => write!(
                f,
                "the label {} is in {program} already, in line {line}",
                Quoted(label)
            ),
            None => write!(f, "{}", self.reason),
        }
    }

    /// Says what a program lacks.
    fn tell_no_program<W: Write>(
        &self,
        f: &mut Formatter<W>,
        program: SourceProgram<'_>,
        fault: ProgramFault,
    ) -> fmt::Result {
        match fault {
            ProgramFault::Empty => write!(
                f,
                "{program} has no instruction: the last one is commit or abort"
            ),
            ProgramFault::Target(at) => {
                let last = program.count().saturating_sub(1);
                write!(
                    f,
                    "the target of instruction {at} of {program} is outside it: its instructions are 0 to {last}"
                )
            }
            ProgramFault::NoEnd => write!(
                f,
                "{program} does not end with commit or abort: put one below its last instruction"
            ),
            _ => write!(f, "{}", self.reason),
        }
    }
}
