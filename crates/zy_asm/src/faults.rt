//! Why a text is no scenario.
ghost use Rattle.std.specs.Prelude.{◌≡◌};
ghost use Rattle.zy_asm.specs.Reasons.{kind_of, fault_of};

use crate::shown::WordStart;
use crate::state::LinesAbove;
use std::fmt;
use thiserror::Error;
use zy_isa::ProgramFault;

/// Why a line is rejected. Of several reasons the first is reported, in the order in which the line is judged.
#[derive(Clone, Copy, Debug)]
pub enum AsmKind {
    /// This is not the statement of the header that belongs here.
    Header,
    /// A word is not known here, or there are too few or too many.
    Word,
    /// A word is not 1 to 10 digits where a number is due.
    Number,
    /// A number is too small or too large.
    Range,
    /// The statement may not be here, or the key of a row is not above the one before it.
    Order,
    /// A transaction or a label is not known or is there twice, or a program has another number.
    Label,
    /// The program above is no program.
    Program,
    /// There are too many rows, transactions, instructions or choices.
    Count,
    /// The text goes on below its end, or has none.
    End,
    /// Out of memory for what the line says.
    Memory,
}

/// The first faulty line, from 1, and why it is rejected.
#[derive(Clone, Copy, Debug, Error)]
#[error("line {line}: {kind:?}")]
pub struct AsmFault {
    pub line: usize,
    pub kind: AsmKind,
}

/// What is wrong with a line. The test that failed makes it, and its text says it in words.
#[derive(Clone, Copy)]
pub enum Reason {
    /// This is not the statement of the header that belongs here.
    NotTheHeader,
    /// The bytes are not UTF-8.
    NotText,
    /// This word is not known here.
    NotKnown(WordStart),
    /// This word, in the place of a name, is none.
    NotAName(WordStart),
    /// This word, which is behind a label, is no instruction.
    NotAnInstr(WordStart),
    /// There are too few words or too many.
    WordCount,
    /// This word is not 1 to 10 digits.
    NotDigits(WordStart),
    /// This number is not from `least` to `most`.
    OutOfRange { number: u64, least: u64, most: u64 },
    /// The statement may not be here.
    Misplaced,
    /// The key of a row is not above the last one.
    NotAbove { key: u16, last: u16 },
    /// There is no transaction of the first number; the second is how many there are.
    NoTransaction { number: u64, count: usize },
    /// A program has this number and not its own.
    NotOwnNumber { number: u64, own: usize },
    /// No program above has this name.
    NoName(WordStart),
    /// A program above has this name already.
    NameTwice(WordStart),
    /// This label is nowhere in the program above.
    NoLabel(WordStart),
    /// This label is in the program already.
    LabelTwice(WordStart),
    /// The instructions of the program of this number are no program.
    NoProgram { number: usize, fault: ProgramFault },
    /// There is a row too many.
    RowCount,
    /// The rows need more opening pages than there may be.
    PageCount { pages: u16 },
    /// There is an instruction too many.
    InstrCount,
    /// There is a program too many.
    ProgramCount,
    /// There is a choice too many.
    ChoiceCount,
    /// The text goes on below its end.
    BelowEnd,
    /// The text has no end.
    NoEnd,
    /// Out of memory for what the line says.
    NoMemory,
}

impl Reason {
    /// The kind of fault that it is.
    pub fn kind(self) -> AsmKind
        ensures { result ≡ kind_of self }
    {
        match self {
            Reason::NotTheHeader => AsmKind::Header,
            Reason::NotText => AsmKind::Word,
            Reason::NotKnown(_) => AsmKind::Word,
            Reason::NotAName(_) => AsmKind::Word,
            Reason::NotAnInstr(_) => AsmKind::Word,
            Reason::WordCount => AsmKind::Word,
            Reason::NotDigits(_) => AsmKind::Number,
            Reason::OutOfRange { .. } => AsmKind::Range,
            Reason::Misplaced => AsmKind::Order,
            Reason::NotAbove { .. } => AsmKind::Order,
            Reason::NoTransaction { .. } => AsmKind::Label,
            Reason::NotOwnNumber { .. } => AsmKind::Label,
            Reason::NoName(_) => AsmKind::Label,
            Reason::NameTwice(_) => AsmKind::Label,
            Reason::NoLabel(_) => AsmKind::Label,
            Reason::LabelTwice(_) => AsmKind::Label,
            Reason::NoProgram { .. } => AsmKind::Program,
            Reason::RowCount => AsmKind::Count,
            Reason::PageCount { .. } => AsmKind::Count,
            Reason::InstrCount => AsmKind::Count,
            Reason::ProgramCount => AsmKind::Count,
            Reason::ChoiceCount => AsmKind::Count,
            Reason::BelowEnd => AsmKind::End,
            Reason::NoEnd => AsmKind::End,
            Reason::NoMemory => AsmKind::Memory,
        }
    }
}

/// The words that `Display` writes.
impl fmt::Debug for Reason {
    fn fmt<W: fmt::Write>(&self, f: &mut fmt::Formatter<W>) -> fmt::Result {
        fmt::Display::fmt(self, f)
    }
}

impl fmt::Display for Reason {
    fn fmt<W: fmt::Write>(&self, f: &mut fmt::Formatter<W>) -> fmt::Result {
        match self {
            Reason::NotTheHeader => f.write_str(
                "the header is zephyr 1 or zephyr 2, cap N, pages N and rule held or rule loose",
            ),
            Reason::NotText => f.write_str("a byte of this line is not UTF-8"),
            Reason::NotKnown(word) => tell(f, "the word ", word, " is not known here"),
            Reason::NotAName(word) => tell(
                f,
                "a name is a letter or _, then letters, digits and _, at most 32 in all, and not ",
                word,
                "",
            ),
            Reason::NotAnInstr(word) => {
                tell(f, "behind a label comes an instruction, and not ", word, "")
            }
            Reason::WordCount => f.write_str("the statement has too few words or too many"),
            Reason::NotDigits(word) => tell(f, "a number is 1 to 10 digits, and not ", word, ""),
            Reason::OutOfRange {
                number,
                least,
                most,
            } => tell_range(f, *number, *least, *most),
            Reason::Misplaced => f.write_str("the statement is not allowed here"),
            Reason::NotAbove { key, last } => tell_key(f, *key, *last),
            Reason::NoTransaction { number, count } => tell_transaction(f, *number, *count),
            Reason::NotOwnNumber { number, own } => tell_own(f, *number, *own),
            Reason::NoName(name) => tell(f, "no program above has the name ", name, ""),
            Reason::NameTwice(name) => tell(f, "a program above has the name ", name, " already"),
            Reason::NoLabel(name) => {
                tell(
                    f,
                    "the label ",
                    name,
                    " is not defined in the program above",
                )
            }
            Reason::LabelTwice(name) => {
                tell(f, "the label ", name, " is in this program already")
            }
            Reason::NoProgram { number, fault } => tell_program(f, *number, *fault),
            Reason::RowCount => f.write_str("there are at most 256 rows"),
            Reason::PageCount { pages } => {
                tell(
                    f,
                    "the rows up to here need more opening pages than ",
                    pages,
                    "",
                )
            }
            Reason::InstrCount => f.write_str("a program has at most 64 instructions"),
            Reason::ProgramCount => f.write_str("there are at most 64 programs"),
            Reason::ChoiceCount => f.write_str("there are at most 4096 choices"),
            Reason::BelowEnd => f.write_str("the text goes on below the line end"),
            Reason::NoEnd => f.write_str("the text stops before the line end"),
            Reason::NoMemory => f.write_str("there is no memory for the scenario"),
        }
    }
}

/// Writes a value between two texts.
fn tell<W: fmt::Write, D: fmt::Display>(
    f: &mut fmt::Formatter<W>,
    before: &str,
    value: &D,
    behind: &str,
) -> fmt::Result {
    write!(f, "{before}{value}{behind}")
}

/// Writes why a number is rejected.
fn tell_range<W: fmt::Write>(
    f: &mut fmt::Formatter<W>,
    number: u64,
    least: u64,
    most: u64,
) -> fmt::Result {
    write!(f, "{number} is not from {least} to {most}")
}

/// Writes why a key is rejected.
fn tell_key<W: fmt::Write>(f: &mut fmt::Formatter<W>, key: u16, last: u16) -> fmt::Result {
    write!(f, "the key {key} is not above the last one, {last}")
}

/// Writes why the number of a transaction is rejected.
fn tell_transaction<W: fmt::Write>(
    f: &mut fmt::Formatter<W>,
    number: u64,
    count: usize,
) -> fmt::Result {
    write!(
        f,
        "there is no transaction {number}: the number of programs is {count}"
    )
}

/// Writes why the number of a program is rejected.
fn tell_own<W: fmt::Write>(f: &mut fmt::Formatter<W>, number: u64, own: usize) -> fmt::Result {
    write!(
        f,
        "the program that begins here has the number {own}, and not {number}"
    )
}

/// Writes why a list of instructions is no program.
fn tell_program<W: fmt::Write>(
    f: &mut fmt::Formatter<W>,
    number: usize,
    fault: ProgramFault,
) -> fmt::Result {
    match fault {
        ProgramFault::Empty => tell(f, "program ", &number, " has no instruction"),
        ProgramFault::Target(at) => tell_target(f, number, at),
        ProgramFault::NoEnd => tell(f, "program ", &number, " does not end with commit or abort"),
        ProgramFault::TooLong => tell(f, "program ", &number, " has more than 64 instructions"),
        ProgramFault::Memory => tell(f, "there is no memory for program ", &number, ""),
    }
}

/// Writes which instruction's target is outside its program.
fn tell_target<W: fmt::Write>(f: &mut fmt::Formatter<W>, number: usize, at: u8) -> fmt::Result {
    write!(
        f,
        "program {number}: the target of instruction {at} (from 0) is outside the program"
    )
}

/// The first faulty line, from 1, and what is wrong with it.
#[derive(Clone, Copy, Error)]
#[error("Input(line {line}, {:?}): {reason}", .reason.kind())]
pub struct LineFault {
    pub line: usize,
    /// The number of the word at fault, from 0; 0 where it is no word of this line.
    pub at: usize,
    pub reason: Reason,
    pub above: LinesAbove,
}

/// The words that `Display` writes.
impl fmt::Debug for LineFault {
    fn fmt<W: fmt::Write>(&self, f: &mut fmt::Formatter<W>) -> fmt::Result {
        fmt::Display::fmt(self, f)
    }
}

impl LineFault {
    /// The fault that it is.
    pub fn fault(self) -> AsmFault
        ensures { result ≡ fault_of self }
    {
        AsmFault {
            line: self.line,
            kind: self.reason.kind(),
        }
    }
}
