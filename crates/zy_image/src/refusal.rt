//! What a person needs to know of a fault: where in the image it is, and what is there.
ghost use Rattle.std.specs.Prelude.{◌≡◌};

use crate::faults::LoadFault;
use crate::places::{Field, byte_at, bytes_at, cut_field, half_at, instr_count, txn_count};
use std::fmt;
use zy_isa::ProgramFault;
use zy_isa::scenario::opening_rows;

/// What is at the place of a fault.
#[derive(Clone, Copy)]
pub enum FoundHere {
    /// Nothing beyond the fault.
    Nothing,
    /// Another beginning.
    Beginning([u8; 4]),
    /// This field, of which this number of bytes is there.
    Cut {
        field: Field,
        there: usize,
    },
    /// This number of bytes more.
    More(usize),
    /// This number.
    Number(usize),
    /// This number of rows, of which a page opens with `each`.
    Rows {
        rows: usize,
        each: usize,
        pages: usize,
    },
    /// This key behind the last one.
    Keys {
        key: usize,
        last: usize,
    },
    /// This target, where this is the number of instructions.
    Target {
        target: u32,
        count: usize,
    },
    /// Another last word.
    LastWord([u8; 8]),
    /// This word.
    Word([u8; 8]),
    /// This choice, where this is the number of transactions.
    Choice {
        bytes: [u8; 3],
        txns: usize,
    },
}

impl fmt::Display for FoundHere {
    fn fmt<W: fmt::Write>(&self, f: &mut fmt::Formatter<W>) -> fmt::Result {
        match self {
            FoundHere::Nothing => Ok(()),
            FoundHere::Beginning(bytes) => tell_bytes(f, ", not with", bytes.as_slice()),
            FoundHere::Cut { field, there } => tell_cut(f, field, *there),
            FoundHere::More(count) => tell(f, " for ", *count, " more"),
            FoundHere::Number(number) => tell(f, ", not ", *number, ""),
            FoundHere::Rows { rows, each, pages } => tell_rows(f, *rows, *each, *pages),
            FoundHere::Keys { key, last } => tell_keys(f, *key, *last),
            FoundHere::Target { target, count } => tell_target(f, *target, *count),
            FoundHere::LastWord(word) => tell_bytes(f, ", not with", word.as_slice()),
            FoundHere::Word(word) => tell_bytes(f, ":", word.as_slice()),
            FoundHere::Choice { bytes, txns } => {
                tell_bytes(f, ":", bytes.as_slice())?;
                tell(f, ", and the number of transactions is ", *txns, "")
            }
        }
    }
}

/// Writes a number between two texts.
fn tell<W: fmt::Write>(
    f: &mut fmt::Formatter<W>,
    before: &str,
    number: usize,
    behind: &str,
) -> fmt::Result {
    write!(f, "{before}{number}{behind}")
}

/// Writes how much of a field is there.
fn tell_cut<W: fmt::Write>(f: &mut fmt::Formatter<W>, field: &Field, there: usize) -> fmt::Result {
    let size = field.size();
    write!(f, ": {field} takes {size}, of which {there} are there")
}

/// Writes how many rows there are, and how many have room.
fn tell_rows<W: fmt::Write>(
    f: &mut fmt::Formatter<W>,
    rows: usize,
    each: usize,
    pages: usize,
) -> fmt::Result {
    write!(
        f,
        ": there are {rows}, {each} on each page, and pages is {pages}"
    )
}

/// Writes which key follows which.
fn tell_keys<W: fmt::Write>(f: &mut fmt::Formatter<W>, key: usize, last: usize) -> fmt::Result {
    write!(f, ": {key} comes behind {last}")
}

/// Writes a target, and how many instructions there are.
fn tell_target<W: fmt::Write>(f: &mut fmt::Formatter<W>, target: u32, count: usize) -> fmt::Result {
    write!(
        f,
        ": it is {target}, and the number of instructions is {count}"
    )
}

/// Writes some bytes, in hexadecimal digits.
fn tell_bytes<W: fmt::Write>(f: &mut fmt::Formatter<W>, before: &str, bytes: &[u8]) -> fmt::Result {
    f.write_str(before)?;
    for byte in bytes {
        tell_byte(f, *byte)?;
    }
    Ok(())
}

/// Writes a byte, in hexadecimal digits.
fn tell_byte<W: fmt::Write>(f: &mut fmt::Formatter<W>, byte: u8) -> fmt::Result {
    write!(f, " {byte:02x}")
}

/// A fault of an image, its place there, and what is at it.
#[derive(Clone, Copy)]
pub struct ImageRefusal {
    pub fault: LoadFault,
    pub at: usize,
    pub found: FoundHere,
}

impl ImageRefusal {
    /// A fault of these bytes.
    pub fn of(fault: LoadFault, bytes: &[u8]) -> ImageRefusal
        ensures { result.fault ≡ fault }
    {
        let at = place(fault, bytes);
        let found = found_at(fault, bytes, at);
        ImageRefusal { fault, at, found }
    }
}

/// The words that `Display` writes.
impl fmt::Debug for ImageRefusal {
    fn fmt<W: fmt::Write>(&self, f: &mut fmt::Formatter<W>) -> fmt::Result {
        fmt::Display::fmt(self, f)
    }
}

impl fmt::Display for ImageRefusal {
    fn fmt<W: fmt::Write>(&self, f: &mut fmt::Formatter<W>) -> fmt::Result {
        write!(f, "at offset {}: {}{}", self.at, self.fault, self.found)
    }
}

/// The field that has the fault of a program.
fn program_field(txn: usize, fault: ProgramFault, bytes: &[u8]) -> Field {
    match fault {
        ProgramFault::Target(instr) => Field::Word(txn, usize::from(instr)),
        ProgramFault::NoEnd => Field::Word(txn, instr_count(bytes, txn).saturating_sub(1)),
        _ => Field::InstrCount(txn),
    }
}

/// Where in these bytes a fault of theirs is.
fn place(fault: LoadFault, bytes: &[u8]) -> usize {
    let field = match fault {
        LoadFault::Magic | LoadFault::Memory => Field::Magic,
        LoadFault::Truncated(_) => cut_field(bytes),
        LoadFault::Trailing(size) => return size,
        LoadFault::Cap => Field::Cap,
        LoadFault::Pages => Field::Pages,
        LoadFault::Rule => Field::Rule,
        LoadFault::RowCount => Field::RowCount,
        LoadFault::RowOrder(row) => Field::Row(row),
        LoadFault::TxnCount => Field::TxnCount,
        LoadFault::Program(txn, fault) => program_field(txn, fault, bytes),
        LoadFault::Word(txn, instr) => Field::Word(txn, instr),
        LoadFault::ChoiceCount => Field::ChoiceCount,
        LoadFault::Choice(choice) => Field::Choice(choice),
    };
    field.start(bytes)
}

/// What a program has at the place of its fault.
fn program_found_at(txn: usize, fault: ProgramFault, bytes: &[u8], at: usize) -> FoundHere {
    match fault {
        ProgramFault::TooLong => FoundHere::Number(byte_at(bytes, at)),
        ProgramFault::Target(_) => FoundHere::Target {
            target: u32::from_be_bytes(bytes_at(bytes, at.saturating_add(4))),
            count: instr_count(bytes, txn),
        },
        ProgramFault::NoEnd => FoundHere::LastWord(bytes_at(bytes, at)),
        ProgramFault::Empty | ProgramFault::Memory => FoundHere::Nothing,
    }
}

/// What is in these bytes at the place of a fault of theirs.
fn found_at(fault: LoadFault, bytes: &[u8], at: usize) -> FoundHere {
    match fault {
        LoadFault::Magic => FoundHere::Beginning(bytes_at(bytes, at)),
        LoadFault::Truncated(size) => FoundHere::Cut {
            field: cut_field(bytes),
            there: size.saturating_sub(at),
        },
        LoadFault::Trailing(size) => FoundHere::More(bytes.len().saturating_sub(size)),
        LoadFault::Cap | LoadFault::Rule | LoadFault::TxnCount => {
            FoundHere::Number(byte_at(bytes, at))
        }
        LoadFault::Pages | LoadFault::ChoiceCount => FoundHere::Number(half_at(bytes, at)),
        LoadFault::RowCount => FoundHere::Rows {
            rows: half_at(bytes, at),
            each: opening_rows(bytes_at::<1>(bytes, 4)[0]),
            pages: half_at(bytes, 5),
        },
        LoadFault::RowOrder(_) => FoundHere::Keys {
            key: half_at(bytes, at),
            last: half_at(bytes, at.saturating_sub(6)),
        },
        LoadFault::Program(txn, fault) => program_found_at(txn, fault, bytes, at),
        LoadFault::Word(_, _) => FoundHere::Word(bytes_at(bytes, at)),
        LoadFault::Choice(_) => FoundHere::Choice {
            bytes: bytes_at(bytes, at),
            txns: txn_count(bytes),
        },
        LoadFault::Memory => FoundHere::Nothing,
    }
}
