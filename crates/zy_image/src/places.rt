//! Where the fields of an image lie. A field that is not there counts as 0.

use std::fmt;

/// A field of an image. Rows, transactions, instructions and choices count from 0.
#[derive(Clone, Copy)]
pub enum Field {
    /// The first bytes.
    Magic,
    /// How many rows a page has room for.
    Cap,
    /// How many pages there may be.
    Pages,
    /// The rule for locked pages.
    Rule,
    /// How many rows there are.
    RowCount,
    /// A row.
    Row(usize),
    /// How many transactions there are.
    TxnCount,
    /// How many instructions a transaction has.
    InstrCount(usize),
    /// An instruction of a transaction.
    Word(usize, usize),
    /// How many choices there are.
    ChoiceCount,
    /// A choice.
    Choice(usize),
}

/// The fields before the rows.
const HEAD: [Field; 5] = [
    Field::Magic,
    Field::Cap,
    Field::Pages,
    Field::Rule,
    Field::RowCount,
];

impl Field {
    /// How many bytes it has.
    pub fn size(self) -> usize {
        match self {
            Field::Magic => 4,
            Field::Cap | Field::Rule | Field::TxnCount | Field::InstrCount(_) => 1,
            Field::Pages | Field::RowCount | Field::ChoiceCount => 2,
            Field::Row(_) => 6,
            Field::Word(_, _) => 8,
            Field::Choice(_) => 3,
        }
    }

    /// Where it begins in an image.
    pub fn start(self, bytes: &[u8]) -> usize {
        match self {
            Field::Magic => 0,
            Field::Cap => 4,
            Field::Pages => 5,
            Field::Rule => 7,
            Field::RowCount => 8,
            Field::Row(row) => behind(10, row, 6),
            Field::TxnCount => txn_count_at(bytes),
            Field::InstrCount(txn) => program_at(bytes, txn),
            Field::Word(txn, instr) => behind(program_at(bytes, txn).saturating_add(1), instr, 8),
            Field::ChoiceCount => choices_at(bytes),
            Field::Choice(choice) => behind(choices_at(bytes).saturating_add(2), choice, 3),
        }
    }

    /// Whether the bytes end inside it.
    fn is_cut(self, bytes: &[u8]) -> bool {
        bytes.len() < self.start(bytes).saturating_add(self.size())
    }
}

impl fmt::Display for Field {
    fn fmt<W: fmt::Write>(&self, f: &mut fmt::Formatter<W>) -> fmt::Result {
        match self {
            Field::Magic => f.write_str("the first field"),
            Field::Cap => f.write_str("cap"),
            Field::Pages => f.write_str("pages"),
            Field::Rule => f.write_str("the rule"),
            Field::RowCount => f.write_str("the number of rows"),
            Field::Row(row) => write!(f, "row {row}"),
            Field::TxnCount => f.write_str("the number of transactions"),
            Field::InstrCount(txn) => write!(f, "the number of instructions of transaction {txn}"),
            Field::Word(txn, instr) => write!(f, "instruction {instr} of transaction {txn}"),
            Field::ChoiceCount => f.write_str("the number of choices"),
            Field::Choice(choice) => write!(f, "choice {choice}"),
        }
    }
}

/// The place behind this number of items of a size, which begin at `from`.
fn behind(from: usize, items: usize, size: usize) -> usize {
    from.saturating_add(items.saturating_mul(size))
}

/// The number in one byte.
pub fn byte_at(bytes: &[u8], at: usize) -> usize {
    bytes.get(at).map_or(0, |byte| usize::from(*byte))
}

/// The number in two bytes.
pub fn half_at(bytes: &[u8], at: usize) -> usize {
    usize::from(u16::from_be_bytes(bytes_at(bytes, at)))
}

/// This number of bytes from a place on.
pub fn bytes_at<const N: usize>(bytes: &[u8], at: usize) -> [u8; N] {
    let field = bytes.get(at..).and_then(|left| left.first_chunk::<N>());
    field.copied().unwrap_or([0; N])
}

/// Where the number of transactions is.
fn txn_count_at(bytes: &[u8]) -> usize {
    behind(10, half_at(bytes, 8), 6)
}

/// How many transactions there are.
pub fn txn_count(bytes: &[u8]) -> usize {
    byte_at(bytes, txn_count_at(bytes))
}

/// Where the program of a transaction begins.
fn program_at(bytes: &[u8], txn: usize) -> usize {
    let mut at = txn_count_at(bytes).saturating_add(1);
    for _ in 0..txn {
        at = behind(at.saturating_add(1), byte_at(bytes, at), 8);
    }
    at
}

/// Where the number of choices is.
fn choices_at(bytes: &[u8]) -> usize {
    program_at(bytes, txn_count(bytes))
}

/// How many instructions a transaction has.
pub fn instr_count(bytes: &[u8], txn: usize) -> usize {
    byte_at(bytes, program_at(bytes, txn))
}

/// The field of a program inside which the bytes end.
fn cut_program(bytes: &[u8], txn: usize) -> Option<Field> {
    let count = Field::InstrCount(txn);
    if count.is_cut(bytes) {
        return Some(count);
    }
    let first = Field::Word(txn, 0).start(bytes);
    let whole = bytes.len().saturating_sub(first) / 8;
    if whole < instr_count(bytes, txn) {
        return Some(Field::Word(txn, whole));
    }
    None
}

/// The field inside which the bytes end.
pub fn cut_field(bytes: &[u8]) -> Field {
    if let Some(field) = HEAD.iter().find(|field| field.is_cut(bytes)) {
        return *field;
    }
    let rows = bytes.len().saturating_sub(10) / 6;
    if rows < half_at(bytes, 8) {
        return Field::Row(rows);
    }
    if Field::TxnCount.is_cut(bytes) {
        return Field::TxnCount;
    }
    if let Some(field) = (0..txn_count(bytes)).find_map(|txn| cut_program(bytes, txn)) {
        return field;
    }
    if Field::ChoiceCount.is_cut(bytes) {
        return Field::ChoiceCount;
    }
    let first = Field::Choice(0).start(bytes);
    Field::Choice(bytes.len().saturating_sub(first) / 3)
}
