//! Why bytes are no image.

use std::alloc::AllocError;
use thiserror::Error;
use zy_isa::ProgramFault;

/// Why bytes are no image of a scenario. The first that comes in the order of reading is reported; rows, transactions,
/// instructions and choices count from 0.
#[derive(Clone, Copy, Debug, Error)]
pub enum LoadFault {
    /// The first four bytes are neither `ZPH1` nor `ZPH2`.
    #[error("an image begins with ZPH1 or ZPH2")]
    Magic,
    /// The input, of this number of bytes, ends inside a field.
    #[error("the input ends after {0} bytes, inside a field")]
    Truncated(usize),
    /// The last field ends after this number of bytes, and the input goes on.
    #[error("the image ends after {0} bytes, and the input goes on")]
    Trailing(usize),
    /// A page would have room for too few or too many rows.
    #[error("a page takes 2 to 16 rows")]
    Cap,
    /// There would be no page, or too many.
    #[error("there are 1 to 512 pages")]
    Pages,
    /// There is no such rule.
    #[error("the rule is 0 (held) or 1 (loose)")]
    Rule,
    /// There are too many rows, or they need too many pages.
    #[error("the rows are at most 256 and open with at most `pages` pages")]
    RowCount,
    /// The key of this row is not above the one before it.
    #[error("the key of row {0} is above the key before it")]
    RowOrder(usize),
    /// There are too many transactions.
    #[error("there are at most 64 transactions")]
    TxnCount,
    /// The instructions of this transaction are no program.
    #[error("transaction {0}: {1}")]
    Program(usize, ProgramFault),
    /// In this transaction, the eight bytes of this instruction are no word.
    #[error("transaction {0}: the bytes of instruction {1} are no instruction")]
    Word(usize, usize),
    /// There are too many choices.
    #[error("there are at most 4096 choices")]
    ChoiceCount,
    /// This is not a choice, or names a transaction that is not there.
    #[error("choice {0} is none, or names a transaction that is not there")]
    Choice(usize),
    /// Out of memory for the scenario.
    #[error("there is no memory for the scenario")]
    Memory,
}

impl From<AllocError> for LoadFault {
    ghost use Rattle.std.specs.Prelude.{◌≡◌};
    ghost use Rattle.zy_image.specs.declared.faults.LoadFault.TheVariants.{Memory};

    ghost from_gives = { λ _ e. e ≡ Memory };

    fn from(_e: AllocError) -> LoadFault {
        LoadFault::Memory
    }
}
