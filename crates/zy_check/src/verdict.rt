//! What a check says.
ghost use Rattle.zy_check.specs.Differs.{verdict_text};

use std::alloc::AllocError;
use zy_io::{Decimal, Line, LineBuffer, joined};

/// Whether an input is the listing of its scenario.
#[derive(Clone, Copy)]
pub enum Verdict {
    /// It is, byte for byte.
    Table,
    /// It is not; from 1, the line in which they first differ.
    NotTable(usize),
}

/// Its words: `table`, or `not table` and the line.
impl Line for Verdict {
    ghost text = { λ v. verdict_text v };

    fn append(&self, line: &mut LineBuffer) -> Result<(), AllocError> {
        match self {
            Verdict::Table => "table".append(line),
            Verdict::NotTable(number) => joined!("not table ", Decimal(*number)).append(line),
        }
    }
}

/// What the comparison of an input with the listing of its scenario finds.
#[derive(Drop)]
pub struct Comparison {
    pub verdict: Verdict,
    /// The line of the listing in which they first differ, with its line feed; empty if the listing ends above it, and `None` if
    /// memory for it was refused.
    pub expected: Option<Vec<u8>>,
}
