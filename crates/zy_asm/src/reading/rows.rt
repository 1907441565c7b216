//! The rows.
ghost use Rattle.std.specs.Prelude.{◌≡◌};
ghost use Rattle.zy_asm.specs.Reasons.{by_kind, by_reason};
ghost use Rattle.zy_text.specs.Lines.{texts};
ghost use Rattle.zy_asm.specs.Reading.Progress.{Steps, progress_of};
ghost use Rattle.zy_asm.specs.Reading.RowLines.{add_row, row_at};
ghost use Rattle.zy_asm.specs.Reading.RowLines as spec;

use crate::faults::Reason;
use crate::numbers::number_in;
use crate::state::{Reader, Stage};
use crate::word_fault::{WordFault, miscounted};
use zy_isa::scenario::opening_pages_for;
use zy_isa::{MAX_ROWS, Row};

/// The row with this key and this value.
fn row_with(key: &[u8], value: &[u8]) -> Result<Row, WordFault>
    ensures { by_kind (by_reason result) ≡ spec.row_with key.now value.now }
{
    let key = number_in(key, 0, u64::from(u16::MAX)).map_err(|reason| reason.at(1))? as u16;
    let value = number_in(value, 0, u64::from(u32::MAX)).map_err(|reason| reason.at(2))? as u32;
    Ok(Row { key, value })
}

/// The row of the words behind `row`.
fn row_of(words: &[&[u8]]) -> Result<Row, WordFault>
    ensures { by_kind (by_reason result) ≡ spec.row_of (texts words.now) }
{
    match words {
        [key, value] => row_with(key, value),
        _ => Err(miscounted(words, 2)),
    }
}

impl Reader {
    /// Adds a row, which is above the last one and leaves no more opening pages than there may be.
    fn add_row(&mut self, row: Row) -> Result<(), WordFault>
        ensures { Steps result (progress_of self.new) (add_row (progress_of self.old) row) }
    {
        let count = self.rows.len();
        if count >= MAX_ROWS {
            return Err(Reason::RowCount.at(0));
        }
        if opening_pages_for(self.cap, count + 1) > usize::from(self.pages) {
            return Err(Reason::PageCount { pages: self.pages }.at(0));
        }
        if let Some(last) = self.rows.last() {
            if row.key <= last.key {
                return Err(Reason::NotAbove {
                    key: row.key,
                    last: last.key,
                }
                .at(1));
            }
        }
        self.rows.push(row).map_err(|_| Reason::NoMemory)?;
        Ok(())
    }

    /// Takes a row, by the words behind `row`.
    pub fn row_line(&mut self, words: &[&[u8]]) -> Result<(), WordFault>
        ensures { Steps result (progress_of self.new) (row_at self.old.stage (progress_of self.old) (texts words.now)) }
    {
        if self.stage != Stage::Rows {
            return Err(Reason::Misplaced.at(0));
        }
        let row = row_of(words)?;
        self.add_row(row)
    }
}
