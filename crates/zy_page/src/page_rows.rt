//! The rows of a page by themselves.
ghost use Rattle.std.specs.Prelude.{◌≡◌, ◌<◌, ◌≤◌, ◌++◌, ◌∷◌, [], ℕ, List, length};
ghost use Rattle.zy_isa.specs.declared.row.Row.{Row as ARow};
ghost use Rattle.zy_isa.specs.Limits.{max_cap};
ghost use Rattle.zy_page.specs.RowLists.{of_rows, rows_in};

use crate::page::{BLANK, ROOM};
use zy_isa::Row;

/// The rows of a page by themselves: a copy, which has a cell for each row that a page may have and takes no memory.
#[derive(Clone, Copy, PartialEq, Eq)]
pub struct PageRows {
    len: usize,
    cells: [Row; ROOM],
}

impl PageRows {
    /// No rows.
    pub fn new() -> PageRows
        ensures { result ≡ of_rows [] }
    {
        PageRows {
            len: 0,
            cells: [BLANK; ROOM],
        }
    }

    /// A copy of these rows.
    pub fn of(rows: &[Row]) -> PageRows
        requires { length rows.now ≤ max_cap }
        ensures { result ≡ of_rows rows.now }
    {
        let mut cells = [BLANK; ROOM];
        cells[..rows.len()].copy_from_slice(rows);
        PageRows {
            len: rows.len(),
            cells,
        }
    }

    /// The rows, in order.
    pub fn as_slice(&self) -> &[Row]
        ensures { result.now ≡ rows_in self.now }
    {
        &self.cells[..self.len.min(ROOM)]
    }

    /// Adds a row behind these, where a page has room for one more.
    pub fn push(&mut self, row: Row)
        requires { self.old.len < max_cap }
        ensures { (rows : List ARow) → self.old ≡ of_rows rows → self.new ≡ of_rows (rows ++ row ∷ []) }
    {
        self.cells[self.len] = row;
        self.len += 1;
    }
}
