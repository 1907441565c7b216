//! A leaf page.
ghost use Rattle.std.specs.Prelude.{◌≡◌, ◌==◌, ◌<◌, ◌≤◌, IsSome, None, [], insert, length, slice_index_or};
ghost use Rattle.zy_isa.specs.Limits.{max_cap};
ghost use Rattle.zy_isa.specs.Rows.{Rising, RowsFit, get_row, put_row};
ghost use Rattle.zy_model.specs.Leaf.{rows_below, rows_from};
ghost use Rattle.zy_page.specs.RowLists.{AreKept};

use crate::finding::{place, search, value_at};
use std::marker::Model;
use zy_isa::{MAX_CAP, Row};

/// The most rows of a page.
pub(crate) const ROOM: usize = MAX_CAP as usize;

/// What a place without a row has.
pub(crate) const BLANK: Row = Row { key: 0, value: 0 };

/// A leaf page. Its rows lie in the page itself, which has a place for each that a scenario lets a page have: nothing
/// that is done with it takes memory.
#[derive(Drop)]
pub struct Page {
    number: u16,
    low: u16,
    len: usize,
    cells: [Row; ROOM],
}

impl Model for Page {
    ghost use Rattle.std.specs.Prelude.{take};
    ghost use Rattle.zy_model.specs.Leaf.{Leaf};
    ghost use Rattle.zy_page.specs.RowLists.{IsPageful};

    ghost Value = { Leaf };

    ghost view = { λ a. record { number = a.number; low = a.low; rows = take a.len a.cells } };

    ghost invariant = { λ a. IsPageful a.len a.cells };
}

impl Page {
    /// A page without rows.
    pub fn new(number: u16, low: u16) -> Page
        ensures { result ≡ record { number = number; low = low; rows = [] } }
    {
        Page::with_rows(number, low, &[])
    }

    /// A page with these rows.
    fn with_rows(number: u16, low: u16, rows: &[Row]) -> Page
        requires few { length rows.now ≤ max_cap }
        requires kept { AreKept rows.now }
        ensures { result ≡ record { number = number; low = low; rows = rows.now } }
    {
        let mut cells = [BLANK; ROOM];
        cells[..rows.len()].copy_from_slice(rows);
        Page {
            number,
            low,
            len: rows.len(),
            cells,
        }
    }

    /// The page's number.
    pub fn number(&self) -> u16
        ensures { result ≡ self.now.number }
    {
        self.number
    }

    /// The lowest key that may be on the page.
    pub fn low(&self) -> u16
        ensures { result ≡ self.now.low }
    {
        self.low
    }

    /// How many rows there are.
    pub fn len(&self) -> usize
        ensures value { result ≡ length self.now.rows }
        ensures bound { result ≤ max_cap }
    {
        self.rows().len()
    }

    /// Whether there are none.
    pub fn is_empty(&self) -> bool
        ensures { result ≡ (length self.now.rows == 0) }
    {
        self.len == 0
    }

    /// The rows, in key order.
    pub fn rows(&self) -> &[Row]
        ensures value { result.now ≡ self.now.rows }
        ensures rise { Rising 0 self.now.rows }
        ensures fit { RowsFit self.now.rows }
        ensures bound { length self.now.rows ≤ max_cap }
    {
        &self.cells[..self.len]
    }

    /// The row at index `i`.
    pub fn row_at(&self, i: usize) -> Row
        requires { i < length self.now.rows }
        ensures { result ≡ slice_index_or self.now.rows i result }
    {
        self.rows()[i]
    }

    /// The value at `key`.
    pub fn get(&self, key: u16) -> Option<u32>
        ensures { result ≡ get_row self.now.rows key }
    {
        value_at(self.rows(), key)
    }

    /// Puts a value over that of a key that is there.
    pub fn put(&mut self, key: u16, value: u32)
        requires { IsSome (get_row self.old.rows key) }
        ensures { self.new ≡ record self.old { rows = put_row key value self.old.rows } }
    {
        self.install(key, value);
    }

    /// Adds a row at a key that is not there.
    pub fn add(&mut self, new_key: u16, value: u32)
        requires absent { get_row self.old.rows new_key ≡ None }
        requires room { length self.old.rows < max_cap }
        ensures { self.new ≡ record self.old { rows = put_row new_key value self.old.rows } }
    {
        self.install(new_key, value);
    }

    /// Puts a row, over one of the same key if there is one.
    pub fn install(&mut self, key: u16, new_value: u32)
        requires { get_row self.old.rows key ≡ None → length self.old.rows < max_cap }
        ensures { self.new ≡ record self.old { rows = put_row key new_value self.old.rows } }
    {
        match search(self.rows(), key) {
            Ok(at) => self.cells[at].value = new_value,
            Err(at) => self.insert(
                at,
                Row {
                    key,
                    value: new_value,
                },
            ),
        }
    }

    /// Puts a row at an index, and moves those from there on up.
    fn insert(&mut self, at: usize, row: Row)
        requires within { at ≤ length self.old.rows }
        requires room { length self.old.rows < max_cap }
        requires kept { AreKept (insert self.old.rows at row) }
        ensures { self.new ≡ record self.old { rows = insert self.old.rows at row } }
    {
        self.cells.copy_within(at..self.len, at + 1);
        self.cells[at] = row;
        self.len += 1;
    }

    /// Moves the rows at or above `boundary` into a new page with this number, whose low key is the boundary.
    pub fn split_at(&mut self, boundary: u16, number: u16) -> Page
        ensures new_page { result ≡ record {
          number = number;
          low = boundary;
          rows = rows_from boundary self.old.rows;
        } }
        ensures old_page { self.new ≡ record self.old { rows = rows_below boundary self.old.rows } }
    {
        let at = place(self.rows(), boundary);
        let upper = Page::with_rows(number, boundary, &self.rows()[at..]);
        self.len = at;
        upper
    }

    /// A copy of the page.
    pub fn copy(&self) -> Page
        ensures { result ≡ self.now }
    {
        Page {
            number: self.number,
            low: self.low,
            len: self.len,
            cells: self.cells,
        }
    }
}
