//! The rows of a run as one table.
ghost use Rattle.std.specs.Prelude.{◌≡◌, ◌+◌, ◌++◌, ◌≤◌, [], OnOk, OnErr, length, true};
ghost use Rattle.std.specs.Prelude.{vec_capacity, vec_len};
ghost use Rattle.zy_isa.specs.Rows.{Rising, RowsFit, get_row};
ghost use Rattle.zy_table.specs.Rows.{put_rows};
ghost use Rattle.zy_serial.specs.Laying.{rows_past};

use std::alloc::{AllocError, Global};
use std::marker::Model;
use std::mem::swap;
use zy_isa::Row;
use zy_page::finding::{place, value_at};

/// Rows of any number in key order, each key once.
#[derive(Drop)]
pub struct Table {
    rows: Vec<Row>,
    /// Room for the rows that come next.
    spare: Vec<Row>,
}

impl Model for Table {
    ghost use Rattle.std.specs.Prelude.{List};
    ghost use Rattle.zy_isa.specs.declared.row.Row.{Row};
    ghost use Rattle.zy_page.specs.RowLists.{AreKept};

    ghost Value = { List Row };

    ghost view = { λ t. t.rows.items };

    ghost invariant = { λ t. AreKept t.rows.items };
}

impl Table {
    /// No rows. It takes no memory.
    pub(crate) fn new(alloc: Global) -> Table
        ensures { result ≡ [] }
    {
        Table {
            rows: Vec::new(alloc),
            spare: Vec::new(alloc),
        }
    }

    /// How many rows there are.
    pub fn len(&self) -> usize
        ensures { result ≡ length self.now }
    {
        self.rows.len()
    }

    /// The rows, in key order.
    pub fn rows(&self) -> &[Row]
        ensures value { result.now ≡ self.now }
        ensures rise { Rising 0 self.now }
        ensures fit { RowsFit self.now }
    {
        self.rows.as_slice()
    }

    /// The value at `key`.
    pub(crate) fn get(&self, key: u16) -> Option<u32>
        ensures { result ≡ get_row self.now key }
    {
        value_at(&self.rows, key)
    }

    /// Lays rows over those of the table. Where there is no memory for them nothing changes.
    pub(crate) fn lay(&mut self, rows: &[Row]) -> Result<(), AllocError>
        requires { Rising 0 rows.now }
        ensures ok { OnOk result (self.new ≡ put_rows rows.now self.old) }
        ensures err { OnErr result (self.new ≡ self.old) }
    {
        if lie_below(&self.rows, rows) {
            self.rows.reserve(rows.len())?;
            merge(&mut self.rows, &[], rows);
        } else {
            self.spare.clear();
            self.spare.reserve(self.rows.len() + rows.len())?;
            merge(&mut self.spare, &self.rows, rows);
            swap(&mut self.rows, &mut self.spare);
        }
        Ok(())
    }
}

/// Whether all rows of a list lie below the first of others, which then need only be put behind them.
fn lie_below(list: &[Row], rows: &[Row]) -> bool
    requires list { Rising 0 list.now }
    requires rows { Rising 0 rows.now }
    ensures { result ≡ true → put_rows rows.now list.now ≡ list.now ++ put_rows rows.now [] }
{
    match rows.first() {
        Some(first) => place(list, first.key) == list.len(),
        None => true,
    }
}

/// Lays rows over others, behind those of a list that has room for all. Each of the others is copied once.
fn merge(list: &mut Vec<Row>, others: &[Row], rows: &[Row])
    requires others { Rising 0 others.now }
    requires rows { Rising 0 rows.now }
    requires room { vec_len list.old + length others.now + length rows.now ≤ vec_capacity list.old }
    ensures items { list.new.items ≡ list.old.items ++ put_rows rows.now others.now }
    ensures fit { RowsFit rows.now }
{
    let mut left = others;
    for row in rows {
        let (key, value) = (row.key, row.value);
        let (below, rest) = left.split_at(place(left, key));
        list.extend_from_slice(below).unwrap();
        list.push_reserved(Row { key, value });
        left = past(rest, key);
    }
    list.extend_from_slice(left).unwrap();
}

/// The rows without the first one where it has this key.
fn past(rows: &[Row], key: u16) -> &[Row]
    ensures { result.now ≡ rows_past key rows.now }
{
    match rows.split_first() {
        Some((first, rest)) if first.key == key => rest,
        _ => rows,
    }
}
