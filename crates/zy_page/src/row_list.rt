//! Rows in key order, each key once.
ghost use Rattle.std.specs.Prelude.{◌≡◌, ◌+◌, ◌-◌, ◌<◌, ◌≤◌, IfOk, OnOk, OnErr, IsOk, IsSome, [], ◌==◌, length};
ghost use Rattle.std.specs.Prelude.{is_some, vec_capacity, slice_index_or};
ghost use Rattle.zy_isa.specs.Rows.{Rising, RowsFit, get_row, put_row};
ghost use Rattle.zy_page.specs.RowLists.{HasPlace};

use crate::finding::{search, value_at};
use std::alloc::{AllocError, Global};
use std::marker::Model;
use zy_isa::Row;

/// Rows in key order, each key once, as many as there is memory for: the private rows of a transaction.
#[derive(Drop)]
pub struct RowList {
    rows: Vec<Row>,
}

impl Model for RowList {
    ghost use Rattle.std.specs.Prelude.{◌-◌, length};
    ghost use Rattle.std.specs.Vec.{vec_capacity};
    ghost use Rattle.zy_page.specs.RowLists.{RoomyRows, AreKept};

    ghost Value = { RoomyRows };

    ghost view = { λ a. record { rows = a.rows.items; spare = vec_capacity a.rows - length a.rows.items } };

    ghost invariant = { λ a. AreKept a.rows.items };
}

impl RowList {
    /// No rows. It takes no memory.
    pub fn new(alloc: Global) -> RowList
        ensures { result ≡ record { rows = []; spare = 0 } }
    {
        RowList {
            rows: Vec::new(alloc),
        }
    }

    /// Makes room for `n` more rows.
    pub fn reserve(&mut self, n: usize) -> Result<(), AllocError>
        ensures rows { self.new.rows ≡ self.old.rows }
        ensures room { OnOk result (n ≤ self.new.spare) }
        ensures grows { self.old.spare ≤ self.new.spare }
        ensures kept { OnErr result (self.new ≡ self.old) }
        ensures succeeds { n ≤ self.old.spare → IsOk result }
    {
        self.rows.reserve(n)
    }

    /// Makes room for a row at `key`. One that is there has its place.
    pub fn reserve_for(&mut self, key: u16) -> Result<(), AllocError>
        ensures rows { self.new.rows ≡ self.old.rows }
        ensures room { OnOk result (HasPlace key self.new) }
        ensures kept { OnErr result (self.new ≡ self.old) }
        ensures succeeds { HasPlace key self.old → IsOk result }
    {
        if self.contains(key) {
            Ok(())
        } else {
            self.reserve(1)
        }
    }

    /// How many rows there are.
    pub fn len(&self) -> usize
        ensures { result ≡ length self.now.rows }
    {
        self.rows.len()
    }

    /// Whether there are none.
    pub fn is_empty(&self) -> bool
        ensures { result ≡ (length self.now.rows == 0) }
    {
        self.rows.is_empty()
    }

    /// The rows, in key order.
    pub fn rows(&self) -> &[Row]
        ensures value { result.now ≡ self.now.rows }
        ensures rise { Rising 0 self.now.rows }
        ensures fit { RowsFit self.now.rows }
    {
        self.rows.as_slice()
    }

    /// The row at index `i`.
    pub fn row_at(&self, i: usize) -> Row
        requires { i < length self.now.rows }
        ensures { result ≡ slice_index_or self.now.rows i result }
    {
        self.rows[i]
    }

    /// The value at `key`.
    pub fn get(&self, key: u16) -> Option<u32>
        ensures { result ≡ get_row self.now.rows key }
    {
        value_at(&self.rows, key)
    }

    /// Whether there is a row at `key`.
    pub fn contains(&self, key: u16) -> bool
        ensures { result ≡ is_some (get_row self.now.rows key) }
    {
        self.get(key).is_some()
    }

    /// Puts a row in its place, over one of the same key. It takes no memory.
    pub fn put(&mut self, key: u16, value: u32)
        requires { HasPlace key self.old }
        ensures rows { self.new.rows ≡ put_row key value self.old.rows }
        ensures room { length self.new.rows + self.new.spare ≡ length self.old.rows + self.old.spare }
        ensures over { IsSome (get_row self.old.rows key) → self.new.spare ≡ self.old.spare }
    {
        match search(&self.rows, key) {
            Ok(at) => self.rows[at].value = value,
            Err(at) => self.rows.insert(at, Row { key, value }).unwrap(),
        }
    }

    /// Drops the rows, and keeps their room.
    pub fn clear(&mut self)
        ensures { self.new ≡ record { rows = []; spare = length self.old.rows + self.old.spare } }
    {
        self.rows.clear();
    }

    /// A copy of the rows.
    pub fn copy(&self, alloc: Global) -> Result<RowList, AllocError>
        ensures { IfOk result (λ copy. copy.rows ≡ self.now.rows) }
    {
        let mut rows = Vec::with_capacity(alloc, self.len())?;
        rows.extend_from_slice(&self.rows)?;
        Ok(RowList { rows })
    }
}
