//! The rows of an image.
ghost use Rattle.std.specs.Prelude.{◌≡◌, ◌⊎◌, ◌≤◌, Ok, Err, MatchResult};
ghost use Rattle.zy_isa.specs.Rows.{last_row};
ghost use Rattle.zy_isa.specs.Rows as isa;
ghost use Rattle.zy_image.specs.declared.faults.LoadFault.TheVariants.{Memory};
ghost use Rattle.zy_image.specs.Reading.{Gives, next_row};
ghost use Rattle.zy_image.specs.Reading as spec;

use crate::faults::LoadFault;
use crate::fields::{field, half};
use crate::head::ImageHead;
use crate::lists::{Items, read_items};
use std::alloc::Global;
use zy_isa::scenario::opening_pages_for;
use zy_isa::{MAX_ROWS, Row};

/// How rows are read.
#[derive(Clone, Copy)]
struct RowItems {
    size: usize,
}

/// The row of a field.
fn row_at(field: [u8; 6]) -> Row
    ensures { result ≡ spec.row_at field }
{
    let [k0, k1, v0, v1, v2, v3] = field;
    Row {
        key: u16::from_be_bytes([k0, k1]),
        value: u32::from_be_bytes([v0, v1, v2, v3]),
    }
}

/// Whether a key is not above that of the last of these rows.
fn is_low(key: u16, before: &[Row]) -> bool
    ensures { result ≡ isa.is_low key (last_row before.now) }
{
    match before.last() {
        Some(row) => key <= row.key,
        None => false,
    }
}

impl Items for RowItems {
    type Item = Row;

    ghost next = { λ s. next_row s.size };

    fn next<'a>(&self, before: &[Row], bytes: &'a [u8]) -> Result<(Row, &'a [u8]), LoadFault> {
        let (field, left) = field::<6>(self.size, bytes)?;
        let row = row_at(field);
        if is_low(row.key, before) {
            return Err(LoadFault::RowOrder(before.len()));
        }
        Ok((row, left))
    }
}

/// How many rows there are, where this number may be there, and pages for them.
fn row_count(head: ImageHead, size: usize, bytes: &[u8]) -> Result<(usize, &[u8]), LoadFault>
    requires { 2 ≤ head.cap }
    ensures { Gives result (spec.row_count head size bytes.entry.now) }
{
    let (count, left) = half(size, bytes)?;
    let count = usize::from(count);
    if count > MAX_ROWS || opening_pages_for(head.cap, count) > usize::from(head.pages) {
        return Err(LoadFault::RowCount);
    }
    Ok((count, left))
}

/// The rows, by their number.
pub fn rows(
    alloc: Global,
    head: ImageHead,
    size: usize,
    bytes: &[u8],
) -> Result<(Vec<Row>, &[u8]), LoadFault>
    requires { 2 ≤ head.cap }
    ensures { let read = spec.rows head size bytes.entry.now in
        MatchResult result (λ x. read ≡ Ok (x.0.items, x.1.now)) (λ e. (e ≡ Memory) ⊎ (read ≡ Err e)) }
{
    let (count, left) = row_count(head, size, bytes)?;
    read_items(alloc, &RowItems { size }, count, left)
}
