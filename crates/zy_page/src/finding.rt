//! The search for a key in rows in key order.
ghost use Rattle.std.specs.Prelude.{◌≡◌};
ghost use Rattle.zy_isa.specs.Rows.{Rising, get_row};
ghost use Rattle.zy_page.specs.Place.{IsRowPlace, FindsRow};

use zy_isa::Row;

/// How many keys are below `key`.
pub fn place(rows: &[Row], key: u16) -> usize
    requires { Rising 0 rows.now }
    ensures { IsRowPlace key rows.now result }
{
    rows.partition_point(|row| row.key < key)
}

/// The index of the row at `key`, or the one where it would be.
pub fn search(rows: &[Row], key: u16) -> Result<usize, usize>
    requires { Rising 0 rows.now }
    ensures { FindsRow key rows.now result }
{
    let at = place(rows, key);
    if at < rows.len() && rows[at].key == key {
        Ok(at)
    } else {
        Err(at)
    }
}

/// The value at `key`.
pub fn value_at(rows: &[Row], key: u16) -> Option<u32>
    requires { Rising 0 rows.now }
    ensures { result ≡ get_row rows.now key }
{
    match search(rows, key) {
        Ok(at) => Some(rows[at].value),
        Err(_) => None,
    }
}
