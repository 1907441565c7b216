//! What rows have at the keys from one to another, together.
ghost use Rattle.std.specs.Prelude.{◌≡◌, ◌%◌, ◌^◌, ◌&&◌, is_some, nat_le, not, if◌then◌else◌};
ghost use Rattle.zy_isa.specs.Rows.{Rising, get_row};
ghost use Rattle.zy_table.specs.Ranges.{range, total};
ghost use Rattle.zy_node.specs.Sums.{value_beside};

use zy_isa::Row;
use zy_page::finding::value_at;

/// What some rows have at the keys from one to another, together, modulo 2^32, but for keys that others have.
pub fn sum_of_rows(rows: &[Row], others: &[Row], first: u16, last: u16) -> u32
    requires rows { Rising 0 rows.now }
    requires others { Rising 0 others.now }
    ensures { result ≡ total (value_beside others.now rows.now) (range first last) % 2 ^ 32 }
{
    let mut sum: u32 = 0;
    for row in rows {
        sum = sum.wrapping_add(own_value(row, others, first, last));
    }
    sum
}

/// The value of a row with a key from one to another, 0 where its key is another or others have it.
fn own_value(row: &Row, others: &[Row], first: u16, last: u16) -> u32
    requires { Rising 0 others.now }
    ensures { result
        ≡ (if nat_le first row.now.key && (nat_le row.now.key last && not (is_some (get_row others.now row.now.key)))
        then row.now.value else 0) }
{
    if first <= row.key && row.key <= last && value_at(others, row.key).is_none() {
        row.value
    } else {
        0
    }
}
