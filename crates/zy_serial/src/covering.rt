//! Whether the pages have exactly the rows of a table, compared page by page.
ghost use Rattle.std.specs.Prelude.{◌≡◌, true};
ghost use Rattle.zy_table.specs.Database.{database};
ghost use Rattle.zy_serial.specs.Covering.{HasRun};
ghost use Rattle.zy_serial.specs.Lone.{map_of};

use crate::table::Table;
use zy_isa::Row;
use zy_machine::Machine;

/// Whether rows are side by side among those of a table, from where the first one's key would be.
fn has_run(table: &[Row], run: &[Row]) -> bool
    ensures { result ≡ true → HasRun table.now run.now }
{
    let Some(first) = run.first() else {
        return true;
    };
    let at = table.partition_point(|row| row.key < first.key);
    let (_, rest) = table.split_at(at);
    rest.starts_with(run)
}

/// Whether each page's rows are the table's, and as many as it has. Where they are not, nothing is said of the maps.
pub(crate) fn covers(machine: &Machine, table: &Table) -> bool
    ensures { result ≡ true → map_of table.now ≡ database machine.now.state }
{
    let rows = table.rows();
    let mut count = 0;
    for p in 0..machine.page_count() {
        if let Some(page) = machine.page(p) {
            if !has_run(rows, page.rows()) {
                return false;
            }
            count += page.len();
        }
    }
    count == rows.len()
}
