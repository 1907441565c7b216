//! The committed transactions, run alone and one by one, and whether the pages have what they leave.
ghost use Rattle.std.specs.Prelude.{◌≡◌, ◌<◌, All, IfOk, OnOk, length};
ghost use Rattle.zy_isa.specs.Rows.{Rising};
ghost use Rattle.zy_table.specs.Database.{database};
ghost use Rattle.zy_table.specs.Serial.{alone};
ghost use Rattle.zy_table.specs.Serial as table_serial;
ghost use Rattle.zy_serial.specs.Lone.{map_of};
ghost use Rattle.zy_serial.specs.SameMaps.{same_map};

use crate::covering::covers;
use crate::lone::written;
use crate::table::Table;
use std::alloc::{AllocError, Global};
use zy_isa::{Program, Scenario};
use zy_machine::Machine;
use zy_table::CommitRecord;

/// The rows that committed transactions leave when they are run alone, one by one, from the opening rows.
pub fn serial(
    alloc: Global,
    scenario: &Scenario,
    commits: &[CommitRecord],
) -> Result<Table, AllocError>
    requires { All (λ c. c.txn < length scenario.now.programs) commits.now }
    ensures map { IfOk result (λ table. map_of table ≡ table_serial.serial scenario.now
        (map_of scenario.now.rows) commits.now) }
    ensures rise { IfOk result (λ table. Rising 0 table) }
{
    let mut table = Table::new(alloc);
    table.lay(scenario.rows())?;
    for commit in commits {
        let program = &scenario.programs()[usize::from(commit.txn)];
        table.run(alloc, program, commit.done)?;
    }
    // Proof: the rows of a table rise by key.
    let _rows = table.rows();
    Ok(table)
}

impl Table {
    /// Runs a program alone, for this number of instructions or to its end, and lays over the table what it wrote.
    fn run(&mut self, alloc: Global, program: &Program, done: u32) -> Result<(), AllocError>
        ensures { OnOk result (map_of self.new ≡ (alone (map_of self.old) program.now done).map) }
    {
        let rows = written(alloc, self, program, done)?;
        self.lay(rows.rows())
    }
}

/// The rows of all pages, wherever they are.
fn all_rows(alloc: Global, machine: &Machine) -> Result<Table, AllocError>
    ensures { IfOk result (λ table. map_of table ≡ database machine.now.state) }
{
    let mut table = Table::new(alloc);
    for p in 0..machine.page_count() {
        if let Some(page) = machine.page(p) {
            table.lay(page.rows())?;
        }
    }
    Ok(table)
}

/// Whether the pages have exactly what the committed transactions leave when they are run alone, one by one.
pub fn same(alloc: Global, machine: &Machine) -> Result<bool, AllocError>
    ensures { IfOk result (λ b. b ≡ same_map (database machine.now.state)
        (table_serial.serial machine.now.scenario (map_of machine.now.scenario.rows) machine.now.state.commits)) }
{
    let alone = serial(alloc, machine.scenario(), machine.commits())?;
    if covers(machine, &alone) {
        return Ok(true);
    }
    let pages = all_rows(alloc, machine)?;
    Ok(pages.rows() == alone.rows())
}
