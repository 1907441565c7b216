//! Whether a run needs another order than that of its commits, and which.
ghost use Rattle.std.specs.Prelude.{◌≡◌, IfOk, IfSome, is_none};
ghost use Rattle.zy_serial.specs.Lone.{map_of};
ghost use Rattle.zy_serial.specs.SameMaps.{same_map};
ghost use Rattle.zy_laws.specs.SourceFirst.{SerialIn};
ghost use Rattle.zy_laws.specs.SourceFirst as laws;
ghost use Rattle.zy_machine.specs.Histories.{choices_of};
ghost use Rattle.zy_table.specs.Database.{database};
ghost use Rattle.zy_table.specs.Serial.{serial};

use crate::laws::always_same;
use crate::order::migration_order;
use crate::serial::same;
use std::alloc::Global;
use zy_isa::Rule;
use zy_machine::{Fault, Machine};
use zy_table::CommitRecord;

/// The commits of a run in an order in which the committed transactions, run one by one, leave its rows; none if and only
/// if the order of the commits does. It reports that it is out of memory.
pub fn explaining_order(
    alloc: Global,
    machine: &Machine,
) -> Result<Option<Vec<CommitRecord>>, Fault>
    ensures needed { IfOk result (λ found. is_none found ≡ same_map (database machine.now.state)
        (serial machine.now.scenario (map_of machine.now.scenario.rows) machine.now.state.commits)) }
    ensures order { IfOk result (λ found. IfSome found (λ order.
        order.items ≡ laws.migration_order machine.now.scenario (choices_of machine.now.entries))) }
    ensures serial { IfOk result (λ found. IfSome found (λ order.
        SerialIn order.items machine.now.scenario machine.now.state)) }
{
    // Proof: under held the order of the commits does.
    always_same();
    machine.entries();
    if machine.scenario().rule() == Rule::Held || same(alloc, machine)? {
        return Ok(None);
    }
    let order = migration_order(alloc, machine)?;
    Ok(Some(order))
}
