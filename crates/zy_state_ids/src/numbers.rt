//! The numbers of the parts of a state.
ghost use Rattle.std.specs.Prelude.{◌≡◌, ◌++◌, ◌∷◌, [], ℕ, List, IfOk, OnOk};
ghost use Rattle.zy_state_ids.specs.Parts.{shared_parts, txn_parts, AreNumbersOf, IsNumbered, Keeps};

use crate::bytes::{commit_bytes, link_bytes, node_bytes, txn_bytes};
use crate::part_table::PartTable;
use std::alloc::{AllocError, Global};
use zy_isa::Node;
use zy_machine::Machine;
use zy_steps::StatePart;

/// Puts the number of a part behind others.
fn put(table: &mut PartTable, numbers: &mut Vec<u32>, bytes: Vec<u8>) -> Result<(), AllocError>
    ensures numbers { OnOk result ((xs : List (List ℕ)) → AreNumbersOf table.old numbers.old.items xs
        → AreNumbersOf table.new numbers.new.items (xs ++ bytes.items ∷ [])) }
    ensures keeps { OnOk result (Keeps table.old table.new) }
{
    let number = table.number(bytes)?;
    numbers.push(number)?;
    Ok(())
}

/// The numbers of the parts of a machine's state that are no transactions.
fn shared_numbers(
    alloc: Global,
    machine: &Machine,
    table: &mut PartTable,
) -> Result<Vec<u32>, AllocError>
    ensures numbers { IfOk result (λ v. AreNumbersOf table.new v.items (shared_parts machine.now.state)) }
    ensures keeps { OnOk result (Keeps table.old table.new) }
{
    let mut numbers = Vec::with_capacity(alloc, 5 + machine.txn_count())?;
    put(table, &mut numbers, node_bytes(alloc, machine, Node::A)?)?;
    put(table, &mut numbers, node_bytes(alloc, machine, Node::B)?)?;
    put(table, &mut numbers, link_bytes(alloc, machine, Node::A)?)?;
    put(table, &mut numbers, link_bytes(alloc, machine, Node::B)?)?;
    put(table, &mut numbers, commit_bytes(alloc, machine)?)?;
    Ok(numbers)
}

/// Puts the numbers of what counts of each transaction behind others.
fn put_txns(
    alloc: Global,
    part: StatePart,
    machine: &Machine,
    table: &mut PartTable,
    numbers: &mut Vec<u32>,
) -> Result<(), AllocError>
    ensures numbers { OnOk result ((xs : List (List ℕ)) → AreNumbersOf table.old numbers.old.items xs
        → AreNumbersOf table.new numbers.new.items (xs ++ txn_parts part machine.now.state)) }
    ensures keeps { OnOk result (Keeps table.old table.new) }
{
    for t in 0..machine.txn_count() {
        put(
            table,
            numbers,
            txn_bytes(alloc, part, machine.txn(t as u8))?,
        )?;
    }
    Ok(())
}

/// The numbers of the parts of a machine's state: those of A, B, the link from A, the link from B, the commits, and of what
/// counts of each transaction.
pub fn numbers_of(
    alloc: Global,
    part: StatePart,
    machine: &Machine,
    table: &mut PartTable,
) -> Result<Vec<u32>, AllocError>
    ensures numbers { IfOk result (λ v. IsNumbered table.new part v.items machine.now.state) }
    ensures keeps { OnOk result (Keeps table.old table.new) }
{
    let mut numbers = shared_numbers(alloc, machine, table)?;
    put_txns(alloc, part, machine, table, &mut numbers)?;
    Ok(numbers)
}
