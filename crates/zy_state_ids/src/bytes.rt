//! The bytes of the parts of a machine's state.
ghost use Rattle.std.specs.Prelude.{◌≡◌, ◌++◌, ◌∷◌, [], IfOk, OnOk};
ghost use Rattle.std.specs.List.{flat_map};
ghost use Rattle.zy_steps.specs.Alike.{txn_part};
ghost use Rattle.zy_node.specs.Slots.{laid_out};
ghost use Rattle.zy_state_ids.specs.Packed as spec;
ghost use Rattle.zy_table.specs.Change.{nobody};
ghost use Rattle.zy_table.specs.State.{facing};

use crate::codes::{mode_code, status_code, status_page};
use crate::packing::{Packed, put_items, put_number};
use std::alloc::{AllocError, Global};
use zy_isa::{Node, REGISTERS, Row};
use zy_machine::Machine;
use zy_node::OwnedPages;
use zy_page::Page;
use zy_steps::StatePart;
use zy_txns::Txn;

/// How many bytes there is room for at first: few parts take more.
const USUAL_BYTES: usize = 64;

/// Puts the page that is in a slot, if there is one.
fn put_slot(slot: &Option<Page>, out: &mut Vec<u8>) -> Result<(), AllocError>
    ensures { OnOk result (out.new.items ≡ out.old.items ++ flat_map spec.leaf (laid_out (slot.now ∷ []))) }
{
    match slot {
        Some(page) => page.put(out),
        None => Ok(()),
    }
}

/// Puts the pages that are in slots.
fn put_slots(slots: &[Option<Page>], out: &mut Vec<u8>) -> Result<(), AllocError>
    ensures { OnOk result (out.new.items ≡ out.old.items ++ flat_map spec.leaf (laid_out slots.now)) }
{
    for slot in slots {
        put_slot(slot, out)?;
    }
    Ok(())
}

/// Puts how many pages a node has, and each of them.
fn put_pages(pages: &OwnedPages, out: &mut Vec<u8>) -> Result<(), AllocError>
    ensures { OnOk result (out.new.items ≡ out.old.items ++ spec.items spec.leaf pages.now) }
{
    put_number(pages.len() as u64, out)?;
    put_slots(pages.slots(), out)
}

/// The bytes of a node.
pub(crate) fn node_bytes(alloc: Global, machine: &Machine, n: Node) -> Result<Vec<u8>, AllocError>
    ensures { IfOk result (λ v. v.items ≡ spec.node_state (facing n machine.now.state).me) }
{
    let mut out = Vec::with_capacity(alloc, USUAL_BYTES)?;
    put_number(mode_code(machine.mode(n)), &mut out)?;
    put_items(machine.lows(n), &mut out)?;
    put_pages(machine.pages(n), &mut out)?;
    put_items(machine.asked(n), &mut out)?;
    put_items(machine.locks(n), &mut out)?;
    Ok(out)
}

/// The bytes of the messages on their way from a node.
pub(crate) fn link_bytes(alloc: Global, machine: &Machine, n: Node) -> Result<Vec<u8>, AllocError>
    ensures { IfOk result (λ v. v.items ≡ spec.items spec.message (facing n machine.now.state).outbox) }
{
    let mut out = Vec::with_capacity(alloc, USUAL_BYTES)?;
    machine.link(n).put(&mut out)?;
    Ok(out)
}

/// The bytes of the commits.
pub(crate) fn commit_bytes(alloc: Global, machine: &Machine) -> Result<Vec<u8>, AllocError>
    ensures { IfOk result (λ v. v.items ≡ spec.items spec.commit machine.now.state.commits) }
{
    let mut out = Vec::with_capacity(alloc, USUAL_BYTES)?;
    put_items(machine.commits(), &mut out)?;
    Ok(out)
}

/// Puts the status and the private rows of a transaction, and for the rest what one has that has not begun.
fn put_status_and_rows(txn: &Txn, out: &mut Vec<u8>) -> Result<(), AllocError>
    ensures { OnOk result (out.new.items ≡ out.old.items
        ++ spec.txn (record nobody { status = txn.now.status; rows = txn.now.rows })) }
{
    put_number(status_code(txn.status()), out)?;
    status_page(txn.status()).put(out)?;
    put_number(0, out)?;
    put_first_progress(txn.rows(), out)
}

/// Puts how far a transaction is that has not begun, but with these private rows.
fn put_first_progress(rows: &[Row], out: &mut Vec<u8>) -> Result<(), AllocError>
    ensures { OnOk result (out.new.items ≡ out.old.items ++ (spec.number 0
        ++ (spec.numbers nobody.regs ++ (spec.items spec.row rows.now ++ spec.number 0)))) }
{
    put_number(0, out)?;
    put_items(&[0_u32; REGISTERS], out)?;
    put_items(rows, out)?;
    put_number(0, out)
}

/// Puts what counts of a transaction.
fn put_txn(part: StatePart, txn: &Txn, out: &mut Vec<u8>) -> Result<(), AllocError>
    ensures { OnOk result (out.new.items ≡ out.old.items ++ spec.txn (txn_part part txn.now)) }
{
    match part {
        StatePart::Whole => txn.put(out),
        StatePart::Live => {
            if txn.is_active() {
                txn.put(out)
            } else {
                put_status_and_rows(txn, out)
            }
        }
    }
}

/// The bytes of what counts of a transaction.
pub(crate) fn txn_bytes(alloc: Global, part: StatePart, txn: &Txn) -> Result<Vec<u8>, AllocError>
    ensures { IfOk result (λ v. v.items ≡ spec.txn (txn_part part txn.now)) }
{
    let mut out = Vec::with_capacity(alloc, USUAL_BYTES)?;
    put_txn(part, txn, &mut out)?;
    Ok(out)
}
