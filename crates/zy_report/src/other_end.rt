//! What an order of logs ends with where none has the end that is asked for.

use crate::explained::went_from;
use crate::furthest::Steps;
use std::alloc::{AllocError, Global};
use zy_io::{Decimal, Line, LineBuffer, joined};
use zy_isa::{Choice, Node};
use zy_listing::ModeLine;
use zy_listing::lines::link::link_line;
use zy_machine::{Fault, Machine};
use zy_model::NodeMode;
use zy_order_engine::OrderedLogs;
use zy_source_words::Bytes;

/// Says on standard error that there are orders of logs, none of which ends settled, and what keeps the one from it that
/// makes these choices behind those of the scenario.
pub fn tell_unsettled<R: Eprint + AllocGlobal>(
    rt: &R,
    ordered: &OrderedLogs,
    order: &[Choice],
) -> Result<(), Fault> {
    let machine = went_from(rt.alloc(), &ordered.machine, order)?;
    let parts = unsettled_parts(rt.alloc(), &machine);
    machine.discard();
    let parts = parts?;
    let steps = Steps::of(ordered, order.len());
    let ends = Bytes(parts.as_bytes());
    let _ = eprintln!(rt;
        "zy_bench: there is an order of {steps}, and none has this end: 'settled', and it ends with {ends}"
    );
    drop(parts);
    Ok(())
}

/// What keeps a state from being settled: modes of a migration, messages on links, and active transactions, each as a
/// listing begins its line.
fn unsettled_parts(alloc: Global, machine: &Machine) -> Result<LineBuffer, AllocError> {
    let mut parts = LineBuffer::new(alloc);
    for node in [Node::A, Node::B] {
        push_mode(&mut parts, node, machine.mode(node))?;
    }
    for node in [Node::A, Node::B] {
        push_link(&mut parts, machine, node)?;
    }
    for t in 0..machine.txn_count() {
        if machine.txn(t as u8).is_active() {
            open(&mut parts)?;
            joined!("txn ", Decimal(t), " active").append(&mut parts)?;
            parts.push(b'\'')?;
        }
    }
    Ok(parts)
}

/// Opens the quotes of one part more.
fn open(parts: &mut LineBuffer) -> Result<(), AllocError> {
    parts.push_str(if parts.is_empty() { "'" } else { ", '" })
}

/// Adds the mode of a node that takes part in a migration.
fn push_mode(parts: &mut LineBuffer, node: Node, mode: NodeMode) -> Result<(), AllocError> {
    if matches!(mode, NodeMode::Normal | NodeMode::Empty) {
        return Ok(());
    }
    open(parts)?;
    ModeLine { node, mode }.append(parts)?;
    parts.push(b'\'')
}

/// Adds the link from a node, if it has messages.
fn push_link(parts: &mut LineBuffer, machine: &Machine, node: Node) -> Result<(), AllocError> {
    if machine.link(node).is_empty() {
        return Ok(());
    }
    open(parts)?;
    link_line(machine, node, parts)?;
    parts.push(b'\'')
}
