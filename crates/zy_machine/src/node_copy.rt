//! How a node becomes a copy of another one: the wireframe and the messages are copied where they differ, and all else goes
//! into the room that it has.
ghost use Rattle.std.specs.Prelude.{◌≡◌, ℕ, IfOk};
ghost use Rattle.zy_node.specs.Nodes.{node_shown, IsLimited};
ghost use Rattle.zy_machine.specs.NodeCopies.{AreChangedParts, IsChangedMail, IsChangedWire, mail_after, wire_after};

use crate::same::{same_messages, same_wire};
use std::alloc::{AllocError, Global};
use zy_node::wireframe::copy;
use zy_node::{Mailbox, NodeStore};
use zy_wire::Wire;

/// Copies of the parts of another node that differ from a node's; none for a part that is the same.
#[derive(Drop)]
pub(crate) struct ChangedParts {
    wire: Option<Option<Wire>>,
    outbox: Option<Mailbox>,
}

/// A copy of another wireframe, if this one is not the same.
fn changed_wire(
    alloc: Global,
    mine: &Option<Wire>,
    other: &Option<Wire>,
) -> Result<Option<Option<Wire>>, AllocError>
    ensures { IfOk result (IsChangedWire mine.now other.now) }
{
    if same_wire(mine, other) {
        return Ok(None);
    }
    Ok(Some(copy(other, alloc)?))
}

/// A copy of other messages, if these are not the same.
fn changed_outbox(
    alloc: Global,
    mine: &Mailbox,
    other: &Mailbox,
) -> Result<Option<Mailbox>, AllocError>
    ensures { IfOk result (IsChangedMail mine.now other.now) }
{
    if same_messages(mine.link(), other.link()) {
        return Ok(None);
    }
    Ok(Some(other.copy(alloc)?))
}

/// Copies of the parts of another node that differ from a node's, which makes room for the other's locks.
pub(crate) fn changed_parts(
    alloc: Global,
    mine: &mut NodeStore,
    other: &NodeStore,
) -> Result<ChangedParts, AllocError>
    ensures parts { IfOk result (AreChangedParts mine.new other.now) }
    ensures others { let x = mine.old in mine.new ≡ record x { locks = record x.locks { spare = mine.new.locks.spare } } }
{
    mine.locks.reserve_copy(&other.locks)?;
    let wire = changed_wire(alloc, &mine.wire, &other.wire)?;
    let outbox = changed_outbox(alloc, &mine.outbox, &other.outbox)?;
    Ok(ChangedParts { wire, outbox })
}

/// Replaces a wireframe, if there is a new one.
fn put_wire(wire: &mut Option<Wire>, new: Option<Option<Wire>>)
    ensures { wire.new ≡ wire_after wire.old new }
{
    if let Some(new) = new {
        *wire = new;
    }
}

/// Replaces the messages, if there are new ones.
fn put_outbox(outbox: &mut Mailbox, new: Option<Mailbox>)
    ensures { outbox.new ≡ mail_after outbox.old new }
{
    if let Some(new) = new {
        *outbox = new;
    }
}

/// A node becomes a copy of another one. It takes no memory.
pub(crate) fn become_copy(mine: &mut NodeStore, other: &NodeStore, parts: ChangedParts)
    requires { AreChangedParts mine.old other.now parts }
    ensures node { node_shown mine.new ≡ node_shown other.now }
    ensures outbox { mine.new.outbox.messages ≡ other.now.outbox.messages }
    ensures limits { (n : ℕ) → IsLimited n mine.old → IsLimited n other.now → IsLimited n mine.new }
{
    let ChangedParts { wire, outbox } = parts;
    mine.mode = other.mode;
    put_wire(&mut mine.wire, wire);
    mine.pages.set_to(&other.pages);
    mine.asked.set_to(&other.asked);
    mine.locks.set_to(&other.locks);
    put_outbox(&mut mine.outbox, outbox);
}
