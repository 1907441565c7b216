//! The facts that a state decides by itself.
ghost use Rattle.std.specs.Prelude.{◌≡◌, ◌==◌, ◌&&◌};
ghost use Rattle.std.specs.List.{list_any};
ghost use Rattle.zy_model.specs.Locks as locks_locks;
ghost use Rattle.zy_links.specs.Messages.{message_of, messages_of};
ghost use Rattle.zy_goals.specs.Facts as spec;

use crate::goal::{LinkContent, MessagePattern, PagePlace, Selector, StateFact, TxnProperty};
use crate::terms::{compares, value};
use crate::txns::{committed_before, same_node, selected_have};
use zy_isa::Node;
use zy_links::{Link, Message};
use zy_machine::Machine;
use zy_model::{Kind, Lock, NodeMode};
use zy_table::Place;

/// Whether two modes are one.
fn same_mode(m: NodeMode, n: NodeMode) -> bool
    ensures { result ≡ spec.same_mode m n }
{
    m == n
}

/// Whether a page that is at `place` is where `wanted` says.
fn is_at(wanted: PagePlace, place: Place) -> bool
    ensures { result ≡ spec.is_at wanted place }
{
    match (wanted, place) {
        (PagePlace::At(n), Place::At(m)) => same_node(n, m),
        (PagePlace::OnLinkFrom(n), Place::Moving(m)) => same_node(n, m),
        (PagePlace::Moving, Place::Moving(_)) => true,
        (PagePlace::Absent, Place::Nowhere) => true,
        _ => false,
    }
}

/// Whether one of these locks is on a page.
fn is_locked(locks: &[Lock], page: u16) -> bool
    ensures { result ≡ locks_locks.is_locked locks.now page }
{
    locks.iter().any(|lock| lock.page == page)
}

/// Whether one of these locks is a transaction's on a page.
fn holds(locks: &[Lock], page: u16, txn: u8) -> bool
    ensures { result ≡ locks_locks.holds locks.now page txn }
{
    locks
        .iter()
        .any(|lock| lock.page == page && lock.txn == txn)
}

/// Whether two kinds of messages are one.
fn same_kind(k: Kind, l: Kind) -> bool
    ensures { result ≡ spec.same_kind k l }
{
    k == l
}

/// Whether a message asks for a page.
fn is_pull(page: u16, message: &Message) -> bool
    ensures { result ≡ spec.is_pull page (message_of message.now) }
{
    match message {
        Message::Pull(number) => *number == page,
        Message::Wire(_) => false,
        Message::Ready => false,
        Message::Dual => false,
        Message::Page(_) => false,
        Message::Finish => false,
        Message::Done => false,
    }
}

/// Whether a message brings a page.
fn is_page(page: u16, message: &Message) -> bool
    ensures { result ≡ spec.is_page page (message_of message.now) }
{
    match message {
        Message::Page(leaf) => leaf.number() == page,
        Message::Pull(_) => false,
        Message::Wire(_) => false,
        Message::Ready => false,
        Message::Dual => false,
        Message::Finish => false,
        Message::Done => false,
    }
}

/// Whether a message is like a pattern.
fn is_like(pattern: MessagePattern, message: &Message) -> bool
    ensures { result ≡ spec.is_like pattern (message_of message.now) }
{
    match pattern {
        MessagePattern::OfKind(kind) => same_kind(message.kind(), kind),
        MessagePattern::Pull(page) => is_pull(page, message),
        MessagePattern::Page(page) => is_page(page, message),
    }
}

/// Whether at least one message of a link is like a pattern.
fn has_message(pattern: MessagePattern, link: &Link) -> bool
    ensures { result ≡ list_any (spec.is_like pattern) (messages_of link.now.messages) }
{
    for i in 0..link.len() {
        if is_like(pattern, link.message_at(i)) {
            return true;
        }
    }
    false
}

/// Whether a link has this content.
fn has_content(content: LinkContent, link: &Link) -> bool
    ensures { result ≡ spec.has_content content (messages_of link.now.messages) }
{
    match content {
        LinkContent::Empty => link.is_empty(),
        LinkContent::Has(pattern) => has_message(pattern, link),
    }
}

/// Whether of two modes one is `normal`, and the other is `empty`.
fn are_settled(m: NodeMode, n: NodeMode) -> bool
    ensures { result ≡ spec.are_settled m n }
{
    match (m, n) {
        (NodeMode::Normal, NodeMode::Empty) => true,
        (NodeMode::Empty, NodeMode::Normal) => true,
        _ => false,
    }
}

/// Whether in a machine's state no migration goes on and no transaction is active.
fn is_over(machine: &Machine) -> bool
    ensures { result ≡ spec.is_over machine.now.state }
{
    are_settled(machine.mode(Node::A), machine.mode(Node::B))
        && machine.link(Node::A).is_empty()
        && machine.link(Node::B).is_empty()
        && !selected_have(Selector::Any, TxnProperty::Active, machine)
}

/// Whether a fact holds in a machine's state.
pub fn holds_in(fact: StateFact, machine: &Machine) -> bool
    ensures { result ≡ spec.holds_in fact machine.now.state }
{
    match fact {
        StateFact::Mode(n, mode) => same_mode(machine.mode(n), mode),
        StateFact::Page(page, wanted) => is_at(wanted, machine.place(page)),
        StateFact::Locked(page) => {
            is_locked(machine.locks(Node::A), page) || is_locked(machine.locks(Node::B), page)
        }
        StateFact::LockedBy { txn, page } => {
            holds(machine.locks(Node::A), page, txn) || holds(machine.locks(Node::B), page, txn)
        }
        StateFact::Txns(selector, property) => selected_have(selector, property, machine),
        StateFact::CommittedBefore { earlier, later } => {
            committed_before(earlier, later, machine.commits())
        }
        StateFact::NoRow(key) => machine.value(key).is_none(),
        StateFact::Link(n, content) => has_content(content, machine.link(n)),
        StateFact::Over => is_over(machine),
        StateFact::Compare(left, comparison, right) => {
            compares(comparison, value(left, machine), value(right, machine))
        }
    }
}
