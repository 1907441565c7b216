//! Whether two states are the same. Where it answers yes they are.
ghost use Rattle.std.specs.Prelude.{◌≡◌, true};
ghost use Rattle.zy_links.specs.Messages.{message_of, messages_of};
ghost use Rattle.zy_node.specs.Nodes.{node_shown};
ghost use Rattle.zy_node.specs.Wireframes.{lows_in};
ghost use Rattle.zy_machine.specs.NodePairs.{state_of};

use crate::node_pair::NodePair;
use zy_isa::Node;
use zy_links::{Link, Message};
use zy_model::{Lock, NodeMode};
use zy_node::NodeStore;
use zy_node::same::same_page;
use zy_table::{CommitRecord, Status};
use zy_txns::{Book, Txn, same_rows};
use zy_wire::Wire;

impl NodePair {
    /// Whether two states are the same.
    pub(crate) fn is_same(&self, other: &NodePair) -> bool
        ensures { result ≡ true → state_of self.now ≡ state_of other.now }
    {
        if !same_txns(&self.book, &other.book) {
            return false;
        }
        if !same_commits(self.book.commits(), other.book.commits()) {
            return false;
        }
        if !same_node(&self.a, &other.a) {
            return false;
        }
        if !same_node(&self.b, &other.b) {
            return false;
        }
        if !same_messages(self.a.outbox.link(), other.a.outbox.link()) {
            return false;
        }
        same_messages(self.b.outbox.link(), other.b.outbox.link())
    }
}

/// Whether two nodes are the same, but for what they send.
fn same_node(x: &NodeStore, y: &NodeStore) -> bool
    ensures { result ≡ true → node_shown x.now ≡ node_shown y.now }
{
    if !same_mode(x.mode, y.mode) {
        return false;
    }
    if !same_wire(&x.wire, &y.wire) {
        return false;
    }
    if !x.pages.same(&y.pages) {
        return false;
    }
    if !x.asked.same(&y.asked) {
        return false;
    }
    same_locks(x.locks.locks(), y.locks.locks())
}

/// Whether two modes are the same.
fn same_mode(m: NodeMode, n: NodeMode) -> bool
    ensures { result ≡ true → m ≡ n }
{
    m == n
}

/// Whether two lists have the same locks in the same order.
fn same_locks(xs: &[Lock], ys: &[Lock]) -> bool
    ensures { result ≡ true → xs.now ≡ ys.now }
{
    xs == ys
}

/// Whether two nodes' wireframes, if any, have the same low keys.
pub(crate) fn same_wire(x: &Option<Wire>, y: &Option<Wire>) -> bool
    ensures { result ≡ true → lows_in x.now ≡ lows_in y.now }
{
    match (x, y) {
        (Some(x), Some(y)) => same_lows(x, y),
        (None, None) => true,
        _ => false,
    }
}

/// Whether two wireframes have the same low keys.
fn same_lows(x: &Wire, y: &Wire) -> bool
    ensures { result ≡ true → x.now.lows ≡ y.now.lows }
{
    if x.len() != y.len() {
        return false;
    }
    for p in 0..x.len() {
        if x.low_of(p as u16) != y.low_of(p as u16) {
            return false;
        }
    }
    true
}

/// Whether two links carry the same messages.
pub(crate) fn same_messages(x: &Link, y: &Link) -> bool
    ensures { result ≡ true → messages_of x.now.messages ≡ messages_of y.now.messages }
{
    if x.len() != y.len() {
        return false;
    }
    for i in 0..x.len() {
        if !same_message(x.message_at(i), y.message_at(i)) {
            return false;
        }
    }
    true
}

/// Whether two messages are the same.
fn same_message(x: &Message, y: &Message) -> bool
    ensures { result ≡ true → message_of x.now ≡ message_of y.now }
{
    match (x, y) {
        (Message::Wire(x), Message::Wire(y)) => same_lows(x, y),
        (Message::Ready, Message::Ready) => true,
        (Message::Dual, Message::Dual) => true,
        (Message::Pull(p), Message::Pull(q)) => *p == *q,
        (Message::Page(x), Message::Page(y)) => same_page(x, y),
        (Message::Finish, Message::Finish) => true,
        (Message::Done, Message::Done) => true,
        _ => false,
    }
}

/// Whether all transactions are the same.
fn same_txns(x: &Book, y: &Book) -> bool
    ensures { result ≡ true → x.now.txns ≡ y.now.txns }
{
    if x.len() != y.len() {
        return false;
    }
    for t in 0..x.len().min(256) {
        if !same_txn(x.txn(t as u8), y.txn(t as u8)) {
            return false;
        }
    }
    x.len() <= 256
}

/// Whether two transactions are the same.
fn same_txn(x: &Txn, y: &Txn) -> bool
    ensures { result ≡ true → x.now ≡ y.now }
{
    if !same_status(x.status(), y.status()) {
        return false;
    }
    if !is_node(x.node(), y.node()) {
        return false;
    }
    if x.pc() != y.pc() {
        return false;
    }
    if !same_regs(x.regs(), y.regs()) {
        return false;
    }
    if !same_rows(x.rows(), y.rows()) {
        return false;
    }
    x.done() == y.done()
}

/// Whether two transactions are in the same state.
fn same_status(x: Status, y: Status) -> bool
    ensures { result ≡ true → x ≡ y }
{
    x == y
}

/// Whether two names are of the same node.
fn is_node(m: Node, n: Node) -> bool
    ensures { result ≡ true → m ≡ n }
{
    m == n
}

/// Whether two transactions have the same values in their registers.
fn same_regs(xs: &[u32], ys: &[u32]) -> bool
    ensures { result ≡ true → xs.now ≡ ys.now }
{
    xs == ys
}

/// Whether two lists have the same commits in the same order.
fn same_commits(xs: &[CommitRecord], ys: &[CommitRecord]) -> bool
    ensures { result ≡ true → xs.now ≡ ys.now }
{
    xs == ys
}
