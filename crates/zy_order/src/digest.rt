//! Digests of states.

use zy_isa::{Node, Row};
use zy_links::Message;
use zy_machine::Machine;
use zy_model::{Kind, Lock, LockKind, NodeMode};
use zy_table::{CommitRecord, Place, Status, Why};
use zy_txns::Txn;

/// A digest with a number more.
fn mixed(digest: u64, number: u64) -> u64 {
    (digest.rotate_left(5) ^ number).wrapping_mul(0x517c_c1b7_2722_0a95)
}

/// Equal states have equal digests, and most different states have different ones. No contract promises this: a bad
/// digest costs only time. The rows of pages are left out, since the commits in their order decide them.
pub fn digest(machine: &Machine) -> u64 {
    let (a, b) = (machine.mode(Node::A), machine.mode(Node::B));
    let modes = mixed(mode_number(a), mode_number(b));
    let pages = if is_migrating(a, b) {
        mixed_places(modes, machine)
    } else {
        modes
    };
    let txns = mixed_txns(pages, machine);
    let commits = mixed_commits(txns, machine.commits());
    mixed_node(mixed_node(commits, machine, Node::A), machine, Node::B)
}

/// Whether pages may be at both nodes, or on their way.
fn is_migrating(a: NodeMode, b: NodeMode) -> bool {
    a != NodeMode::Empty && b != NodeMode::Empty
}

/// With where each page is.
fn mixed_places(digest: u64, machine: &Machine) -> u64 {
    let mut digest = digest;
    for p in 0..machine.page_count() {
        if let Some((place, _)) = machine.located(p) {
            digest = mixed(digest, place_number(place));
        }
    }
    digest
}

/// With each transaction.
fn mixed_txns(digest: u64, machine: &Machine) -> u64 {
    let mut digest = digest;
    for t in 0..machine.txn_count() {
        digest = mixed_txn(digest, machine.txn(t as u8));
    }
    digest
}

/// With the commits, in their order.
fn mixed_commits(digest: u64, commits: &[CommitRecord]) -> u64 {
    let mut digest = digest;
    for commit in commits {
        digest = mixed(mixed(digest, u64::from(commit.txn)), u64::from(commit.done));
    }
    digest
}

/// With rows, and how many they are.
fn mixed_rows(digest: u64, rows: &[Row]) -> u64 {
    let mut digest = mixed(digest, rows.len() as u64);
    for row in rows {
        digest = mixed(mixed(digest, u64::from(row.key)), u64::from(row.value));
    }
    digest
}

/// With a transaction.
fn mixed_txn(digest: u64, txn: &Txn) -> u64 {
    let mut digest = mixed_status(digest, txn.status());
    digest = mixed(digest, node_number(txn.node()));
    digest = mixed(mixed(digest, u64::from(txn.pc())), u64::from(txn.done()));
    for r in txn.regs() {
        digest = mixed(digest, u64::from(*r));
    }
    mixed_rows(digest, txn.rows())
}

/// With a status; with the reason of an abort, since of an aborted transaction little else may count.
fn mixed_status(digest: u64, status: Status) -> u64 {
    let digest = mixed(digest, status_number(status));
    match status {
        Status::Aborted(why) => mixed_why(digest, why),
        _ => digest,
    }
}

/// With the reason of an abort, and the page that it names.
fn mixed_why(digest: u64, why: Why) -> u64 {
    let digest = mixed(digest, why_number(why));
    match why {
        Why::Frozen(p) => mixed(digest, u64::from(p)),
        Why::Gone(p) => mixed(digest, u64::from(p)),
        _ => digest,
    }
}

/// With what a node has sent, and its locks.
fn mixed_node(digest: u64, machine: &Machine, n: Node) -> u64 {
    mixed_locks(mixed_link(digest, machine, n), machine.locks(n))
}

/// With the messages that a node has sent, and how many they are.
fn mixed_link(digest: u64, machine: &Machine, n: Node) -> u64 {
    let link = machine.link(n);
    let mut digest = mixed(digest, link.len() as u64);
    for i in 0..link.len() {
        digest = mixed_message(digest, link.message_at(i));
    }
    digest
}

/// With locks.
fn mixed_locks(digest: u64, locks: &[Lock]) -> u64 {
    let mut digest = digest;
    for lock in locks {
        digest = mixed(mixed(digest, u64::from(lock.page)), u64::from(lock.txn));
        digest = mixed(digest, lock_number(lock.kind));
    }
    digest
}

/// With the kind of a message, and the page that it asks for or has.
fn mixed_message(digest: u64, message: &Message) -> u64 {
    let digest = mixed(digest, kind_number(message.kind()));
    match message {
        Message::Pull(p) => mixed(digest, u64::from(*p)),
        Message::Page(page) => mixed(digest, u64::from(page.number())),
        _ => digest,
    }
}

fn mode_number(mode: NodeMode) -> u64 {
    match mode {
        NodeMode::Empty => 1,
        NodeMode::Normal => 2,
        NodeMode::SInit => 3,
        NodeMode::SDual => 4,
        NodeMode::SFinish => 5,
        NodeMode::DInit => 6,
        NodeMode::DDual => 7,
        NodeMode::DFinish => 8,
    }
}

fn lock_number(kind: LockKind) -> u64 {
    match kind {
        LockKind::Shared => 1,
        LockKind::Exclusive => 2,
    }
}

fn node_number(node: Node) -> u64 {
    match node {
        Node::A => 1,
        Node::B => 2,
    }
}

fn place_number(place: Place) -> u64 {
    match place {
        Place::Nowhere => 0,
        Place::At(Node::A) => 1,
        Place::At(Node::B) => 2,
        Place::Moving(Node::A) => 3,
        Place::Moving(Node::B) => 4,
    }
}

fn status_number(status: Status) -> u64 {
    match status {
        Status::New => 1,
        Status::Active => 2,
        Status::Committed => 3,
        Status::Aborted(_) => 4,
    }
}

fn why_number(why: Why) -> u64 {
    match why {
        Why::Own => 1,
        Why::Killed => 2,
        Why::BadKey => 3,
        Why::Missing => 4,
        Why::Duplicate => 5,
        Why::Frozen(_) => 6,
        Why::NoPage => 7,
        Why::Gone(_) => 8,
    }
}

fn kind_number(kind: Kind) -> u64 {
    match kind {
        Kind::Wire => 1,
        Kind::Ready => 2,
        Kind::Dual => 3,
        Kind::Pull => 4,
        Kind::Page => 5,
        Kind::Finish => 6,
        Kind::Done => 7,
    }
}
