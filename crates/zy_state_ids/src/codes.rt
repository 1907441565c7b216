//! A number for each variant.
ghost use Rattle.std.specs.Prelude.{◌≡◌};
ghost use Rattle.zy_state_ids.specs.Codes as spec;

use zy_isa::Node;
use zy_model::{LockKind, NodeMode};
use zy_table::{Status, Why};

/// The number of a node.
pub fn node_code(node: Node) -> u64
    ensures { result ≡ spec.node_code node }
{
    match node {
        Node::A => 0,
        Node::B => 1,
    }
}

/// The number of a kind of lock.
pub fn lock_code(kind: LockKind) -> u64
    ensures { result ≡ spec.lock_code kind }
{
    match kind {
        LockKind::Shared => 0,
        LockKind::Exclusive => 1,
    }
}

/// The number of a mode.
pub fn mode_code(mode: NodeMode) -> u64
    ensures { result ≡ spec.mode_code mode }
{
    match mode {
        NodeMode::Empty => 0,
        NodeMode::Normal => 1,
        NodeMode::SInit => 2,
        NodeMode::SDual => 3,
        NodeMode::SFinish => 4,
        NodeMode::DInit => 5,
        NodeMode::DDual => 6,
        NodeMode::DFinish => 7,
    }
}

/// The number of a status, with the reason of an abort.
pub fn status_code(status: Status) -> u64
    ensures { result ≡ spec.status_code status }
{
    match status {
        Status::New => 0,
        Status::Active => 1,
        Status::Committed => 2,
        Status::Aborted(Why::Own) => 3,
        Status::Aborted(Why::Killed) => 4,
        Status::Aborted(Why::BadKey) => 5,
        Status::Aborted(Why::Missing) => 6,
        Status::Aborted(Why::Duplicate) => 7,
        Status::Aborted(Why::NoPage) => 8,
        Status::Aborted(Why::Frozen(_)) => 9,
        Status::Aborted(Why::Gone(_)) => 10,
    }
}

/// The page that the reason of an abort names, or 0.
pub fn status_page(status: Status) -> u16
    ensures { result ≡ spec.status_page status }
{
    match status {
        Status::Aborted(Why::Frozen(page)) => page,
        Status::Aborted(Why::Gone(page)) => page,
        _ => 0,
    }
}
