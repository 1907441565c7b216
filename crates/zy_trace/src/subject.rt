//! What has a line of its own in a state.
use zy_isa::Node;

/// What has a line of its own in a state.
#[derive(Clone, Copy)]
pub enum Subject {
    /// The mode of a node.
    Mode(Node),
    /// A page and the locks on it.
    Page(u16),
    /// The link from a node.
    Link(Node),
    /// A transaction.
    Txn(u8),
}
