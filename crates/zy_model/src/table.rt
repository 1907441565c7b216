//! The mode table: each function is the lines of its definition.
ghost use Rattle.std.specs.Prelude.{◌≡◌};
ghost use Rattle.zy_model.specs.Table.{HandsOver};
ghost use Rattle.zy_model.specs.Table as spec;

use crate::kind::Kind;
use crate::mode::NodeMode;
use zy_isa::{Node, Version};

/// What a message does at a node.
#[derive(Clone, Copy)]
pub enum MessageLine {
    /// It has no place there: it stays in the link.
    Stray,
    /// The node turns to this mode, and sends a message of this kind or none.
    Turns(NodeMode, Option<Kind>),
}

/// What `finish` does at a node.
#[derive(Clone, Copy)]
pub enum FinishLine {
    /// The node is no source in the dual mode.
    BadMode,
    /// A transaction still runs there.
    Active,
    /// The node turns to `SFinish`, and says so to the other node.
    Finishing,
}

/// What a message of this kind does at a node in this mode. `all_here`: with the page that it brings none is missing.
/// A page that is asked for goes out only if it may leave, which this function does not decide. No line depends on the
/// version.
pub fn on_message(mode: NodeMode, kind: Kind, all_here: bool, _version: Version) -> MessageLine
    ensures line { result ≡ spec.on_message mode kind all_here }
    ensures hands_over { HandsOver all_here result }
{
    match (mode, kind) {
        (NodeMode::Empty, Kind::Wire) => MessageLine::Turns(NodeMode::DInit, Some(Kind::Ready)),
        (NodeMode::SInit, Kind::Ready) => MessageLine::Turns(NodeMode::SDual, Some(Kind::Dual)),
        (NodeMode::DInit, Kind::Dual) => MessageLine::Turns(NodeMode::DDual, None),
        (NodeMode::SDual, Kind::Pull) => MessageLine::Turns(NodeMode::SDual, Some(Kind::Page)),
        (NodeMode::SFinish, Kind::Pull) => MessageLine::Turns(NodeMode::SFinish, Some(Kind::Page)),
        (NodeMode::DDual, Kind::Page) => MessageLine::Turns(NodeMode::DDual, None),
        (NodeMode::DFinish, Kind::Page) | (NodeMode::DDual, Kind::Finish) => finishes(all_here),
        (NodeMode::SFinish, Kind::Done) => MessageLine::Turns(NodeMode::Empty, None),
        _ => MessageLine::Stray,
    }
}

/// What becomes of a destination whose source runs nothing any more.
fn finishes(all_here: bool) -> MessageLine
    ensures line { result ≡ spec.finishes all_here }
    ensures hands_over { HandsOver all_here result }
{
    if all_here {
        MessageLine::Turns(NodeMode::Normal, Some(Kind::Done))
    } else {
        MessageLine::Turns(NodeMode::DFinish, None)
    }
}

/// The node from which a migration starts, by the modes of A and B and the version of the scenario: from B in version 2
/// alone.
pub fn on_start(a: NodeMode, b: NodeMode, version: Version) -> Option<Node>
    ensures { result ≡ spec.on_start a b version }
{
    if a.may_start(b) {
        Some(Node::A)
    } else if version.has_since(Version::Two) && b.may_start(a) {
        Some(Node::B)
    } else {
        None
    }
}

/// What `finish` does at a node in this mode. `active`: a transaction is active there.
pub fn on_finish(mode: NodeMode, active: bool) -> FinishLine
    ensures { result ≡ spec.on_finish mode active }
{
    match mode {
        NodeMode::SDual if active => FinishLine::Active,
        NodeMode::SDual => FinishLine::Finishing,
        _ => FinishLine::BadMode,
    }
}

/// The node where a transaction begins, by the modes of A and B.
pub fn home_of(a: NodeMode, b: NodeMode) -> Option<Node>
    ensures { result ≡ spec.home_of a b }
{
    match (a, b) {
        (NodeMode::Normal | NodeMode::SInit, _) => Some(Node::A),
        (_, NodeMode::Normal | NodeMode::SInit) => Some(Node::B),
        (NodeMode::DInit | NodeMode::DDual | NodeMode::DFinish, _) => Some(Node::A),
        (_, NodeMode::DInit | NodeMode::DDual | NodeMode::DFinish) => Some(Node::B),
        _ => None,
    }
}
