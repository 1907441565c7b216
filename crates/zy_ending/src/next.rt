//! What comes next in a migration, once no transaction is active.
ghost use Rattle.std.specs.Prelude.{◌≡◌, []};
ghost use Rattle.zy_laws.specs.WayOut as laws;

use zy_isa::{Choice, Node};
use zy_machine::Machine;
use zy_model::NodeMode;

/// What comes next: a message is taken, or if there is none, a node finishes or pushes; none where the migration is over.
pub fn next(machine: &Machine) -> Option<Choice>
    ensures { result ≡ laws.next machine.now.state }
{
    if !machine.link(Node::A).is_empty() {
        return Some(Choice::Take(Node::B));
    }
    if !machine.link(Node::B).is_empty() {
        return Some(Choice::Take(Node::A));
    }
    by_modes(machine.mode(Node::A), machine.mode(Node::B))
}

/// What comes next by the modes of A and B, where no message is on its way.
fn by_modes(a: NodeMode, b: NodeMode) -> Option<Choice>
    ensures { result ≡ laws.next_by [] [] a b }
{
    match (a, b) {
        (NodeMode::SDual, _) => Some(Choice::Finish(Node::A)),
        (NodeMode::SFinish, _) => Some(Choice::Push(Node::A)),
        (_, NodeMode::SDual) => Some(Choice::Finish(Node::B)),
        (_, NodeMode::SFinish) => Some(Choice::Push(Node::B)),
        _ => None,
    }
}
