//! The node that acts.
ghost use Rattle.std.specs.Prelude.{◌≡◌, length, true};
ghost use Rattle.zy_isa.specs.Choices.{names_below};
ghost use Rattle.zy_model.specs.Families as families;
ghost use Rattle.zy_table.specs.Play as table;

use zy_isa::{Choice, Node};
use zy_machine::Machine;
use zy_model::NodeMode;
use zy_model::table::on_start;

/// The node whose side a choice is read from; a start that no node may make is read from A's.
pub fn side_of(machine: &Machine, choice: Choice) -> Node
    requires { names_below (length machine.now.scenario.programs) choice ≡ true }
    ensures { result ≡ table.side_of machine.now.scenario choice machine.now.state }
{
    match choice {
        Choice::Start => {
            let (a, b) = (machine.mode(Node::A), machine.mode(Node::B));
            on_start(a, b, machine.scenario().version()).unwrap_or(Node::A)
        }
        Choice::Begin(_) => Node::A,
        Choice::Kill(t) => {
            // Proof: the machine has a transaction for each program of its scenario.
            machine.entries();
            machine.txn(t).node()
        }
        Choice::Run(n, _) | Choice::Take(n) | Choice::Finish(n) | Choice::Push(n) => n,
    }
}

/// Whether a node in this mode is the one of a migration that the pages leave.
pub fn is_source(mode: NodeMode) -> bool
    ensures { result ≡ families.is_source mode }
{
    matches!(mode, NodeMode::SInit | NodeMode::SDual | NodeMode::SFinish)
}
