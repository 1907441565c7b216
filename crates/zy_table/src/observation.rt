//! What a step shows.
ghost use Rattle.std.specs.Prelude.{◌≡◌};
ghost use Rattle.zy_table.specs.Observations as spec;

use crate::entry::Entry;
use crate::outcome::Outcome;
use zy_isa::{Choice, Instr, Node, Reg};
use zy_page::PageRows;

/// What a step shows: what came of its choice, the value of its instruction, the rows of the page that it moved, and where a choice of
/// the client took place.
#[derive(Clone, Copy)]
pub struct Observation {
    /// The choice, its outcome, and the kind of message that was sent.
    pub entry: Entry,
    /// Of a `run` that did: what the register of its instruction holds after it, the one that it set or whose value it wrote. `beq` has
    /// none.
    pub value: Option<u32>,
    /// Of a step that sent or took a page: the rows of that page.
    pub rows: Option<PageRows>,
    /// Of a choice of the client that changed something: the node at which it took place.
    pub node: Option<Node>,
}

/// The register that an instruction shows: the one that it sets, or whose value it writes.
pub fn shown_register(instr: Instr) -> Option<Reg>
    ensures { result ≡ spec.shown_register instr }
{
    match instr {
        Instr::Set(r, _)
        | Instr::Add(r, _)
        | Instr::Read(r, _)
        | Instr::Sum(r, _)
        | Instr::Write(_, r)
        | Instr::Insert(_, r) => Some(r),
        Instr::Beq(_, _, _) | Instr::Commit | Instr::Abort => None,
    }
}

/// The page that a step with this outcome moved: the one that it sent or took.
pub fn moved_page(outcome: Outcome) -> Option<u16>
    ensures { result ≡ spec.moved_page outcome }
{
    match outcome {
        Outcome::GotPull(page) | Outcome::GotPage(page) | Outcome::Pushed(page) => Some(page),
        _ => None,
    }
}

/// The node at which a choice of the client took place, which was made from this side: none, if it changed nothing.
pub fn client_node(choice: Choice, side: Node, outcome: Outcome) -> Option<Node>
    ensures { result ≡ spec.client_node choice side outcome }
{
    match (choice, outcome) {
        (Choice::Start, Outcome::Started) => Some(side),
        (Choice::Begin(_), Outcome::Began(node)) => Some(node),
        (Choice::Kill(_), Outcome::Aborted(_)) => Some(side),
        _ => None,
    }
}
