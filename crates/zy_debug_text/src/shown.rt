//! What is shown of a machine.
ghost use Rattle.std.specs.Prelude.{◌≡◌, ◌<◌, ◌++◌, OnOk, length};
ghost use Rattle.zy_io.specs.Writing.{line_of};
ghost use Rattle.zy_isa.specs.declared.node.Node.TheVariants.{A, B};
ghost use Rattle.zy_listing.specs.Locked as audit;
ghost use Rattle.zy_listing.specs.Nodes as spec;
ghost use Rattle.zy_table.specs.State.{facing};
ghost use Rattle.zy_listing.specs.Texts.{link_text, txn_text};
ghost use Rattle.zy_debug_text.specs.Replies.{IsThere, shown_text, where_text};

use std::alloc::AllocError;
use zy_debug::Shown;
use zy_io::{Decimal, Line, LineBuffer, joined};
use zy_isa::Node;
use zy_laws::laws::safe_counts;
use zy_listing::ModeText;
use zy_listing::lines::link::link_line;
use zy_listing::lines::locked::page_reply;
use zy_listing::lines::node::node_reply;
use zy_listing::lines::txn::txn_line;
use zy_machine::Machine;

/// Appends where a machine is in its choices, and the modes there, with their end.
fn append_where(machine: &Machine, line: &mut LineBuffer) -> Result<(), AllocError>
    ensures { OnOk result (line.new ≡ line.old
        ++ line_of (where_text (length machine.now.entries) (length machine.now.scenario.choices) machine.now.state)) }
{
    joined!(
        "at ",
        Decimal(machine.len()),
        " of ",
        Decimal(machine.scenario().choices().len()),
        " modes ",
        ModeText(machine.mode(Node::A)),
        b' ',
        ModeText(machine.mode(Node::B)),
    )
    .append(line)?;
    line.push(b'\n')
}

/// Appends the lines of both links, each with its end.
fn append_links(machine: &Machine, line: &mut LineBuffer) -> Result<(), AllocError>
    ensures { OnOk result (line.new ≡ line.old
        ++ (line_of (link_text A machine.now.state.ab) ++ line_of (link_text B machine.now.state.ba))) }
{
    link_line(machine, Node::A, line)?;
    line.push(b'\n')?;
    link_line(machine, Node::B, line)?;
    line.push(b'\n')
}

/// Appends the line of a transaction, with its end.
fn append_txn(machine: &Machine, t: u8, line: &mut LineBuffer) -> Result<(), AllocError>
    requires { t < length machine.now.scenario.programs }
    ensures { OnOk result (line.new ≡ line.old ++ line_of (txn_text machine.now.state t)) }
{
    // Proof: there is a transaction for each program, and at most 64 of them.
    safe_counts();
    let _scenario = machine.scenario().programs();
    let _count = machine.txn_count();
    txn_line(machine, t, line)?;
    line.push(b'\n')
}

/// Appends the line of a page and its locks, with its end.
fn append_page(machine: &Machine, page: u16, line: &mut LineBuffer) -> Result<(), AllocError>
    ensures { OnOk result (line.new ≡ line.old ++ line_of (audit.page_reply machine.now.state page)) }
{
    page_reply(machine, page, line)?;
    line.push(b'\n')
}

/// Appends the line of a node, with its end.
fn append_node(machine: &Machine, n: Node, line: &mut LineBuffer) -> Result<(), AllocError>
    ensures { OnOk result (line.new ≡ line.old ++ line_of (spec.node_reply n (facing n machine.now.state).me)) }
{
    node_reply(machine, n, line)?;
    line.push(b'\n')
}

/// Appends the lines that are shown of a machine, each with its end.
pub fn append_shown(
    machine: &Machine,
    shown: Shown,
    line: &mut LineBuffer,
) -> Result<(), AllocError>
    requires { IsThere machine.now.scenario shown }
    ensures { OnOk result (line.new ≡ line.old
        ++ shown_text (length machine.now.entries) (length machine.now.scenario.choices) machine.now.state shown) }
{
    match shown {
        Shown::Page(page) => append_page(machine, page, line),
        Shown::Txn(t) => append_txn(machine, t, line),
        Shown::Node(n) => append_node(machine, n, line),
        Shown::Links => append_links(machine, line),
        Shown::Position => append_where(machine, line),
    }
}
