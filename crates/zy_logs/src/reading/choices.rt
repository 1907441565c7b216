//! Reads whose log a line stands in, and its choice.
ghost use Rattle.std.specs.Prelude.{◌≡◌, ◌≤◌};
ghost use Rattle.zy_isa.specs.Limits.{max_txns};
ghost use Rattle.zy_logs.specs.Cursors.{left, read};
ghost use Rattle.zy_logs.specs.Lines as spec;

use crate::expected::ExpectedInLog;
use crate::reading::cursor::{LogCursor, Parsed};
use crate::reading::parts::txn;
use crate::txns::Txns;
use zy_isa::{Actor, Choice, Node};

/// A choice of the client, after the name of the actor whose log it is in. After this name other words are `expected`.
fn client_choice<'a>(
    txns: Txns<'a>,
    expected: ExpectedInLog,
    at: LogCursor<'a>,
) -> Parsed<'a, Choice>
    requires { txns.count ≤ max_txns }
    ensures { read result ≡ spec.client_choice txns.entry expected (left at.entry) }
{
    if at.is_at(b"start") {
        Ok((Choice::Start, at.next()))
    } else if at.is_at(b"begin") {
        let (txn, at) = txn(txns, at.next())?;
        Ok((Choice::Begin(txn), at))
    } else if at.is_at(b"kill") {
        let (txn, at) = txn(txns, at.next())?;
        Ok((Choice::Kill(txn), at))
    } else {
        Err(at.refuses(expected))
    }
}

/// A choice in the log of a node, after its name: one of its own, or of the client.
fn node_choice<'a>(txns: Txns<'a>, node: Node, at: LogCursor<'a>) -> Parsed<'a, Choice>
    requires { txns.count ≤ max_txns }
    ensures { read result ≡ spec.node_choice txns.entry node (left at.entry) }
{
    if at.is_at(b"run") {
        let (txn, at) = txn(txns, at.next())?;
        Ok((Choice::Run(node, txn), at))
    } else if at.is_at(b"take") {
        Ok((Choice::Take(node), at.next()))
    } else if at.is_at(b"finish") {
        Ok((Choice::Finish(node), at.next()))
    } else if at.is_at(b"push") {
        Ok((Choice::Push(node), at.next()))
    } else {
        client_choice(txns, ExpectedInLog::NodeAction, at)
    }
}

/// A choice in the log of an actor, after its name.
pub fn choice<'a>(txns: Txns<'a>, log: Actor, at: LogCursor<'a>) -> Parsed<'a, Choice>
    requires { txns.count ≤ max_txns }
    ensures { read result ≡ spec.choice_of txns.entry log (left at.entry) }
{
    match log {
        Actor::C => client_choice(txns, ExpectedInLog::ClientAction, at),
        Actor::A => node_choice(txns, Node::A, at),
        Actor::B => node_choice(txns, Node::B, at),
    }
}

/// The actor whom the word at hand names.
pub fn whose<'a>(at: LogCursor<'a>) -> Parsed<'a, Actor>
    ensures { read result ≡ spec.whose (left at.entry) }
{
    if at.is_at(b"C") {
        Ok((Actor::C, at.next()))
    } else if at.is_at(b"A") {
        Ok((Actor::A, at.next()))
    } else if at.is_at(b"B") {
        Ok((Actor::B, at.next()))
    } else {
        Err(at.refuses(ExpectedInLog::Actor))
    }
}
