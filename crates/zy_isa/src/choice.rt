//! Choices: what a schedule is made of.
ghost use Rattle.std.specs.Prelude.{◌≡◌};
ghost use Rattle.zy_isa.specs.Choices.{actor_of};
ghost use Rattle.zy_isa.specs.Choices as spec;

use crate::node::{Actor, Node};

/// One choice of a schedule. A transaction goes by its number, from 0.
#[derive(Clone, Copy, PartialEq, Eq)]
pub enum Choice {
    /// The client starts a migration.
    Start,
    /// The client begins a transaction.
    Begin(u8),
    /// The client kills a transaction.
    Kill(u8),
    /// A node runs the next instruction of a transaction.
    Run(Node, u8),
    /// A node takes the front of its inbound link.
    Take(Node),
    /// A source that runs no transaction any more says so to the other node.
    Finish(Node),
    /// A source that has said so hands over its lowest page.
    Push(Node),
}

impl Choice {
    /// Who makes this step.
    pub fn actor(self) -> Actor
        ensures { result ≡ actor_of self }
    {
        match self {
            Choice::Start => Actor::C,
            Choice::Begin(_) => Actor::C,
            Choice::Kill(_) => Actor::C,
            Choice::Run(n, _) => Actor::of(n),
            Choice::Take(n) => Actor::of(n),
            Choice::Finish(n) => Actor::of(n),
            Choice::Push(n) => Actor::of(n),
        }
    }

    /// Whether the transaction that it names, if it names one, has a number below `count`.
    pub fn names_below(self, count: usize) -> bool
        ensures { result ≡ spec.names_below count self }
    {
        match self {
            Choice::Start => true,
            Choice::Begin(t) => usize::from(t) < count,
            Choice::Kill(t) => usize::from(t) < count,
            Choice::Run(_, t) => usize::from(t) < count,
            Choice::Take(_) => true,
            Choice::Finish(_) => true,
            Choice::Push(_) => true,
        }
    }
}
