//! The two nodes, and who makes a step.
ghost use Rattle.std.specs.Prelude.{◌≡◌};
ghost use Rattle.zy_isa.specs.Choices.{actor_at};

/// A node of the store. A owns all pages at the start.
#[derive(Clone, Copy, PartialEq, Eq)]
pub enum Node {
    A,
    B,
}

/// Who makes a step: the client or one of the nodes.
#[derive(Clone, Copy, PartialEq, Eq)]
pub enum Actor {
    C,
    A,
    B,
}

impl Actor {
    /// The actor that a node is.
    pub fn of(node: Node) -> Actor
        ensures { result ≡ actor_at node }
    {
        match node {
            Node::A => Actor::A,
            Node::B => Actor::B,
        }
    }
}
