//! Which part a node has in a migration.
ghost use Rattle.std.specs.Prelude.{◌≡◌};
ghost use Rattle.zy_model.specs.Table.{may_start, may_split, is_waiting, may_pull, may_push};

/// A node's mode. Those of a source begin with S, those of a destination with D.
#[derive(Clone, Copy, PartialEq, Eq)]
pub enum NodeMode {
    /// It has no wireframe and no page.
    Empty,
    /// It has all pages and runs all transactions.
    Normal,
    /// It has sent its wireframe, and still runs all transactions.
    SInit,
    /// It ends the transactions that it has, and hands over the pages that it is asked for.
    SDual,
    /// It runs no transaction, and hands over the pages that it still has.
    SFinish,
    /// It has the wireframe; a transaction that begins here cannot run yet.
    DInit,
    /// Transactions run here, and it asks for the pages that they need.
    DDual,
    /// Transactions run here alone, and it asks for the pages that they need, until none is missing.
    DFinish,
}

impl NodeMode {
    /// Whether a node may start a migration to one in that mode.
    pub fn may_start(self, other: NodeMode) -> bool
        ensures { result ≡ may_start self other }
    {
        matches!((self, other), (NodeMode::Normal, NodeMode::Empty))
    }

    /// Whether a node may split a page.
    pub fn may_split(self) -> bool
        ensures { result ≡ may_split self }
    {
        matches!(self, NodeMode::Normal)
    }

    /// Whether transactions that began at a node cannot run there yet.
    pub fn is_waiting(self) -> bool
        ensures { result ≡ is_waiting self }
    {
        matches!(self, NodeMode::DInit)
    }

    /// Whether a node asks for the pages that it lacks.
    pub fn may_pull(self) -> bool
        ensures { result ≡ may_pull self }
    {
        matches!(self, NodeMode::DDual | NodeMode::DFinish)
    }

    /// Whether a node hands over the pages that are left.
    pub fn may_push(self) -> bool
        ensures { result ≡ may_push self }
    {
        matches!(self, NodeMode::SFinish)
    }
}
