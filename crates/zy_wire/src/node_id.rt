//! The number of a node.
ghost use Rattle.std.specs.Prelude.{◌≡◌};

/// A node's place among the nodes of its tree.
#[derive(Clone, Copy)]
pub struct NodeId(pub u32);

impl NodeId {
    /// Its place.
    pub fn index(self) -> usize
        ensures { result ≡ self.0 }
    {
        self.0 as usize
    }
}
