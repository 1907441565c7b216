//! One entry of a node.
ghost use Rattle.std.specs.Prelude.{◌≡◌, ◌<◌};
ghost use Rattle.zy_wire.specs.Nodes.{page_end};

use crate::node_id::NodeId;

/// A low key, and the number of what begins there: of a page in a node of the lowest level, of a node in any other.
#[derive(Clone, Copy)]
pub struct IndexEntry {
    pub low: u16,
    to: u32,
}

impl IndexEntry {
    /// A place without an entry.
    pub const BLANK: IndexEntry = IndexEntry { low: 0, to: 0 };

    /// The entry of a page.
    pub fn of_page(low: u16, page: u16) -> IndexEntry
        ensures { result ≡ record { low = low; to = page } }
    {
        IndexEntry {
            low,
            to: u32::from(page),
        }
    }

    /// The entry of a node.
    pub fn of_node(low: u16, id: NodeId) -> IndexEntry
        ensures { result ≡ record { low = low; to = id.0 } }
    {
        IndexEntry { low, to: id.0 }
    }

    /// The page that it is of.
    pub fn page(self) -> u16
        requires { self.to < page_end }
        ensures { result ≡ self.to }
    {
        self.to as u16
    }

    /// The node that it is of.
    pub fn node(self) -> NodeId
        ensures { result.0 ≡ self.to }
    {
        NodeId(self.to)
    }
}
