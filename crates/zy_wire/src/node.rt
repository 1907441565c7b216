//! A node of the tree.
ghost use Rattle.std.specs.Prelude.{◌≡◌, ◌==◌, ℕ, ◌+◌, ◌<◌, ◌≤◌, ◌∷◌, [], drop, insert, length};
ghost use Rattle.zy_wire.specs.ByLow.{Rise, IsEntryPlace, Leads, front};
ghost use Rattle.zy_wire.specs.Nodes.{most_entries, lower_half, upper_half};

use crate::entry::IndexEntry;
use std::marker::Model;

/// The most entries of a node.
const ROOM: usize = 8;

/// How many entries stay where a full node is cut.
const HALF: usize = 4;

/// What a node is: its level, its end, and its cells, of which the first `len` have its entries. It is copied in one
/// piece.
#[derive(Clone, Copy)]
struct NodeState {
    level: u16,
    end: u32,
    len: usize,
    cells: [IndexEntry; ROOM],
}

/// Entries in order of low key, with every low key from the first one on and below an end. Those of level 0 are of
/// pages, and those of each other level of nodes of the level below.
#[derive(Drop)]
pub struct IndexNode {
    state: NodeState,
}

impl Model for IndexNode {
    ghost use Rattle.std.specs.Prelude.{take};
    ghost use Rattle.zy_wire.specs.Nodes.{TreeNode, IsCells};

    ghost Value = { TreeNode };

    ghost view = { λ n. record { level = n.state.level; end = n.state.end; entries = take n.state.len n.state.cells } };

    ghost invariant = { λ n. IsCells n.state.len n.state.cells };
}

impl IndexNode {
    /// A node with one entry.
    pub fn with(level: u16, end: u32, entry: IndexEntry) -> IndexNode
        ensures { result ≡ record { level = level; end = end; entries = entry ∷ [] } }
    {
        IndexNode::of(level, end, &[entry])
    }

    /// A node with these entries.
    fn of(level: u16, end: u32, entries: &[IndexEntry]) -> IndexNode
        requires { length entries.now ≤ most_entries }
        ensures { result ≡ record { level = level; end = end; entries = entries.now } }
    {
        let mut cells = [IndexEntry::BLANK; ROOM];
        cells[..entries.len()].copy_from_slice(entries);
        IndexNode {
            state: NodeState {
                level,
                end,
                len: entries.len(),
                cells,
            },
        }
    }

    /// How many levels are below it.
    pub fn level(&self) -> u16
        ensures { result ≡ self.now.level }
    {
        self.state.level
    }

    /// The least key of the node.
    pub fn low(&self) -> u16
        requires { 1 ≤ length self.now.entries }
        ensures { result ≡ front self.now.entries self.now.end }
    {
        self.entries()[0].low
    }

    /// The least number above the keys of the node.
    pub fn end(&self) -> u32
        ensures { result ≡ self.now.end }
    {
        self.state.end
    }

    /// The entries, in order of low key.
    pub fn entries(&self) -> &[IndexEntry]
        ensures value { result.now ≡ self.now.entries }
        ensures bound { length self.now.entries ≤ most_entries }
    {
        &self.state.cells[..self.state.len]
    }

    /// Whether there is no place for one entry more.
    pub fn is_full(&self) -> bool
        ensures value { result ≡ (length self.now.entries == most_entries) }
        ensures bound { length self.now.entries ≤ most_entries }
    {
        self.entries().len() == ROOM
    }

    /// How many low keys are not above `key`.
    pub fn place(&self, key: u16) -> usize
        requires rise { Rise 0 self.now.entries self.now.end }
        requires some { 1 ≤ length self.now.entries }
        requires under { front self.now.entries self.now.end ≤ key }
        ensures { IsEntryPlace key self.now.entries result }
    {
        place(self.entries(), key, self.state.end)
    }

    /// The last entry whose low key is not above `key`.
    pub fn entry_under(&self, key: u16) -> IndexEntry
        requires rise { Rise 0 self.now.entries self.now.end }
        requires some { 1 ≤ length self.now.entries }
        requires under { front self.now.entries self.now.end ≤ key }
        ensures { Leads key self.now.entries result }
    {
        self.entries()[self.place(key) - 1]
    }

    /// The least low key above `key`, or the end of the node.
    pub fn end_of(&self, key: u16) -> u32
        requires rise { Rise 0 self.now.entries self.now.end }
        requires some { 1 ≤ length self.now.entries }
        requires under { front self.now.entries self.now.end ≤ key }
        ensures { (i : ℕ) × IsEntryPlace key self.now.entries i × (result ≡ front (drop i self.now.entries) self.now.end) }
    {
        match self.entries().get(self.place(key)) {
            Some(entry) => u32::from(entry.low),
            None => self.state.end,
        }
    }

    /// Puts an entry at a place, and moves those from there on up.
    pub fn insert(&mut self, at: usize, entry: IndexEntry)
        requires within { at ≤ length self.old.entries }
        requires room { length self.old.entries < most_entries }
        ensures { self.new ≡ record self.old { entries = insert self.old.entries at entry } }
    {
        self.state.cells.copy_within(at..self.state.len, at + 1);
        self.state.cells[at] = entry;
        self.state.len += 1;
    }

    /// Moves the upper half of a full node's entries into a new one.
    pub fn cut(&mut self) -> IndexNode
        requires { length self.old.entries ≡ most_entries }
        ensures upper { result ≡ upper_half self.old }
        ensures lower { self.new ≡ lower_half self.old }
    {
        let upper = IndexNode::of(self.state.level, self.state.end, &self.entries()[HALF..]);
        self.state.end = u32::from(self.state.cells[HALF].low);
        self.state.len = HALF;
        upper
    }

    /// A copy of the node.
    pub fn copy(&self) -> IndexNode
        ensures { result ≡ self.now }
    {
        IndexNode { state: self.state }
    }
}

/// How many low keys are not above `key`, as the first is not.
fn place(entries: &[IndexEntry], key: u16, end: u32) -> usize
    requires rise { Rise 0 entries.now end }
    requires some { 1 ≤ length entries.now }
    requires under { front entries.now end ≤ key }
    ensures { IsEntryPlace key entries.now result }
{
    for i in 1..entries.len() {
        if key < entries[i].low {
            return i;
        }
    }
    entries.len()
}
