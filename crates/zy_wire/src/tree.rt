//! A tree of nodes in one list.
ghost use Rattle.std.specs.Prelude.{◌≡◌, ℕ, ◌+◌, ◌<◌, ◌≤◌, ◌∷◌, ◌++◌, [], IfOk, OnOk, OnErr, IsOk, IfSome};
ghost use Rattle.std.specs.Prelude.{List, ◌≢◌, length};
ghost use Rattle.std.specs.List.{All};
ghost use Rattle.zy_wire.specs.declared.entry.IndexEntry.{IndexEntry};
ghost use Rattle.zy_wire.specs.Nodes.{node, lower_half, upper_half, LeadsTo, IsAt, LeafAt, Fits};
ghost use Rattle.zy_wire.specs.Nodes.{key_end, level_end, node_end, most_entries};
ghost use Rattle.zy_wire.specs.Pages.{Holds};

use crate::entry::IndexEntry;
use crate::node::IndexNode;
use crate::node_id::NodeId;
use std::alloc::{AllocError, Global};
use std::marker::Model;

/// The least number above every key.
pub const END: u32 = 65536;

/// A tree of nodes. Each key is one of exactly one node of each level, from the root down to level 0.
#[derive(Drop)]
pub struct Tree {
    nodes: Vec<IndexNode>,
    root: NodeId,
    top: u16,
}

impl Model for Tree {
    ghost use Rattle.std.specs.Prelude.{◌-◌, length};
    ghost use Rattle.std.specs.Vec.{vec_capacity};
    ghost use Rattle.zy_wire.specs.Nodes.{Tree as Value_of, IsTree};

    ghost Value = { Value_of };

    ghost view = { λ t. record {
      nodes = t.nodes.items;
      root = t.root.0;
      top = t.top;
      room = vec_capacity t.nodes - length t.nodes.items;
    } };

    ghost invariant = { λ t. IsTree t.nodes.items t.root.0 t.top };
}

impl Tree {
    /// One node with one entry, which begins at key 0.
    pub fn new(alloc: Global, entry: IndexEntry) -> Result<Tree, AllocError>
        requires { entry.low ≡ 0 }
        ensures nodes { IfOk result (λ t. t.nodes ≡ record { level = 0; end = key_end; entries = entry ∷ [] } ∷ []) }
        ensures top { IfOk result (λ t. t.top ≡ 0) }
    {
        let mut nodes = Vec::with_capacity(alloc, 1)?;
        nodes.push_reserved(IndexNode::with(0, END, entry));
        Ok(Tree {
            nodes,
            root: NodeId(0),
            top: 0,
        })
    }

    /// The level of the root.
    pub fn top(&self) -> u16
        ensures { result ≡ self.now.top }
    {
        self.top
    }

    /// Makes room for a new node of each level and a new root.
    pub fn reserve(&mut self) -> Result<(), AllocError>
        ensures nodes { self.new.nodes ≡ self.old.nodes }
        ensures root { self.new.root ≡ self.old.root }
        ensures top { self.new.top ≡ self.old.top }
        ensures room { OnOk result (self.new.top + 2 ≤ self.new.room) }
        ensures grows { self.old.room ≤ self.new.room }
        ensures kept { OnErr result (self.new ≡ self.old) }
        ensures succeeds { self.old.top + 2 ≤ self.old.room → IsOk result }
    {
        self.nodes.reserve(usize::from(self.top) + 2)
    }

    /// The node with a number.
    fn node(&self, id: NodeId) -> &IndexNode
        requires { id.0 < length self.now.nodes }
        ensures value { result.now ≡ node self.now.nodes id.0 }
        ensures fits { Fits self.now.nodes result.now }
    {
        &self.nodes[id.index()]
    }

    /// The node of the level below that has a key of this one.
    fn down(&self, id: NodeId, key: u16) -> NodeId
        requires at { IsAt self.now.nodes id.0 key }
        requires above { 1 ≤ (node self.now.nodes id.0).level }
        ensures at { IsAt self.now.nodes result.0 key }
        ensures level { (node self.now.nodes result.0).level + 1 ≡ (node self.now.nodes id.0).level }
        ensures leads { LeadsTo key (node self.now.nodes id.0).entries result.0 }
    {
        self.node(id).entry_under(key).node()
    }

    /// The number of the node of level 0 that has a key.
    fn leaf_id(&self, key: u16) -> NodeId
        ensures at { IsAt self.now.nodes result.0 key }
        ensures leaf { (node self.now.nodes result.0).level ≡ 0 }
    {
        let mut id = self.root;
        for _level in 0..self.top {
            id = self.down(id, key);
        }
        id
    }

    /// The node of level 0 that has a key.
    pub fn leaf(&self, key: u16) -> &IndexNode
        ensures { LeafAt self.now.nodes key result.now }
    {
        self.node(self.leaf_id(key))
    }

    /// The last node on the way to a key that has a place for one entry more, if there is one.
    fn roomy(&self, key: u16) -> Option<NodeId>
        ensures at { IfSome result (λ id. IsAt self.now.nodes id.0 key) }
        ensures few { IfSome result (λ id. length (node self.now.nodes id.0).entries < most_entries) }
        ensures level { IfSome result (λ id. (node self.now.nodes id.0).level ≤ self.now.top) }
    {
        let mut found = None;
        let mut id = self.root;
        for _level in 0..self.top {
            if !self.node(id).is_full() {
                found = Some(id);
            }
            id = self.down(id, key);
        }
        if !self.node(id).is_full() {
            found = Some(id);
        }
        found
    }

    /// A new root, with the old one as its only entry.
    fn raise(&mut self) -> NodeId
        requires room { 1 ≤ self.old.room }
        requires level { self.old.top + 1 < level_end }
        requires number { length self.old.nodes < node_end }
        ensures at { (k : ℕ) → k < key_end → IsAt self.new.nodes result.0 k }
        ensures few { length (node self.new.nodes result.0).entries ≡ 1 }
        ensures level { (node self.new.nodes result.0).level ≡ self.new.top }
        ensures top { self.new.top ≡ self.old.top + 1 }
        ensures nodes { length self.new.nodes ≡ length self.old.nodes + 1 }
        ensures room { length self.new.nodes + self.new.room ≡ length self.old.nodes + self.old.room }
        ensures holds { (lows : List ℕ) → Holds lows self.old.nodes → Holds lows self.new.nodes }
    {
        let id = NodeId(self.nodes.len() as u32);
        let level = self.top + 1;
        let entry = IndexEntry::of_node(0, self.root);
        self.nodes.push_reserved(IndexNode::with(level, END, entry));
        self.root = id;
        self.top = level;
        id
    }

    /// Where a way to a key with a place for one entry more in each node begins: at the last node that has one, or at a
    /// new root.
    fn head(&mut self, key: u16) -> NodeId
        requires room { self.old.top + 2 ≤ self.old.room }
        requires level { self.old.top + 1 < level_end }
        requires number { length self.old.nodes + self.old.top + 2 ≤ node_end }
        ensures at { IsAt self.new.nodes result.0 key }
        ensures few { length (node self.new.nodes result.0).entries < most_entries }
        ensures room { (node self.new.nodes result.0).level ≤ self.new.room }
        ensures nodes { length self.new.nodes + (node self.new.nodes result.0).level ≤ length self.old.nodes +
            self.old.top + 2 }
        ensures top { self.new.top ≤ self.old.top + 1 }
        ensures holds { (lows : List ℕ) → Holds lows self.old.nodes → Holds lows self.new.nodes }
    {
        match self.roomy(key) {
            Some(id) => id,
            None => self.raise(),
        }
    }

    /// Cuts a full node below another, and gives that one an entry of the upper half.
    fn cut(&mut self, parent: NodeId, child: NodeId, key: u16) -> NodeId
        requires at { IsAt self.old.nodes parent.0 key }
        requires above { 1 ≤ (node self.old.nodes parent.0).level }
        requires leads { LeadsTo key (node self.old.nodes parent.0).entries child.0 }
        requires few { length (node self.old.nodes parent.0).entries < most_entries }
        requires full { length (node self.old.nodes child.0).entries ≡ most_entries }
        requires room { 1 ≤ self.old.room }
        requires number { length self.old.nodes < node_end }
        ensures number { result.0 ≡ length self.old.nodes }
        ensures lower { node self.new.nodes child.0 ≡ lower_half (node self.old.nodes child.0) }
        ensures upper { node self.new.nodes result.0 ≡ upper_half (node self.old.nodes child.0) }
        ensures top { self.new.top ≡ self.old.top }
        ensures nodes { length self.new.nodes ≡ length self.old.nodes + 1 }
        ensures room { length self.new.nodes + self.new.room ≡ length self.old.nodes + self.old.room }
        ensures holds { (lows : List ℕ) → Holds lows self.old.nodes → Holds lows self.new.nodes }
    {
        let at = self.node(parent).place(key);
        let id = NodeId(self.nodes.len() as u32);
        let upper = self.nodes[child.index()].cut();
        let low = upper.low();
        self.nodes.push_reserved(upper);
        self.nodes[parent.index()].insert(at, IndexEntry::of_node(low, id));
        id
    }

    /// The node below that has a key of this one, which has a place for one entry more. Where that one is full it is
    /// cut.
    fn step(&mut self, id: NodeId, key: u16) -> NodeId
        requires at { IsAt self.old.nodes id.0 key }
        requires above { 1 ≤ (node self.old.nodes id.0).level }
        requires few { length (node self.old.nodes id.0).entries < most_entries }
        requires room { 1 ≤ self.old.room }
        requires number { length self.old.nodes < node_end }
        ensures at { IsAt self.new.nodes result.0 key }
        ensures level { (node self.new.nodes result.0).level + 1 ≡ (node self.old.nodes id.0).level }
        ensures few { length (node self.new.nodes result.0).entries < most_entries }
        ensures top { self.new.top ≡ self.old.top }
        ensures nodes { length self.new.nodes ≤ length self.old.nodes + 1 }
        ensures room { length self.new.nodes + self.new.room ≡ length self.old.nodes + self.old.room }
        ensures holds { (lows : List ℕ) → Holds lows self.old.nodes → Holds lows self.new.nodes }
    {
        let child = self.down(id, key);
        if !self.node(child).is_full() {
            return child;
        }
        let upper = self.cut(id, child, key);
        if u32::from(key) < self.node(child).end() {
            child
        } else {
            upper
        }
    }

    /// The number of the node of level 0 that has a key, with a place for one entry more. The full nodes on the way are
    /// cut from the last one above them that has a place, for each of them would get an entry too many.
    pub fn make_way(&mut self, key: u16) -> NodeId
        requires room { self.old.top + 2 ≤ self.old.room }
        requires level { self.old.top + 1 < level_end }
        requires number { length self.old.nodes + self.old.top + 2 ≤ node_end }
        ensures at { IsAt self.new.nodes result.0 key }
        ensures leaf { (node self.new.nodes result.0).level ≡ 0 }
        ensures few { length (node self.new.nodes result.0).entries < most_entries }
        ensures top { self.new.top ≤ self.old.top + 1 }
        ensures nodes { length self.new.nodes ≤ length self.old.nodes + self.old.top + 2 }
        ensures holds { (lows : List ℕ) → Holds lows self.old.nodes → Holds lows self.new.nodes }
    {
        let mut id = self.head(key);
        for _level in 0..self.node(id).level() {
            id = self.step(id, key);
        }
        id
    }

    /// Puts an entry into a node of level 0.
    pub fn put(&mut self, id: NodeId, entry: IndexEntry)
        requires at { IsAt self.old.nodes id.0 entry.low }
        requires leaf { (node self.old.nodes id.0).level ≡ 0 }
        requires few { length (node self.old.nodes id.0).entries < most_entries }
        requires fresh { All (λ (e : IndexEntry). e.low ≢ entry.low) (node self.old.nodes id.0).entries }
        ensures top { self.new.top ≡ self.old.top }
        ensures nodes { length self.new.nodes ≡ length self.old.nodes }
        ensures holds { (lows : List ℕ) → Holds lows self.old.nodes → entry.to ≡ length lows
            → Holds (lows ++ entry.low ∷ []) self.new.nodes }
    {
        let at = self.node(id).place(entry.low);
        self.nodes[id.index()].insert(at, entry);
    }

    /// A copy of the tree.
    pub fn copy(&self, alloc: Global) -> Result<Tree, AllocError>
        ensures nodes { IfOk result (λ copy. copy.nodes ≡ self.now.nodes) }
        ensures root { IfOk result (λ copy. copy.root ≡ self.now.root) }
        ensures top { IfOk result (λ copy. copy.top ≡ self.now.top) }
    {
        let mut nodes = Vec::with_capacity(alloc, self.nodes.len())?;
        for node in &self.nodes {
            nodes.push_reserved(node.copy());
        }
        Ok(Tree {
            nodes,
            root: self.root,
            top: self.top,
        })
    }
}
