//! The wireframe of a node.
ghost use Rattle.std.specs.Prelude.{◌≡◌, ◌==◌, ◌↔◌, ◌+◌, ◌<◌, ◌≤◌, ◌++◌, ◌∷◌, [], OnOk, OnErr, IfOk, IfSome, IsOk};
ghost use Rattle.std.specs.Prelude.{Err, Contains, ℕ, length, slice_index};
ghost use Rattle.zy_model.specs.Wireframe.{IsGreatest, IsNextLow, IsAfter};
ghost use Rattle.zy_model.specs.Wireframe as spec;
ghost use Rattle.zy_wire.specs.Nodes.{page_end};
ghost use Rattle.zy_wire.specs.Ranges.{in_range};

use crate::entry::IndexEntry;
use crate::key_range::KeyRange;
use crate::tree::{END, Tree};
use std::alloc::{AllocError, Global};
use std::marker::Model;
use thiserror::Error;

/// Why no page is added.
#[derive(Clone, Copy, Debug, PartialEq, Eq, Error)]
pub enum WireFault {
    /// There are as many pages as there may be.
    #[error("the wireframe has as many pages as it may have")]
    Full,
    /// Out of memory for one page more.
    #[error("there is no memory for one page more")]
    Memory,
}

impl From<AllocError> for WireFault {
    ghost use Rattle.zy_wire.specs.declared.wire.WireFault.TheVariants.{Memory};

    ghost from_gives = { λ _ e. e ≡ Memory };

    fn from(_e: AllocError) -> WireFault {
        WireFault::Memory
    }
}

/// The low keys of the pages, by number, the first of which is 0: a key lies on the page with the greatest low key that
/// is not above it. A tree of nodes over the low keys finds it, so that a search reads few of them.
#[derive(Drop)]
pub struct Wire {
    lows: Vec<u16>,
    tree: Tree,
    pages: u16,
}

impl Model for Wire {
    ghost use Rattle.std.specs.Prelude.{◌+◌, ◌-◌, length, min};
    ghost use Rattle.std.specs.Vec.{vec_capacity};
    ghost use Rattle.zy_wire.specs.Pages.{IsSound};
    ghost use Rattle.zy_model.specs.Wireframe.{Wireframe};

    ghost Value = { Wireframe };

    ghost view = { λ w. record {
      lows = w.lows.items;
      pages = w.pages;
      spare = min 1 (min (vec_capacity w.lows - length w.lows.items) (w.tree.room - (w.tree.top + 1)));
    } };

    ghost invariant = { λ w. IsSound w.pages w.lows.items w.tree.nodes w.tree.top };
}

impl Wire {
    /// Page 0 alone, whose low key is 0, and at most `pages` pages in the end.
    pub fn new(alloc: Global, pages: u16) -> Result<Wire, AllocError>
        requires { 1 ≤ pages }
        ensures lows { IfOk result (λ wire. wire.lows ≡ 0 ∷ []) }
        ensures pages { IfOk result (λ wire. wire.pages ≡ pages) }
    {
        let mut lows = Vec::with_capacity(alloc, 1)?;
        lows.push_reserved(0);
        let tree = Tree::new(alloc, IndexEntry::of_page(0, 0))?;
        Ok(Wire { lows, tree, pages })
    }

    /// Makes room for one page more: for its low key, for a new node of each level and for a new root.
    pub fn reserve(&mut self) -> Result<(), AllocError>
        ensures lows { self.new.lows ≡ self.old.lows }
        ensures pages { self.new.pages ≡ self.old.pages }
        ensures room { OnOk result (1 ≤ self.new.spare) }
        ensures grows { self.old.spare ≤ self.new.spare }
        ensures kept { OnErr result (self.new ≡ self.old) }
        ensures succeeds { 1 ≤ self.old.spare → IsOk result }
    {
        self.lows.reserve(1)?;
        self.tree.reserve()
    }

    /// How many pages there are: never none.
    pub fn len(&self) -> usize
        ensures value { result ≡ length self.now.lows }
        ensures some { 1 ≤ result }
        ensures few { result ≤ self.now.pages }
        ensures numbered { result < page_end }
    {
        // Proof: there may be at most as many as a `u16` counts.
        let _pages = self.pages;
        self.lows.len()
    }

    /// The low key of each page, by number.
    pub fn lows(&self) -> &[u16]
        ensures { result.now ≡ self.entry.now.lows }
    {
        &self.lows
    }

    /// The low key of a page, which is 0 for page 0.
    pub fn low_of(&self, page: u16) -> u16
        requires { page < length self.now.lows }
        ensures value { result ≡ slice_index self.now.lows page }
        ensures first { page ≡ 0 → result ≡ 0 }
    {
        self.lows[usize::from(page)]
    }

    /// The page that a key lies on.
    pub fn page_of(&self, key: u16) -> u16
        ensures value { result ≡ spec.page_of self.now.lows key }
        ensures within { result < length self.now.lows }
        ensures few { result < self.now.pages }
        ensures under { slice_index self.now.lows result ≤ key }
        ensures greatest { IsGreatest self.now.lows key result }
    {
        // Proof: a page's number is below the most pages, which a `u16` counts.
        let _pages = self.pages;
        self.tree.leaf(key).entry_under(key).page()
    }

    /// The least low key above `key`, if there is one.
    fn end_of(&self, key: u16) -> Option<u16>
        ensures { IsNextLow self.now.lows key result }
    {
        let end = self.tree.leaf(key).end_of(key);
        if end < END { Some(end as u16) } else { None }
    }

    /// The page with the least low key above `low`, if there is one. It takes no memory.
    pub fn after(&self, low: u16) -> Option<u16>
        ensures next { IsAfter self.now.lows low result }
        ensures few { IfSome result (λ p. p < self.now.pages) }
    {
        // Proof: no two pages have one low key.
        let _lows = &self.lows;
        match self.end_of(low) {
            Some(end) => Some(self.page_of(end)),
            None => None,
        }
    }

    /// How many levels the tree has: never more than there are pages.
    pub fn depth(&self) -> u32
        ensures some { 1 ≤ result }
        ensures few { result ≤ length self.now.lows }
    {
        u32::from(self.tree.top()) + 1
    }

    /// The keys that lie on a page; none where there is no such page.
    pub fn keys_of(&self, page: u16) -> KeyRange
        ensures { (k : ℕ) → in_range result k ≡ (spec.page_of self.now.lows k == page) }
    {
        if usize::from(page) < self.len() {
            self.range_of(page)
        } else {
            KeyRange::NONE
        }
    }

    /// From the low key of a page on, and below the next one.
    fn range_of(&self, page: u16) -> KeyRange
        requires { page < length self.now.lows }
        ensures { (k : ℕ) → in_range result k ≡ (spec.page_of self.now.lows k == page) }
    {
        // Proof: no two pages have one low key.
        let _lows = &self.lows;
        let low = self.low_of(page);
        KeyRange {
            low,
            end: self.end_of(low),
        }
    }

    /// One page more, with the next number and this low key, which no page has yet.
    pub fn grow(&mut self, low: u16) -> Result<(), WireFault>
        requires { ¬ Contains self.old.lows low }
        ensures lows { OnOk result (self.new.lows ≡ self.old.lows ++ low ∷ []) }
        ensures pages { self.new.pages ≡ self.old.pages }
        ensures room { OnOk result (self.old.spare ≤ self.new.spare + 1) }

        // Each refusal comes if and only if it must, and changes nothing.
        ensures full { (result ≡ Err WireFault.Full) ↔ (length self.old.lows ≡ self.old.pages) }
        ensures memory { result ≡ Err WireFault.Memory → self.old.spare ≡ 0 }
        ensures succeeds { length self.old.lows < self.old.pages → 1 ≤ self.old.spare → IsOk result }
        ensures kept { OnErr result (self.new ≡ self.old) }
    {
        if self.len() == usize::from(self.pages) {
            return Err(WireFault::Full);
        }
        self.reserve()?;
        self.put(low);
        Ok(())
    }

    /// Puts the next page into the list and the tree. It takes no memory.
    fn put(&mut self, low: u16)
        requires fresh { ¬ Contains self.old.lows low }
        requires few { length self.old.lows < self.old.pages }
        requires room { 1 ≤ self.old.spare }
        ensures lows { self.new.lows ≡ self.old.lows ++ low ∷ [] }
        ensures pages { self.new.pages ≡ self.old.pages }
        ensures room { self.old.spare ≤ self.new.spare + 1 }
    {
        let page = self.len() as u16;
        let leaf = self.tree.make_way(low);
        self.tree.put(leaf, IndexEntry::of_page(low, page));
        self.lows.push_reserved(low);
    }

    /// A copy, with the same greatest number of pages.
    pub fn copy(&self, alloc: Global) -> Result<Wire, AllocError>
        ensures { IfOk result (λ copy. (copy.lows ≡ self.now.lows) × (copy.pages ≡ self.now.pages)) }
    {
        let mut lows = Vec::with_capacity(alloc, self.len())?;
        lows.extend_from_slice(&self.lows)?;
        Ok(Wire {
            lows,
            tree: self.tree.copy(alloc)?,
            pages: self.pages,
        })
    }
}
