//! The numbers of the pages that a node has asked for.
ghost use Rattle.std.specs.Prelude.{◌≡◌, ◌<◌, [], true, false, IfOk};
ghost use Rattle.zy_isa.specs.Limits.{max_pages};
ghost use Rattle.zy_table.specs.Keys as keys;
ghost use Rattle.zy_table.specs.Numbers.{drop_number};
ghost use Rattle.zy_table.specs.Numbers as table;

use crate::keys::put_key;
use std::alloc::{AllocError, Global};
use std::marker::Model;
use zy_isa::MAX_PAGES;

/// Page numbers in order, none of them twice. A node has a page or two among them at a time, and room for all.
#[derive(Drop)]
pub struct PageSet {
    pages: Vec<u16>,
}

impl Model for PageSet {
    ghost use Rattle.std.specs.Prelude.{◌≡◌, ◌<◌, ◌≤◌, ℕ, List, true};
    ghost use Rattle.std.specs.Vec.{vec_capacity};
    ghost use Rattle.zy_isa.specs.Limits.{max_pages};
    ghost use Rattle.zy_table.specs.Numbers.{has};
    ghost use Rattle.zy_table.specs.Order.{NumbersRise};

    ghost Value = { List ℕ };

    ghost view = { λ m. m.pages.items };

    ghost invariant = { λ m. NumbersRise 0 m.pages.items × ((p : ℕ) → has m.pages.items p ≡ true → p < max_pages)
        × (max_pages ≤ vec_capacity m.pages) };
}

impl PageSet {
    /// No number, and room for each that a page of any scenario may have, so that none is missing whatever its own
    /// `pages` is.
    pub fn new(alloc: Global) -> Result<PageSet, AllocError>
        ensures { IfOk result (λ m. m ≡ []) }
    {
        let pages = Vec::with_capacity(alloc, usize::from(MAX_PAGES))?;
        Ok(PageSet { pages })
    }

    /// A copy of the numbers.
    pub fn copy(&self, alloc: Global) -> Result<PageSet, AllocError>
        ensures { IfOk result (λ copy. copy ≡ self.now) }
    {
        let mut pages = Vec::with_capacity(alloc, usize::from(MAX_PAGES))?;
        pages.extend_from_slice(&self.pages)?;
        Ok(PageSet { pages })
    }

    /// Becomes a copy of other numbers. It takes no memory.
    pub fn set_to(&mut self, other: &PageSet)
        ensures { self.new ≡ other.now }
    {
        self.pages.clear();
        self.pages.extend_from_slice(&other.pages).unwrap();
    }

    /// Whether these are the same numbers as those. Where it answers yes they are.
    pub fn same(&self, other: &PageSet) -> bool
        ensures { result ≡ true → self.now ≡ other.now }
    {
        self.pages.as_slice() == other.pages.as_slice()
    }

    /// The numbers, in order.
    pub fn numbers(&self) -> &[u16]
        ensures { result.now ≡ self.entry.now }
    {
        &self.pages
    }

    /// Whether a number is among them.
    pub fn has(&self, p: u16) -> bool
        ensures { result ≡ table.has self.now p }
    {
        self.pages.contains(&p)
    }

    /// A number more.
    pub fn put(&mut self, p: u16)
        requires few { p < max_pages }
        requires absent { table.has self.old p ≡ false }
        ensures { self.new ≡ keys.put_key p self.old }
    {
        put_key(&mut self.pages, p).unwrap();
    }

    /// A number less, if it is among them.
    pub fn drop(&mut self, p: u16)
        ensures { self.new ≡ drop_number p self.old }
    {
        self.pages.retain(|page| *page != p);
    }
}
