//! The pages of a node, counted, and with a number that is not above any of theirs.
ghost use Rattle.std.specs.Prelude.{◌≡◌, ◌<◌, ◌≤◌, [], None, true, IfOk, length, option_copied};
ghost use Rattle.zy_model.specs.Leaf.{Leaf, rows_from};
ghost use Rattle.std.specs.Bool.{Decides};
ghost use Rattle.zy_isa.specs.Limits.{max_pages};
ghost use Rattle.zy_node.specs.OwnedPages.{with_row, OwnsBelow};
ghost use Rattle.zy_node.specs.Install.{HasRoomForPage};
ghost use Rattle.zy_node.specs.Slots.{laid_out};
ghost use Rattle.zy_table.specs.Numbers.{least};
ghost use Rattle.zy_table.specs.Order.{NumbersRise};
ghost use Rattle.zy_table.specs.Pages.{leaf_at, lowered, numbers, page_in, rows_of, with_page, without};
ghost use Rattle.zy_table.specs.Pages as table;

use crate::page_store::PageStore;
use std::alloc::{AllocError, Global};
use std::marker::Model;
use zy_page::Page;

/// The pages that a node owns.
#[derive(Drop)]
pub struct OwnedPages {
    store: PageStore,
    count: usize,
    first: u16,
}

impl Model for OwnedPages {
    ghost use Rattle.std.specs.Prelude.{List};
    ghost use Rattle.zy_model.specs.Leaf.{Leaf};
    ghost use Rattle.zy_node.specs.OwnedPages.{AreCounted};

    ghost Value = { List Leaf };

    ghost view = { λ o. o.store };

    ghost invariant = { λ o. AreCounted o.count o.first o.store };
}

impl OwnedPages {
    /// No pages, and room for each that any scenario may have.
    pub fn new(alloc: Global) -> Result<OwnedPages, AllocError>
        ensures { IfOk result (λ o. o ≡ []) }
    {
        let store = PageStore::new(alloc)?;
        Ok(OwnedPages {
            store,
            count: 0,
            first: 0,
        })
    }

    /// A copy of the pages.
    pub fn copy(&self, alloc: Global) -> Result<OwnedPages, AllocError>
        ensures { IfOk result (λ copy. copy ≡ self.now) }
    {
        let store = self.store.copy(alloc)?;
        Ok(OwnedPages {
            store,
            count: self.count,
            first: self.first,
        })
    }

    /// The slots of the pages: each page is in the slot of its number, and a slot may be empty.
    pub fn slots(&self) -> &[Option<Page>]
        ensures { laid_out result.now ≡ self.entry.now }
    {
        self.store.slots()
    }

    /// The page of a number, if it is here.
    pub fn get(&self, p: u16) -> Option<&Page>
        ensures { option_copied result ≡ page_in p self.entry.now }
    {
        self.store.get(p)
    }

    /// Becomes a copy of other pages. It takes no memory.
    pub fn set_to(&mut self, other: &OwnedPages)
        ensures { self.new ≡ other.now }
    {
        self.store.set_to(&other.store);
        self.count = other.count;
        self.first = other.first;
    }

    /// Whether these are the same pages as those. Where it answers yes they are.
    pub fn same(&self, other: &OwnedPages) -> bool
        ensures { result ≡ true → self.now ≡ other.now }
    {
        self.store.same(&other.store)
    }

    /// Whether the page of a number is here.
    pub fn owns(&self, p: u16) -> bool
        ensures { result ≡ table.owns self.now p }
    {
        self.store.owns(p)
    }

    /// Whether the page of each number below `n` is here. That takes one test where those are all that there are.
    pub fn owns_below(&self, n: u16) -> bool
        ensures { Decides result (OwnsBelow n self.now) }
    {
        self.store.owns_below(n, self.count)
    }

    /// How many there are.
    pub fn len(&self) -> usize
        ensures value { result ≡ length self.now }
        ensures few { result ≤ max_pages }
        ensures rise { NumbersRise 0 (numbers self.now) }
    {
        // Proof: the pages are in order of their numbers, and there are at most 512.
        self.store.in_order();
        self.count
    }

    /// The lowest one. To look for it again costs nothing.
    pub fn lowest(&mut self) -> Option<u16>
        ensures value { result ≡ least (numbers self.old) }
        ensures same { self.new ≡ self.old }
    {
        if self.count == 0 {
            return None;
        }
        let lowest = self.store.lowest_from(self.first);
        if let Some(p) = lowest {
            self.first = p;
        }
        lowest
    }

    /// Takes a page in.
    pub fn put(&mut self, page: Page)
        requires room { page.number < max_pages }
        requires absent { page_in page.number self.old ≡ None }
        ensures { self.new ≡ with_page page self.old }
    {
        self.count = self.len() + 1;
        self.first = self.first.min(page.number());
        self.store.put(page);
    }

    /// Moves a page out.
    pub fn take(&mut self, p: u16) -> Page
        requires { table.owns self.old p ≡ true }
        ensures page { result ≡ leaf_at self.old p }
        ensures left { self.new ≡ without p self.old }
    {
        self.count -= 1;
        self.store.take(p)
    }

    /// Puts a row on a page, if that page is here and has room for it.
    pub fn install(&mut self, p: u16, key: u16, value: u32)
        requires { HasRoomForPage key (page_in p self.old) }
        ensures { self.new ≡ with_row p key value self.old }
    {
        self.store.install(p, key, value);
    }

    /// Cuts a page at `boundary`: its rows at or above that go to a new page with this number, which is taken in.
    pub fn cut(&mut self, p: u16, boundary: u16, number: u16)
        requires room { number < max_pages }
        requires absent { page_in number self.old ≡ None }
        requires there { table.owns self.old p ≡ true }
        ensures { let upper : Leaf = record {
          number = number;
          low = boundary;
          rows = rows_from boundary (rows_of self.old p);
        } in
            self.new ≡ with_page upper (lowered p boundary self.old) }
    {
        let upper = self.store.split_off(p, boundary, number);
        self.put(upper);
    }
}
