//! The pages of the keys from one to another, one after the other in order of low key.
ghost use Rattle.std.specs.Prelude.{◌≡◌, ◌<◌, ◌≤◌, ℕ, ◌∷◌, [], None, IfSome, length};
ghost use Rattle.zy_model.specs.Locks.{unheld};
ghost use Rattle.zy_locks.specs.LockTable.{HasPlaces};
ghost use Rattle.zy_table.specs.Change.{share_all};
ghost use Rattle.zy_table.specs.Ranges.{range_pages};
ghost use Rattle.zy_table.specs.Run.{first_absent, first_taken};
ghost use Rattle.zy_node.specs.Wireframes.{lows_in, limit_or};
ghost use Rattle.zy_node.specs.RangeSteps.{IsNextInRange};

use crate::owned_pages::OwnedPages;
use crate::wireframe::page_of;
use zy_locks::Locks;
use zy_model::LockKind;
use zy_wire::Wire;

/// A page and its low key.
#[derive(Clone, Copy)]
pub struct RangePage {
    pub low: u16,
    pub page: u16,
}

/// The page behind one that begins at `low`, or has that key, among those of the keys up to `last`.
pub fn next_page(wire: &Option<Wire>, low: u16, last: u16) -> Option<RangePage>
    ensures next { IsNextInRange result (lows_in wire.now) low last }
    ensures few { (n : ℕ) → limit_or n wire.now ≤ n → IfSome result (λ e. e.page < n) }
{
    match wire {
        Some(wire) => next_of(wire, low, last),
        None => None,
    }
}

/// The next page among those of a wireframe.
fn next_of(wire: &Wire, low: u16, last: u16) -> Option<RangePage>
    ensures next { IsNextInRange result wire.now.lows low last }
    ensures few { IfSome result (λ e. e.page < wire.now.pages) }
{
    match wire.after(low) {
        Some(page) if wire.low_of(page) <= last => Some(RangePage {
            low: wire.low_of(page),
            page,
        }),
        _ => None,
    }
}

/// The first page that is not among these.
pub(crate) fn absent_page(
    wire: &Option<Wire>,
    pages: &OwnedPages,
    first: u16,
    last: u16,
) -> Option<u16>
    ensures value { result ≡ first_absent pages.now (range_pages (lows_in wire.now) first last) }
    ensures few { (n : ℕ) → limit_or n wire.now ≤ n → 0 < n → IfSome result (λ p. p < n) }
{
    let mut low = first;
    let mut page = page_of(wire, first);
    while pages.owns(page) {
        let Some(next) = next_page(wire, low, last) else {
            return None;
        };
        low = next.low;
        page = next.page;
    }
    Some(page)
}

/// The first page on which another's lock is in the way of sharing it.
pub(crate) fn taken_page(
    wire: &Option<Wire>,
    locks: &Locks,
    t: u8,
    first: u16,
    last: u16,
) -> Option<u16>
    ensures { result ≡ first_taken locks.now.locks t (range_pages (lows_in wire.now) first last) }
{
    let mut low = first;
    let mut page = page_of(wire, first);
    while locks.free_place(page, t, LockKind::Shared).is_some() {
        let Some(next) = next_page(wire, low, last) else {
            return None;
        };
        low = next.low;
        page = next.page;
    }
    Some(page)
}

/// On how many of the pages `t` has no lock.
pub(crate) fn unheld_pages(
    wire: &Option<Wire>,
    locks: &Locks,
    t: u8,
    first: u16,
    last: u16,
) -> usize
    ensures { result ≡ length (unheld (range_pages (lows_in wire.now) first last) t locks.now.locks) }
{
    let mut count = new_places(locks, page_of(wire, first), t);
    let mut low = first;
    while let Some(next) = next_page(wire, low, last) {
        count += new_places(locks, next.page, t);
        low = next.low;
    }
    count
}

/// How many places `t`'s lock on a page needs: none where it is there.
fn new_places(locks: &Locks, page: u16, t: u8) -> usize
    ensures value { result ≡ length (unheld (page ∷ []) t locks.now.locks) }
    ensures few { result ≤ 1 }
{
    if locks.holds(page, t) { 0 } else { 1 }
}

/// Shares each page for `t`, where nothing is in the way and its locks have places. It takes no memory.
pub(crate) fn share_pages(wire: &Option<Wire>, locks: &mut Locks, t: u8, first: u16, last: u16)
    requires free { first_taken locks.old.locks t (range_pages (lows_in wire.now) first last) ≡ None }
    requires room { HasPlaces (range_pages (lows_in wire.now) first last) t locks.old }
    ensures { locks.new.locks ≡ share_all (range_pages (lows_in wire.now) first last) t locks.old.locks }
{
    locks.lock(page_of(wire, first), t, LockKind::Shared);
    let mut low = first;
    while let Some(next) = next_page(wire, low, last) {
        locks.lock(next.page, t, LockKind::Shared);
        low = next.low;
    }
}
