//! Whether a page's line is what it was, without making it.
ghost use Rattle.std.specs.Prelude.{◌≡◌, ◌≤◌, ◌&&◌, true, length, take};
ghost use Rattle.zy_table.specs.State.{facing};
ghost use Rattle.zy_listing.specs.Locked.{page_reply};
ghost use Rattle.zy_trace.specs.Kept.{AreRests, none_on};

use zy_isa::{Node, Row};
use zy_machine::Machine;
use zy_model::Lock;
use zy_page::Page;
use zy_table::Place;

/// Locks of a node in two states, without the first ones where they are the same.
#[derive(Clone, Copy)]
pub(crate) struct Rests<'a> {
    pub old: &'a [Lock],
    pub new: &'a [Lock],
}

/// Whether two locks are the same.
fn same_lock(old: Lock, new: Lock) -> bool
    ensures { result ≡ true → old ≡ new }
{
    old == new
}

/// How long the longest common prefix of two lists of locks is.
fn common(old: &[Lock], new: &[Lock]) -> usize
    ensures old { result ≤ length old.now }
    ensures new { result ≤ length new.now }
    ensures same { take result old.now ≡ take result new.now }
{
    let mut i = 0;
    while i < old.len() && i < new.len() {
        if !same_lock(old[i], new[i]) {
            return i;
        }
        i += 1;
    }
    i
}

/// The locks of a node in two states, without their common prefix.
pub(crate) fn rests_at<'a>(before: &'a Machine, after: &'a Machine, n: Node) -> Rests<'a>
    ensures { AreRests (facing n before.entry.now.state).me.locks (facing n after.entry.now.state).me.locks result }
{
    let (old, new) = (before.locks(n), after.locks(n));
    let i = common(old, new);
    Rests {
        old: &old[i..],
        new: &new[i..],
    }
}

/// Whether no lock is on a page.
fn has_none(locks: &[Lock], p: u16) -> bool
    ensures { result ≡ none_on p locks.now }
{
    locks.iter().all(|lock| lock.page != p)
}

/// Whether a row is what it was.
fn same_row(old: Row, new: Row) -> bool
    ensures { result ≡ true → old ≡ new }
{
    old == new
}

/// Whether rows are what they were.
fn same_rows(old: &[Row], new: &[Row]) -> bool
    ensures { result ≡ true → old.now ≡ new.now }
{
    if old.len() != new.len() {
        return false;
    }
    let mut i = 0;
    while i < old.len() && i < new.len() {
        if !same_row(old[i], new[i]) {
            return false;
        }
        i += 1;
    }
    true
}

/// Whether a page is where it was.
fn same_place(old: Place, new: Place) -> bool
    ensures { result ≡ true → old ≡ new }
{
    old == new
}

/// Whether a page is what it was.
fn same_page(old: &Page, new: &Page) -> bool
    ensures { result ≡ true → old.now ≡ new.now }
{
    old.number() == new.number() && old.low() == new.low() && same_rows(old.rows(), new.rows())
}

/// Whether the locks that differ are on other pages.
fn are_elsewhere(rests: Rests<'_>, p: u16) -> bool
    ensures { result ≡ (none_on p rests.entry.old.now && none_on p rests.entry.new.now) }
{
    has_none(rests.old, p) && has_none(rests.new, p)
}

/// Whether the line of a page is seen to be what it was; `a` and `b` are the locks of the nodes that differ.
pub(crate) fn is_kept(before: &Machine, after: &Machine, a: Rests<'_>, b: Rests<'_>, p: u16) -> bool
    requires a { AreRests before.now.state.a.locks after.now.state.a.locks a }
    requires b { AreRests before.now.state.b.locks after.now.state.b.locks b }
    ensures { result ≡ true → page_reply before.now.state p ≡ page_reply after.now.state p }
{
    let (Some((old_place, old)), Some((new_place, new))) = (before.located(p), after.located(p))
    else {
        return false;
    };
    let page = same_page(old, new);
    let place = same_place(old_place, new_place);
    let at_a = are_elsewhere(a, p);
    let at_b = are_elsewhere(b, p);
    page & place & at_a & at_b
}
