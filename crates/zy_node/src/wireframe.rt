//! The wireframe of a node: an empty node has none. What is said of a number `n` holds of each that is not below the
//! wireframe's limit.
ghost use Rattle.std.specs.Prelude.{◌≡◌, ◌==◌, ◌<◌, ◌≤◌, ◌++◌, ◌∷◌, [], ℕ, IfOk, OnOk, IsOk, Contains, length};
ghost use Rattle.zy_model.specs.Wireframe as wireframe;
ghost use Rattle.zy_wire.specs.Ranges.{in_range};
ghost use Rattle.zy_node.specs.Wireframes.{lows_in, limit_or, CanGrow};

use std::alloc::{AllocError, Global};
use zy_wire::{KeyRange, Wire};

/// How many pages there are.
pub fn page_count(wire: &Option<Wire>) -> usize
    ensures value { result ≡ length (lows_in wire.now) }
    ensures few { (n : ℕ) → limit_or n wire.now ≤ n → result ≤ n }
{
    match wire {
        Some(wire) => wire.len(),
        None => 0,
    }
}

/// The low key of each page, by number.
pub fn lows(wire: &Option<Wire>) -> &[u16]
    ensures { result.now ≡ lows_in wire.entry.now }
{
    match wire {
        Some(wire) => wire.lows(),
        None => &[],
    }
}

/// The page that a key lies on; 0 where there is none.
#[tactic(auto, unfolding(zy_model::specs::Wireframe::page_of))]
pub fn page_of(wire: &Option<Wire>, key: u16) -> u16
    ensures value { result ≡ wireframe.page_of (lows_in wire.now) key }
    ensures few { (n : ℕ) → limit_or n wire.now ≤ n → 0 < n → result < n }
{
    match wire {
        Some(wire) => wire.page_of(key),
        None => 0,
    }
}

/// The keys that lie on a page. Without a wireframe every key counts as one of page 0, as in `page_of`.
#[tactic(auto, unfolding(zy_model::specs::Wireframe::page_of))]
pub fn keys_of(wire: &Option<Wire>, page: u16) -> KeyRange
    ensures { (k : ℕ) → in_range result k ≡ (wireframe.page_of (lows_in wire.now) k == page) }
{
    match wire {
        Some(wire) => wire.keys_of(page),
        None if page == 0 => KeyRange::ALL,
        None => KeyRange::NONE,
    }
}

/// Makes room for one page more.
pub fn reserve(wire: &mut Option<Wire>) -> Result<(), AllocError>
    ensures lows { lows_in wire.new ≡ lows_in wire.old }
    ensures limit { (n : ℕ) → limit_or n wire.new ≡ limit_or n wire.old }
    ensures room { OnOk result (CanGrow wire.new) }
    ensures succeeds { CanGrow wire.old → IsOk result }
{
    match wire {
        Some(wire) => wire.reserve(),
        None => Ok(()),
    }
}

/// One page more, with this low key, which no page has yet.
pub fn grow(wire: &mut Option<Wire>, low: u16)
    requires other { ¬ Contains (lows_in wire.old) low }
    requires few { length (lows_in wire.old) < limit_or 0 wire.old }
    requires room { CanGrow wire.old }
    ensures lows { lows_in wire.new ≡ lows_in wire.old ++ low ∷ [] }
    ensures limit { (n : ℕ) → limit_or n wire.new ≡ limit_or n wire.old }
{
    match wire {
        Some(wire) => wire.grow(low).unwrap(),
        None => unreachable!(),
    }
}

/// One page more, with this low key, which no page has yet: where it is the first one it begins at 0, and there may be
/// `pages` pages.
pub fn open_page(
    wire: &mut Option<Wire>,
    alloc: Global,
    pages: u16,
    low: u16,
) -> Result<(), AllocError>
    requires first { length (lows_in wire.old) ≡ 0 → low ≡ 0 }
    requires other { ¬ Contains (lows_in wire.old) low }
    requires few { length (lows_in wire.old) < pages }
    requires limit { limit_or pages wire.old ≡ pages }
    ensures lows { OnOk result (lows_in wire.new ≡ lows_in wire.old ++ low ∷ []) }
    ensures limit { limit_or pages wire.new ≡ pages }
{
    if wire.is_none() {
        *wire = Some(Wire::new(alloc, pages)?);
        return Ok(());
    }
    reserve(wire)?;
    grow(wire, low);
    Ok(())
}

/// A copy of the wireframe, which may have less room for further pages.
pub fn copy(wire: &Option<Wire>, alloc: Global) -> Result<Option<Wire>, AllocError>
    ensures lows { IfOk result (λ copy. lows_in copy ≡ lows_in wire.now) }
    ensures limit { IfOk result (λ copy. (n : ℕ) → limit_or n copy ≡ limit_or n wire.now) }
{
    match wire {
        Some(wire) => Ok(Some(wire.copy(alloc)?)),
        None => Ok(None),
    }
}
