//! The tree of a wireframe with 512 pages, put in in three orders: how deep it is, and each key's page against a plain
//! scan.
use std::alloc::Global;
use zy_wire::{Wire, WireFault};

/// How many pages there are.
const PAGES: u16 = 512;

/// How far the low keys are apart.
const WIDTH: u16 = 128;

/// In what order the low keys come.
#[derive(Clone, Copy)]
enum Order {
    Rising,
    Falling,
    Alternating,
}

/// The rank of the low key of page `page`, from 1 on, as page 0 begins at key 0.
fn rank(order: Order, page: u16) -> u16 {
    match order {
        Order::Rising => page,
        Order::Falling => PAGES.saturating_sub(page),
        Order::Alternating if page % 2 == 0 => page / 2,
        Order::Alternating => PAGES.saturating_sub(page / 2 + 1),
    }
}

/// One page more with this low key, if no page has it.
fn put(wire: &mut Wire, low: u16) -> Result<(), WireFault> {
    let page = wire.page_of(low);
    if wire.low_of(page) == low {
        return Ok(());
    }
    wire.grow(low)
}

/// All the pages, put in in this order.
fn built(alloc: Global, order: Order) -> Result<Wire, WireFault> {
    let mut wire = Wire::new(alloc, PAGES)?;
    for page in 1..PAGES {
        put(&mut wire, rank(order, page).wrapping_mul(WIDTH))?;
    }
    Ok(wire)
}

/// The page of a key, and the page with the least low key above it, by a look at each low key in turn.
fn scanned(wire: &Wire, key: u16) -> (u16, Option<u16>) {
    let mut page = 0;
    let mut highest = 0;
    let mut after = None;
    let mut least = u16::MAX;
    for number in 0..wire.len() as u16 {
        let low = wire.low_of(number);
        if low <= key && highest <= low {
            page = number;
            highest = low;
        }
        if key < low && low <= least {
            after = Some(number);
            least = low;
        }
    }
    (page, after)
}

/// The first key at which a search is not the scan.
fn first_astray(wire: &Wire) -> Option<u16> {
    (0..=u16::MAX).find(|key| (wire.page_of(*key), wire.after(*key)) != scanned(wire, *key))
}

/// How many pages there are, whether the tree is at most 5 levels deep, and the first key at which a search is not the
/// scan.
fn facts(alloc: Global, order: Order) -> Result<(usize, bool, Option<u16>), WireFault> {
    let wire = built(alloc, order)?;
    Ok((wire.len(), wire.depth() <= 5, first_astray(&wire)))
}

#[test]
fn rising(rt: HostRuntime) {
    assert_eq!(rt; facts(rt.alloc(), Order::Rising), Ok((512, true, None)));
}

#[test]
fn falling(rt: HostRuntime) {
    assert_eq!(rt; facts(rt.alloc(), Order::Falling), Ok((512, true, None)));
}

#[test]
fn alternating(rt: HostRuntime) {
    assert_eq!(rt;
        facts(rt.alloc(), Order::Alternating),
        Ok((512, true, None))
    );
}
