//! Lists: a number of items, and then each of them.
ghost use Rattle.std.specs.Prelude.{◌≡◌, ◌⊎◌, ℕ, List, [], Ok, Err, MatchResult};
ghost use Rattle.zy_image.specs.declared.faults.LoadFault.TheVariants.{Memory};
ghost use Rattle.zy_image.specs.Reading.{Gives, Read};
ghost use Rattle.zy_image.specs.Reading as spec;

use crate::faults::LoadFault;
use std::alloc::Global;

/// How the items of a list are read.
pub trait Items {
    type Item: Drop;

    // The next item, behind those that are before it.
    ghost next: { Self → List Self.Item → List ℕ → Read Self.Item };

    /// Reads the next item, behind those that are before it.
    fn next<'a>(
        &self,
        before: &[Self::Item],
        bytes: &'a [u8],
    ) -> Result<(Self::Item, &'a [u8]), LoadFault>
        ensures { Gives result (next self.now before.now bytes.entry.now) };
}

/// Reads this number of items. Apart from its caller its loop has registers enough.
#[inline(never)]
pub fn read_items<'a, I: Items>(
    alloc: Global,
    kind: &I,
    count: usize,
    bytes: &'a [u8],
) -> Result<(Vec<I::Item>, &'a [u8]), LoadFault>
    ensures { let read = spec.read_items (I.next kind.now) [] count bytes.entry.now in
        MatchResult result (λ x. read ≡ Ok (x.0.items, x.1.now)) (λ e. (e ≡ Memory) ⊎ (read ≡ Err e)) }
{
    let mut items = Vec::with_capacity(alloc, count)?;
    let mut left = bytes;
    for _ in 0..count {
        let (item, rest) = kind.next(items.as_slice(), left)?;
        items.push_reserved(item);
        left = rest;
    }
    Ok((items, left))
}
