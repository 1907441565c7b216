//! The numbers of states, each found again by its numbers.
ghost use Rattle.std.specs.Prelude.{◌≡◌, ◌++◌, ◌∷◌, [], IfSome, Some, OnOk, OnErr, length, option_copied, slice_get, true};

use crate::arena::Arena;
use crate::slots::{Look, MOST_LOOKS, Slots, mixed};
use std::alloc::{AllocError, Global};
use std::marker::Model;

/// The numbers of states, in the order in which they came. They are found by a digest, so that numbers that have the digest
/// of others cost time, and nothing else.
#[derive(Drop)]
pub struct Vectors {
    alloc: Global,
    arena: Arena,
    slots: Slots,
}

impl Model for Vectors {
    ghost use Rattle.std.specs.Prelude.{ℕ, List};

    ghost Value = { List (List ℕ) };

    ghost view = { λ v. v.arena };
}

/// A digest of numbers. Nothing is promised of it: a bad one costs time alone.
fn digest(numbers: &[u32]) -> u64 {
    let mut digest: u64 = 0;
    for number in numbers {
        digest = mixed(digest, u64::from(*number));
    }
    digest
}

/// Whether these are the same numbers as those.
fn same(xs: &[u32], ys: &[u32]) -> bool
    ensures { result ≡ true → xs.now ≡ ys.now }
{
    match (xs, ys) {
        ([], []) => true,
        ([x, rest @ ..], [y, others @ ..]) => *x == *y && same(rest, others),
        _ => false,
    }
}

impl Vectors {
    /// None yet. It takes no memory.
    pub fn new(alloc: Global) -> Vectors
        ensures { result ≡ [] }
    {
        Vectors {
            alloc,
            arena: Arena::new(alloc),
            slots: Slots::new(alloc),
        }
    }

    /// How many there are.
    pub fn len(&self) -> usize
        ensures { result ≡ length self.now }
    {
        self.arena.len()
    }

    /// The numbers at a place.
    pub fn get(&self, place: usize) -> Option<&[u32]>
        ensures { option_copied result ≡ slice_get self.entry.now place }
    {
        self.arena.get(place)
    }

    /// Whether the numbers at a place are these.
    fn is_at(&self, place: usize, numbers: &[u32]) -> bool
        ensures { result ≡ true → slice_get self.now place ≡ Some numbers.now }
    {
        match self.arena.get(place) {
            Some(others) => same(others, numbers),
            None => false,
        }
    }

    /// The place of these numbers, if they are here and found.
    pub fn find(&self, numbers: &[u32]) -> Option<usize>
        ensures { IfSome result (λ i. slice_get self.now i ≡ Some numbers.now) }
    {
        let digest = digest(numbers);
        for behind in 0..MOST_LOOKS {
            match self.slots.look(digest, behind) {
                Look::Free => return None,
                Look::Other => {}
                Look::Place(place) => {
                    if self.is_at(place, numbers) {
                        return Some(place);
                    }
                }
            }
        }
        None
    }

    /// Takes in numbers.
    pub fn push(&mut self, numbers: &[u32]) -> Result<(), AllocError>
        ensures ok { OnOk result (self.new ≡ self.old ++ numbers.now ∷ []) }
        ensures err { OnErr result (self.new ≡ self.old) }
    {
        let place = self.arena.len();
        self.slots.reserve(self.alloc)?;
        self.arena.push(numbers)?;
        self.slots.put(digest(numbers), place);
        Ok(())
    }
}
