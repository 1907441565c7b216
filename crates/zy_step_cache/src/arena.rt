//! Lists of numbers that stand one behind the other.
ghost use Rattle.std.specs.Prelude.{◌≡◌, ◌==◌, ◌&&◌, ◌||◌, ◌++◌, ◌∷◌, [], OnOk, OnErr, length, option_copied, slice_get};

use std::alloc::{AllocError, Global};
use std::marker::Model;

/// Lists of numbers, in the order in which they came. Those as long as the first, up to one that is not, stand one behind the other: these
/// take no memory beside their numbers, and no allocation of their own.
#[derive(Drop)]
pub struct Arena {
    alloc: Global,
    numbers: Vec<u32>,
    width: usize,
    even: usize,
    others: Vec<Vec<u32>>,
    len: usize,
}

impl Model for Arena {
    ghost use Rattle.std.specs.Prelude.{◌≡◌, ◌++◌, ◌+◌, ◌*◌, ℕ, List, length, map};
    ghost use Rattle.zy_step_cache.specs.Even.{even_lists};

    ghost Value = { List (List ℕ) };

    ghost view = { λ a. even_lists a.width a.even a.numbers.items ++ map (λ v. v.items) a.others.items };

    ghost invariant = { λ a. (length a.numbers.items ≡ a.even * a.width) × (a.len ≡ a.even + length a.others.items) };
}

/// Whether a list is as long as those before it, and none of them is longer or shorter: how many there are, how many of these are even,
/// how long those are, and how long it is.
fn is_even(len: usize, even: usize, width: usize, count: usize) -> bool
    ensures { result ≡ ((len == 0) || ((even == len) && (count == width))) }
{
    len == 0 || (even == len && count == width)
}

impl Arena {
    /// No list yet. It takes no memory.
    pub fn new(alloc: Global) -> Arena
        ensures { result ≡ [] }
    {
        Arena {
            alloc,
            numbers: Vec::new(alloc),
            width: 0,
            even: 0,
            others: Vec::new(alloc),
            len: 0,
        }
    }

    /// How many lists there are.
    pub fn len(&self) -> usize
        ensures { result ≡ length self.now }
    {
        self.len
    }

    /// The list at a place.
    pub fn get(&self, place: usize) -> Option<&[u32]>
        ensures { option_copied result ≡ slice_get self.entry.now place }
    {
        if self.even <= place {
            let other = self.others.get(place - self.even)?;
            return Some(other.as_slice());
        }
        let start = place * self.width;
        Some(&self.numbers[start..start + self.width])
    }

    /// Takes in a list.
    pub fn push(&mut self, numbers: &[u32]) -> Result<(), AllocError>
        ensures ok { OnOk result (self.new ≡ self.old ++ numbers.now ∷ []) }
        ensures err { OnErr result (self.new ≡ self.old) }
    {
        let Some(len) = self.len.checked_add(1) else {
            return Err(AllocError);
        };
        if is_even(self.len, self.even, self.width, numbers.len()) {
            self.numbers.extend_from_slice(numbers)?;
            self.width = numbers.len();
            self.even = len;
            self.len = len;
            return Ok(());
        }
        let mut other = Vec::with_capacity(self.alloc, numbers.len())?;
        other.extend_from_slice(numbers)?;
        self.others.push(other)?;
        self.len = len;
        Ok(())
    }
}
