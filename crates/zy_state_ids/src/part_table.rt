//! Parts of states, each with a number.
ghost use Rattle.std.specs.Prelude.{◌≡◌, IfOk, OnOk, Some, [], option_copied, slice_get};
ghost use Rattle.zy_state_ids.specs.Parts.{Keeps};

use indexmap::IndexSet;
use std::alloc::{AllocError, Global};
use std::marker::Model;

/// Parts of states as bytes. The number of a part is its place here, and no part is here twice.
#[derive(Drop)]
pub struct PartTable {
    parts: IndexSet<Vec<u8>>,
}

impl Model for PartTable {
    ghost use Rattle.std.specs.Prelude.{ℕ, List, map};

    ghost Value = { List (List ℕ) };

    ghost view = { λ t. map (λ v. v.items) t.parts.keys };
}

/// A place as a number, if it is small enough: a table with more parts than that would take more memory than there is.
fn narrow(place: usize) -> Result<u32, AllocError>
    ensures { IfOk result (λ n. n ≡ place) }
{
    if place <= u32::MAX as usize {
        Ok(place as u32)
    } else {
        Err(AllocError)
    }
}

impl PartTable {
    /// No part yet. It takes no memory.
    pub fn new(alloc: Global) -> PartTable
        ensures { result ≡ [] }
    {
        PartTable {
            parts: IndexSet::new(alloc),
        }
    }

    /// The number of a part, which is taken in if it is not here.
    pub fn number(&mut self, bytes: Vec<u8>) -> Result<u32, AllocError>
        ensures number { IfOk result (λ i. slice_get self.new i ≡ Some bytes.items) }
        ensures keeps { OnOk result (Keeps self.old self.new) }
    {
        let (place, _) = self.parts.insert_full(bytes)?;
        let number = narrow(place)?;
        Ok(number)
    }

    /// The bytes of a part.
    pub fn bytes(&self, number: u32) -> Option<&[u8]>
        ensures { option_copied result ≡ slice_get self.entry.now number }
    {
        let part = self.parts.get_index(number as usize)?;
        Some(part.as_slice())
    }
}
