//! Names with the numbers that they stand for.
ghost use Rattle.std.specs.Prelude.{◌≡◌, None, OnOk, ◌++◌, ◌∷◌, []};
ghost use Rattle.zy_text.specs.Names.{place};

use indexmap::IndexMap;
use std::alloc::{AllocError, Global};
use std::marker::Model;

/// Names with the numbers that they stand for, in first-seen order.
#[derive(Drop)]
pub struct NameTable {
    numbers: IndexMap<Vec<u8>, u8>,
}

impl Model for NameTable {
    ghost use Rattle.std.specs.Prelude.{List, ℕ, map};

    ghost Value = { List (List ℕ × ℕ) };

    ghost view = { λ a. map (λ e. (e.0.items, e.1)) a.numbers.entries };
}

impl NameTable {
    /// A table of no names. It takes no memory before the first.
    pub fn new(alloc: Global) -> NameTable
        ensures { result ≡ [] }
    {
        NameTable {
            numbers: IndexMap::new(alloc),
        }
    }

    /// The number of a name.
    pub fn find(&self, name: &[u8]) -> Option<u8>
        ensures { result ≡ place name.now self.now }
    {
        self.numbers.get(name).copied()
    }

    /// Notes a new name, of which it takes a copy.
    pub fn add(&mut self, alloc: Global, name: &[u8], number: u8) -> Result<(), AllocError>
        requires { place name.now self.old ≡ None }
        ensures { OnOk result (self.new ≡ self.old ++ (name.now, number) ∷ []) }
    {
        let key = name.to_vec(alloc)?;
        self.numbers.insert(key, number)?;
        Ok(())
    }

    /// Forgets all names.
    pub fn clear(&mut self)
        ensures { self.new ≡ [] }
    {
        self.numbers.clear();
    }
}
