//! The commits so far, in two lists.
ghost use Rattle.std.specs.Prelude.{◌≡◌, ◌++◌, [], IfOk, OnOk};
ghost use Rattle.zy_laws.specs.SourceFirst.{sorted_by};

use std::alloc::{AllocError, Global};
use std::marker::Model;
use zy_table::CommitRecord;

/// The commits so far. `first` has all before the last start and, since then, those at its source; `later` has those
/// since then at the other node (before any start it has all).
#[derive(Drop)]
pub struct Sorted {
    first: Vec<CommitRecord>,
    later: Vec<CommitRecord>,
}

impl Model for Sorted {
    ghost use Rattle.zy_laws.specs.SourceFirst.{Sorted};

    ghost Value = { Sorted };

    ghost view = { λ m. record { first = m.first.items; later = m.later.items } };
}

impl Sorted {
    /// No commit.
    pub fn new(alloc: Global) -> Sorted
        ensures { result ≡ record { first = []; later = [] } }
    {
        Sorted {
            first: Vec::new(alloc),
            later: Vec::new(alloc),
        }
    }

    /// Takes the commits of a step, of which there is one at most. `was_source` and `is_source`: the node that acts is in
    /// a source's mode before the step, and after it.
    pub fn add(
        &mut self,
        was_source: bool,
        is_source: bool,
        new: &[CommitRecord],
    ) -> Result<(), AllocError>
        ensures { OnOk result (self.new ≡ sorted_by was_source is_source new.now self.old) }
    {
        match (was_source, is_source) {
            (true, _) => self.first.extend_from_slice(new),
            (false, true) => self.first.append(&mut self.later),
            (false, false) => self.later.extend_from_slice(new),
        }
    }

    /// All of them in the migration order.
    pub fn joined(self) -> Result<Vec<CommitRecord>, AllocError>
        ensures { IfOk result (λ order. order.items ≡ self.first ++ self.later) }
    {
        let Sorted { mut first, later } = self;
        first.extend_from_slice(&later)?;
        Ok(first)
    }
}
