//! What a search has reached.
ghost use Rattle.std.specs.Prelude.{◌≡◌, ◌<◌, ◌+◌, ◌^◌, ◌++◌, ◌∷◌, [], IfOk, OnOk, length};
ghost use Rattle.zy_search.specs.Visits.{path_at};
ghost use Rattle.zy_order.specs.Ways.{at_start, cursors_in};

use crate::cursors::Cursors;
use crate::visited::Visited;
use std::alloc::{AllocError, Global};
use zy_isa::Choice;
use zy_search::branch::Branch;

/// A path to each state that was reached, with the cursors there, and the places of the paths that are still to be
/// followed.
#[derive(Drop)]
pub(crate) struct Reached {
    /// The paths, under the digests of where they lead.
    pub visited: Visited,
    /// The cursors where each path leads, by its place.
    pub cursors: Vec<Cursors>,
    /// The places of the paths to follow; the last one is next.
    pub todo: Vec<u32>,
}

impl Reached {
    /// The empty path alone, under the digest of where it leads. It is to be followed.
    pub(crate) fn new(alloc: Global, digest: u64) -> Result<Reached, AllocError>
        ensures paths { IfOk result (λ r. r.visited ≡ [] ∷ []) }
        ensures cursors { IfOk result (λ r. r.cursors.items ≡ at_start ∷ []) }
        ensures todo { IfOk result (λ r. r.todo.items ≡ 0 ∷ []) }
    {
        let mut reached = Reached {
            visited: Visited::new(alloc, digest)?,
            cursors: Vec::new(alloc),
            todo: Vec::new(alloc),
        };
        match reached.begin() {
            Ok(()) => Ok(reached),
            Err(fault) => {
                drop(reached);
                Err(fault)
            }
        }
    }

    /// Adds the cursors where the empty path leads, and that it is to be followed.
    fn begin(&mut self) -> Result<(), AllocError>
        ensures paths { self.new.visited ≡ self.old.visited }
        ensures cursors { OnOk result (self.new.cursors.items ≡ self.old.cursors.items ++ at_start ∷ []) }
        ensures todo { OnOk result (self.new.todo.items ≡ self.old.todo.items ++ 0 ∷ []) }
    {
        self.cursors.push(Cursors::at_start())?;
        self.todo.push(0)?;
        Ok(())
    }

    /// The cursors where the path at a place leads.
    pub(crate) fn cursors_at(&self, at: u32) -> Cursors
        requires { at < length self.now.cursors.items }
        ensures { result ≡ cursors_in self.now.cursors.items at }
    {
        self.cursors[at as usize]
    }

    /// Adds the path of a branch, with the cursors where it leads and under the digest of that. It is the next one to
    /// follow.
    pub(crate) fn push(
        &mut self,
        branch: Branch,
        cursors: Cursors,
        digest: u64,
    ) -> Result<(), AllocError>
        requires from { branch.from < length self.old.visited }
        requires room { length self.old.visited + 1 < 2 ^ 32 }
        ensures paths { OnOk result (self.new.visited
            ≡ self.old.visited ++ (path_at self.old.visited branch.from ++ branch.by ∷ []) ∷ []) }
        ensures cursors { OnOk result (self.new.cursors.items ≡ self.old.cursors.items ++ cursors ∷ []) }
        ensures todo { OnOk result (self.new.todo.items ≡ self.old.todo.items ++ length self.old.visited ∷ []) }
    {
        let place = self.visited.len() as u32;
        self.cursors.push(cursors)?;
        self.todo.push(place)?;
        self.visited.push(branch, digest)
    }

    /// The path at a place.
    pub(crate) fn path(&self, alloc: Global, at: u32) -> Result<Vec<Choice>, AllocError>
        requires { at < length self.now.visited }
        ensures { IfOk result (λ v. v.items ≡ path_at self.now.visited at) }
    {
        self.visited.path(alloc, at)
    }
}
