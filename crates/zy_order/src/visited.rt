//! The states that a search has reached.
ghost use Rattle.std.specs.Prelude.{◌≡◌, ◌<◌, ◌≤◌, ◌-◌, ◌^◌, ◌++◌, ◌∷◌, [], IfOk, IfSome, OnOk, OnErr, length};
ghost use Rattle.std.specs.Prelude.{slice_index_or};

use std::alloc::{AllocError, Global};
use std::collections::HashMap;
use std::marker::Model;
use zy_isa::Choice;
use zy_search::branch::Branch;
use zy_search::tree::ChoiceTree;

/// A path to each state that was reached, and where to look for a state that has a digest.
#[derive(Drop)]
pub struct Visited {
    tree: ChoiceTree,
    places: HashMap<u64, u32>,
}

impl Model for Visited {
    ghost use Rattle.std.specs.Prelude.{List};
    ghost use Rattle.zy_isa.specs.declared.choice.Choice.{Choice};

    ghost Value = { List (List Choice) };

    ghost view = { λ v. v.tree };
}

impl Visited {
    /// The empty path alone, under the digest of its state.
    pub fn new(alloc: Global, digest: u64) -> Result<Visited, AllocError>
        ensures { IfOk result (λ v. v ≡ [] ∷ []) }
    {
        let mut places = HashMap::new(alloc);
        places.insert(digest, 0)?;
        Ok(Visited {
            tree: ChoiceTree::new(alloc),
            places,
        })
    }

    /// The paths.
    pub fn tree(&self) -> &ChoiceTree
        ensures { result.now ≡ self.entry.now }
    {
        &self.tree
    }

    /// How many paths there are.
    pub fn len(&self) -> usize
        ensures value { result ≡ length self.now }
        ensures some { 1 ≤ result }
    {
        self.tree.len()
    }

    /// The path at a place.
    pub fn path(&self, alloc: Global, i: u32) -> Result<Vec<Choice>, AllocError>
        requires { i < length self.now }
        ensures { IfOk result (λ v. v.items ≡ slice_index_or self.now i []) }
    {
        self.tree.path(alloc, i as usize)
    }

    /// The place of the last path that was put there under a digest.
    pub fn find(&self, digest: u64) -> Option<u32>
        ensures { IfSome result (λ i. i < length self.now) }
    {
        let place = *self.places.get(&digest)?;
        if (place as usize) < self.tree.len() {
            Some(place)
        } else {
            None
        }
    }

    /// A path more, under the digest of its state.
    pub fn push(&mut self, branch: Branch, digest: u64) -> Result<(), AllocError>
        requires from { branch.from < length self.old }
        requires room { length self.old < 2 ^ 32 }
        ensures ok { OnOk result (self.new ≡ self.old ++ (slice_index_or self.old branch.from [] ++ branch.by ∷ [])
            ∷ []) }
        ensures err { OnErr result (self.new ≡ self.old) }
    {
        let place = self.tree.len() as u32;
        self.places.insert(digest, place)?;
        self.tree.push(branch)
    }
}
