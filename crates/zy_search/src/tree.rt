//! Paths, each of which goes on from an earlier one.
ghost use Rattle.std.specs.Prelude.{◌≡◌, ◌<◌, ◌≤◌, ◌++◌, ◌∷◌, [], IfOk, OnOk, OnErr, length};
ghost use Rattle.std.specs.Prelude.{slice_index_or};

use crate::branch::Branch;
use std::alloc::{AllocError, Global};
use std::marker::Model;
use zy_isa::Choice;

/// Lists of choices: the empty one, and others, each with one choice more than an earlier one. Each takes 8 bytes.
#[derive(Drop)]
pub struct ChoiceTree {
    branches: Vec<Branch>,
}

impl Model for ChoiceTree {
    ghost use Rattle.std.specs.Prelude.{List};
    ghost use Rattle.zy_isa.specs.declared.choice.Choice.{Choice};
    ghost use Rattle.zy_search.specs.Paths.{paths_of, AreRooted};

    ghost Value = { List (List Choice) };

    ghost view = { λ t. paths_of t.branches.items };

    ghost invariant = { λ t. AreRooted 1 t.branches.items };
}

impl ChoiceTree {
    /// The empty path alone.
    pub fn new(alloc: Global) -> ChoiceTree
        ensures { result ≡ [] ∷ [] }
    {
        ChoiceTree {
            branches: Vec::new(alloc),
        }
    }

    /// How many paths there are.
    pub fn len(&self) -> usize
        ensures value { result ≡ length self.now }
        ensures some { 1 ≤ result }
    {
        self.branches.len() + 1
    }

    /// A path more.
    pub fn push(&mut self, branch: Branch) -> Result<(), AllocError>
        requires { branch.from < length self.old }
        ensures ok { OnOk result (self.new ≡ self.old ++ (slice_index_or self.old branch.from [] ++ branch.by ∷ [])
            ∷ []) }
        ensures err { OnErr result (self.new ≡ self.old) }
    {
        self.branches.reserve(1)?;
        self.branches.push(branch).unwrap();
        Ok(())
    }

    /// How the path at a place goes on from an earlier one.
    pub fn branch(&self, i: usize) -> Branch
        requires some { 0 < i }
        requires there { i < length self.now }
        ensures path { slice_index_or self.now i [] ≡ slice_index_or self.now result.from [] ++ result.by ∷ [] }
        ensures earlier { result.from < i }
    {
        self.branches[i - 1]
    }

    /// How many choices the path at a place has.
    pub fn length(&self, i: usize) -> usize
        requires { i < length self.now }
        ensures value { result ≡ length (slice_index_or self.now i []) }
        ensures few { result ≤ i }
    {
        let mut count = 0;
        let mut at = i;
        while at != 0 {
            let branch = self.branches[at - 1];
            at = branch.from as usize;
            count += 1;
        }
        count
    }

    /// The path at a place.
    pub fn path(&self, alloc: Global, i: usize) -> Result<Vec<Choice>, AllocError>
        requires { i < length self.now }
        ensures { IfOk result (λ v. v.items ≡ slice_index_or self.now i []) }
    {
        let mut path = Vec::new(alloc);
        let mut at = i;
        while at != 0 {
            let branch = self.branches[at - 1];
            path.push(branch.by)?;
            at = branch.from as usize;
        }
        path.reverse();
        Ok(path)
    }
}
