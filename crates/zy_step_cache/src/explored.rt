//! States that were come to, by the numbers of their parts.
ghost use Rattle.std.specs.Prelude.{◌≡◌, ◌<◌, ◌++◌, ◌∷◌, [], List, IfOk, IfSome, OnOk, Some, true, length, slice_get, slice_index_or};
ghost use Rattle.zy_steps.specs.Reads.{uncounted};
ghost use Rattle.zy_isa.specs.Choices.{names_below};
ghost use Rattle.zy_isa.specs.Scenario.{Scenario as AScenario};
ghost use Rattle.zy_steps.specs.Alike.{Alike};
ghost use Rattle.zy_step_cache.specs.StepCaches.{choice_at, choices_of, Knows, Numbers};
ghost use Rattle.zy_state_ids.specs.Parts.{Keeps};
ghost use Rattle.zy_table.specs.Play.{step};
ghost use Rattle.zy_table.specs.State.{State};

use crate::places::{COMMITS_PLACE, at};
use crate::step_cache::{MOST_NUMBERS, StepCache};
use crate::vectors::Vectors;
use std::alloc::{AllocError, Global};
use zy_isa::Choice;
use zy_machine::Machine;
use zy_steps::StatePart;
use zy_table::Outcome;

/// The numbers of some states, each at a place, and what is remembered of the steps of some choices.
#[derive(Drop)]
pub struct Explored {
    pub vectors: Vectors,
    pub cache: StepCache,
}

/// The numbers at a place; none where there are none.
fn numbers_in(vectors: &Vectors, place: usize) -> &[u32]
    ensures { result.now ≡ slice_index_or vectors.entry.now place [] }
{
    match vectors.get(place) {
        Some(numbers) => numbers,
        None => &[],
    }
}

impl Explored {
    /// No state, and nothing is remembered yet of the steps of these choices.
    pub fn new(alloc: Global, part: StatePart, choices: &[Choice]) -> Result<Explored, AllocError>
        ensures part { IfOk result (λ e. e.cache.part ≡ part) }
        ensures choices { IfOk result (λ e. choices_of e.cache ≡ choices.now) }
        ensures knows { IfOk result (λ e. (sc : AScenario) → Knows sc e []) }
    {
        let cache = StepCache::new(alloc, part, choices)?;
        Ok(Explored {
            vectors: Vectors::new(alloc),
            cache,
        })
    }

    /// The numbers of the state at a place.
    pub fn numbers(&self, place: usize) -> &[u32]
        ensures { result.now ≡ slice_index_or self.entry.now.vectors place [] }
    {
        numbers_in(&self.vectors, place)
    }

    /// Remembers the step of a choice from the state at a place, which has led to a machine's state. The numbers of that go to
    /// `next`.
    pub fn learn(
        &mut self,
        choice: usize,
        place: usize,
        after: &Machine,
        outcome: Outcome,
        next: &mut Vec<u32>,
    ) -> Result<(), AllocError>
        requires there { choice < length self.old.cache.caches.items }
        ensures vectors { self.new.vectors ≡ self.old.vectors }
        ensures part { self.new.cache.part ≡ self.old.cache.part }
        ensures choices { choices_of self.new.cache ≡ choices_of self.old.cache }
        ensures keeps { OnOk result (Keeps self.old.cache.table self.new.cache.table) }
        ensures next { OnOk result (Numbers self.new.cache after.now.state next.new.items) }
        // What is known of states stays known, if this step happened.
        ensures knows { OnOk result ((sc : AScenario) (states : List State) (s : State) → Knows sc self.old states
            → slice_get states place ≡ Some s → after.now.state ≡ (step sc (choice_at self.old.cache choice) s).after
            → uncounted outcome ≡ uncounted (step sc (choice_at self.old.cache choice) s).outcome
            → names_below (length sc.programs) (choice_at self.old.cache choice) ≡ true → Knows sc self.new states) }
    {
        *next = self.cache.numbers_of(after)?;
        let before = numbers_in(&self.vectors, place);
        if MOST_NUMBERS <= before.len() {
            return Ok(());
        }
        self.cache.learn(choice, before, next, outcome)?;
        Ok(())
    }

    /// Whether the state at a place has the commits of one that has these numbers. Where it answers yes it has.
    pub fn same_commits(&self, place: usize, numbers: &[u32]) -> bool
        ensures { result ≡ true → (sc : AScenario) (states : List State) (s t : State) → Knows sc self.now states
            → slice_get states place ≡ Some s → Numbers self.now.cache t numbers.now → t.commits ≡ s.commits }
    {
        at(self.numbers(place), COMMITS_PLACE) == at(numbers, COMMITS_PLACE)
    }

    /// The place of a state like the one that has these numbers, if it is found.
    pub fn find(&self, numbers: &[u32]) -> Option<usize>
        ensures there { IfSome result (λ i. (sc : AScenario) (states : List State) → Knows sc self.now states
            → i < length states) }
        ensures alike { IfSome result (λ i. (sc : AScenario) (states : List State) (s t : State) → Knows sc self.now states
            → slice_get states i ≡ Some s → Numbers self.now.cache t numbers.now → Alike self.now.cache.part s t) }
    {
        self.vectors.find(numbers)
    }

    /// Takes in a state more, by its numbers.
    pub fn push(&mut self, numbers: &[u32]) -> Result<(), AllocError>
        ensures cache { self.new.cache ≡ self.old.cache }
        ensures knows { OnOk result ((sc : AScenario) (states : List State) (s : State) → Knows sc self.old states
            → Numbers self.old.cache s numbers.now → length s.txns ≡ length sc.programs
            → Knows sc self.new (states ++ s ∷ [])) }
    {
        self.vectors.push(numbers)?;
        Ok(())
    }
}
