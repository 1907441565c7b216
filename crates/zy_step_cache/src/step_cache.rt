//! What is remembered of the steps of a scenario.
ghost use Rattle.std.specs.Prelude.{◌≡◌, ◌<◌, [], IfOk, IfSome, OnOk, true, length, map};
ghost use Rattle.std.specs.List.{All};
ghost use Rattle.zy_isa.specs.Choices.{names_below};
ghost use Rattle.zy_isa.specs.Scenario.{Scenario};
ghost use Rattle.zy_step_cache.specs.Places.{numbers_end};
ghost use Rattle.zy_step_cache.specs.StepCaches.{choice_at, choices_of, numbers_by, IsTrue, Leads, Numbers};
ghost use Rattle.zy_step_cache.specs.Rests.{is_idle};
ghost use Rattle.zy_state_ids.specs.Parts.{Keeps};
ghost use Rattle.zy_table.specs.Play.{step};
ghost use Rattle.zy_table.specs.State.{State};

use crate::choice_cache::{CachedStep, ChoiceCache, write};
use crate::places::rests;
use std::alloc::{AllocError, Global};
use zy_isa::Choice;
use zy_machine::Machine;
use zy_state_ids::PartTable;
use zy_state_ids::numbers::numbers_of;
use zy_steps::StatePart;
use zy_table::Outcome;

/// The parts of states, and the steps of some choices that are remembered.
#[derive(Drop)]
pub struct StepCache {
    alloc: Global,
    /// How much of a state counts.
    pub part: StatePart,
    /// The parts.
    pub table: PartTable,
    /// The steps, by choice.
    pub caches: Vec<ChoiceCache>,
}

/// Of a state with as many numbers no step is remembered. None has: there are at most 64 transactions.
pub(crate) const MOST_NUMBERS: usize = 4_294_967_295;

/// A cache for each of these choices, with no step yet.
fn caches_of(alloc: Global, choices: &[Choice]) -> Result<Vec<ChoiceCache>, AllocError>
    ensures choices { IfOk result (λ v. map (λ x. x.choice) v.items ≡ choices.now) }
    ensures none { IfOk result (λ v. All (λ x. x.steps.items ≡ []) v.items) }
{
    let mut caches = Vec::with_capacity(alloc, choices.len())?;
    for choice in choices {
        caches.push(ChoiceCache::new(alloc, *choice))?;
    }
    Ok(caches)
}

impl StepCache {
    /// Nothing is remembered yet of the steps of these choices.
    pub fn new(alloc: Global, part: StatePart, choices: &[Choice]) -> Result<StepCache, AllocError>
        ensures part { IfOk result (λ m. m.part ≡ part) }
        ensures choices { IfOk result (λ m. choices_of m ≡ choices.now) }
        ensures truth { IfOk result (λ m. (sc : Scenario) → IsTrue sc m) }
    {
        let caches = caches_of(alloc, choices)?;
        Ok(StepCache {
            alloc,
            part,
            table: PartTable::new(alloc),
            caches,
        })
    }

    /// The numbers of a machine's state.
    pub fn numbers_of(&mut self, machine: &Machine) -> Result<Vec<u32>, AllocError>
        ensures numbers { IfOk result (λ v. Numbers self.new machine.now.state v.items) }
        ensures keeps { OnOk result (Keeps self.old.table self.new.table) }
        ensures part { self.new.part ≡ self.old.part }
        ensures choices { choices_of self.new ≡ choices_of self.old }
        ensures truth { OnOk result ((sc : Scenario) → IsTrue sc self.old → IsTrue sc self.new) }
    {
        let numbers = numbers_of(self.alloc, self.part, machine, &mut self.table)?;
        Ok(numbers)
    }

    /// Whether nothing comes of a choice from a state with these numbers, by a byte or two of the parts that it reads.
    /// Where it answers yes, nothing does.
    pub fn rests(&self, choice: Choice, numbers: &[u32]) -> bool
        ensures { result ≡ true → (sc : Scenario) (s : State) → Numbers self.now s numbers.now
            → is_idle (step sc choice s).outcome ≡ true }
    {
        rests(&self.table, choice, numbers)
    }

    /// A step of the choice at a place that read what it reads of a state with these numbers, if one is remembered. A commit may
    /// have another number.
    pub fn recall(&self, place: usize, numbers: &[u32]) -> Option<&CachedStep>
        requires { place < length self.now.caches.items }
        ensures { IfSome result (λ r. (sc : Scenario) (s : State) → IsTrue sc self.entry.now → Numbers self.entry.now s numbers.entry.now
            → length s.txns ≡ length sc.programs
            → Leads sc self.entry.now (choice_at self.entry.now place) s (numbers_by self.entry.now place r.now numbers.entry.now) r.now.outcome) }
    {
        if MOST_NUMBERS <= numbers.len() {
            return None;
        }
        self.caches[place].recall(&self.table, numbers)
    }

    /// The numbers to which a remembered step of a choice leads go to `after`.
    pub fn follow(
        &self,
        place: usize,
        step: &CachedStep,
        numbers: &[u32],
        after: &mut Vec<u32>,
    ) -> Result<(), AllocError>
        requires there { place < length self.now.caches.items }
        ensures { OnOk result (after.new.items ≡ numbers_by self.now place step.now numbers.now) }
    {
        write(&self.table, self.caches[place].choice, step, numbers, after)
    }

    /// Remembers a step by its numbers before and after it.
    pub fn learn(
        &mut self,
        place: usize,
        before: &[u32],
        after: &[u32],
        outcome: Outcome,
    ) -> Result<(), AllocError>
        requires there { place < length self.old.caches.items }
        requires few { length before.now < numbers_end }
        ensures part { self.new.part ≡ self.old.part }
        ensures table { self.new.table ≡ self.old.table }
        ensures choices { choices_of self.new ≡ choices_of self.old }
        // Each remembered step happened, if this one did.
        ensures truth { OnOk result ((sc : Scenario) (s : State) → IsTrue sc self.old → Numbers self.old s before.now
            → Leads sc self.old (choice_at self.old place) s after.now outcome → length s.txns ≡ length sc.programs
            → names_below (length sc.programs) (choice_at self.old place) ≡ true → IsTrue sc self.new) }
    {
        self.caches[place].learn(&self.table, before, after, outcome)?;
        Ok(())
    }
}
