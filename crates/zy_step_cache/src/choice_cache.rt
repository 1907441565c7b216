//! The steps of a choice that are remembered.
ghost use Rattle.std.specs.Prelude.{◌≡◌, ◌<◌, ◌++◌, ◌∷◌, ℕ, [], IfSome, OnOk, true, length, map, slice_set, Contains};
ghost use Rattle.zy_steps.specs.Reads.{uncounted};
ghost use Rattle.zy_isa.specs.Choices.{names_below};
ghost use Rattle.zy_isa.specs.declared.choice.Choice.TheVariants.{Run};
ghost use Rattle.zy_isa.specs.Scenario.{Scenario};
ghost use Rattle.zy_steps.specs.declared.part.StatePart.{StatePart};
ghost use Rattle.zy_step_cache.specs.Places as spec;
ghost use Rattle.zy_step_cache.specs.Places.{numbers_end};
ghost use Rattle.zy_step_cache.specs.Steps.{put_at, AreTrue, IsInScope};
ghost use Rattle.zy_state_ids.specs.Parts.{IsNumbered};
ghost use Rattle.zy_table.specs.Play.{step};
ghost use Rattle.zy_table.specs.State.{State};

use crate::places::{COMMITS_PLACE, Read, Scope, at, at_places, link_place, places, reads};
use crate::slots::{Look, MOST_LOOKS, Slots, mixed};
use std::alloc::{AllocError, Global};
use zy_isa::{Choice, Node};
use zy_state_ids::PartTable;
use zy_table::Outcome;

/// A step that is remembered.
#[derive(Clone, Copy)]
pub struct CachedStep {
    /// What it read and wrote beside its node and its transaction, if it is a run.
    pub scope: Scope,
    /// All that it read.
    pub read: Read,
    /// The numbers after it at the places that its choice writes.
    pub written: [u32; 4],
    /// Its outcome; a commit may have another number.
    pub outcome: Outcome,
}

/// The steps of a choice that are remembered.
#[derive(Drop)]
pub struct ChoiceCache {
    alloc: Global,
    pub choice: Choice,
    pub steps: Vec<CachedStep>,
    slots: Slots,
}

/// A digest of what was read.
#[inline(always)]
fn digest(read: Read) -> u64 {
    let first = u64::from(read.beside) << 32 | u64::from(read.first);
    let second = u64::from(read.second) << 32 | u64::from(read.third);
    mixed(mixed(mixed(0, first), second), u64::from(read.fourth))
}

/// What a run has in its scope, by the numbers before and after it; none where that is both the link and the commits.
fn run_scope(n: Node, before: &[u32], after: &[u32]) -> Option<Scope>
    ensures { IfSome result (λ k. (t : ℕ) → IsInScope (Run n t) k before.now after.now) }
{
    let is_link_left = at(before, link_place(n)) == at(after, link_place(n));
    let are_commits_left = at(before, COMMITS_PLACE) == at(after, COMMITS_PLACE);
    match (is_link_left, are_commits_left) {
        (true, true) => Some(Scope::Own),
        (false, true) => Some(Scope::Link),
        (true, false) => Some(Scope::Commits),
        (false, false) => None,
    }
}

/// The scope of a step by its numbers before and after it, if it has one.
fn scope_of(choice: Choice, before: &[u32], after: &[u32]) -> Option<Scope>
    ensures { IfSome result (λ k. IsInScope choice k before.now after.now) }
{
    match choice {
        Choice::Run(n, _) => run_scope(n, before, after),
        _ => Some(Scope::Own),
    }
}

/// A step as it is remembered, by its numbers before and after it.
fn note_of(
    table: &PartTable,
    choice: Choice,
    scope: Scope,
    before: &[u32],
    after: &[u32],
    outcome: Outcome,
) -> CachedStep
    requires { length before.now < numbers_end }
    ensures scope { result.scope ≡ scope }
    ensures read { result.read ≡ spec.reads table.now choice scope before.now }
    ensures written { result.written ≡ map (spec.at after.now) (spec.places table.now choice scope before.now) }
    ensures outcome { result.outcome ≡ outcome }
{
    CachedStep {
        scope,
        read: reads(table, choice, scope, before),
        written: at_places(after, places(table, choice, scope, before)),
        outcome,
    }
}

impl ChoiceCache {
    /// No step yet.
    pub fn new(alloc: Global, choice: Choice) -> ChoiceCache
        ensures choice { result.choice ≡ choice }
        ensures steps { result.steps.items ≡ [] }
    {
        ChoiceCache {
            alloc,
            choice,
            steps: Vec::new(alloc),
            slots: Slots::new(alloc),
        }
    }

    /// The step that read this, if one is remembered.
    fn find(&self, scope: Scope, read: Read) -> Option<&CachedStep>
        ensures there { IfSome result (λ r. Contains self.entry.now.steps.items r.now) }
        ensures scope { IfSome result (λ r. r.now.scope ≡ scope) }
        ensures read { IfSome result (λ r. r.now.read ≡ read) }
    {
        let digest = digest(read);
        for behind in 0..MOST_LOOKS {
            match self.slots.look(digest, behind) {
                Look::Free => return None,
                Look::Other => {}
                Look::Place(place) => {
                    let step = self.steps.get(place)?;
                    if step.scope == scope && step.read == read {
                        return Some(step);
                    }
                }
            }
        }
        None
    }

    /// A step that read what its choice reads of these numbers in a scope, if one is remembered.
    fn recall_in(&self, table: &PartTable, scope: Scope, numbers: &[u32]) -> Option<&CachedStep>
        requires { length numbers.now < numbers_end }
        ensures there { IfSome result (λ r. Contains self.entry.now.steps.items r.now) }
        ensures read { IfSome result (λ r. r.now.read
            ≡ spec.reads table.entry.now self.entry.now.choice r.now.scope numbers.entry.now) }
    {
        self.find(scope, reads(table, self.choice, scope, numbers))
    }

    /// A step that read what its choice reads of these numbers, if one is remembered.
    pub fn recall(&self, table: &PartTable, numbers: &[u32]) -> Option<&CachedStep>
        requires { length numbers.now < numbers_end }
        ensures there { IfSome result (λ r. Contains self.entry.now.steps.items r.now) }
        ensures read { IfSome result (λ r. r.now.read
            ≡ spec.reads table.entry.now self.entry.now.choice r.now.scope numbers.entry.now) }
    {
        if let Some(step) = self.recall_in(table, Scope::Own, numbers) {
            return Some(step);
        }
        if !matches!(self.choice, Choice::Run(_, _)) {
            return None;
        }
        if let Some(step) = self.recall_in(table, Scope::Link, numbers) {
            return Some(step);
        }
        self.recall_in(table, Scope::Commits, numbers)
    }

    /// Remembers a step by its numbers before and after it.
    pub fn learn(
        &mut self,
        table: &PartTable,
        before: &[u32],
        after: &[u32],
        outcome: Outcome,
    ) -> Result<(), AllocError>
        requires { length before.now < numbers_end }
        ensures choice { self.new.choice ≡ self.old.choice }
        // Each remembered step happened, if this one did.
        ensures steps { OnOk result ((sc : Scenario) (part : StatePart) (s : State)
            → AreTrue sc table.now part self.old.choice self.old.steps.items → IsNumbered table.now part before.now s
            → IsNumbered table.now part after.now (step sc self.old.choice s).after
            → length s.txns ≡ length sc.programs → names_below (length sc.programs) self.old.choice ≡ true
            → uncounted outcome ≡ uncounted (step sc self.old.choice s).outcome
            → AreTrue sc table.now part self.new.choice self.new.steps.items) }
    {
        let Some(scope) = scope_of(self.choice, before, after) else {
            return Ok(());
        };
        let step = note_of(table, self.choice, scope, before, after, outcome);
        self.keep(step)?;
        Ok(())
    }

    /// Keeps a step.
    fn keep(&mut self, step: CachedStep) -> Result<(), AllocError>
        ensures choice { self.new.choice ≡ self.old.choice }
        ensures steps { OnOk result (self.new.steps.items ≡ self.old.steps.items ++ step ∷ []) }
    {
        let place = self.steps.len();
        self.slots.reserve(self.alloc)?;
        self.steps.push(step)?;
        self.slots.put(digest(step.read), place);
        Ok(())
    }
}

/// Puts a number at a place, if it is there.
fn put(numbers: &mut Vec<u32>, place: usize, number: u32)
    ensures { numbers.new.items ≡ slice_set numbers.old.items place number }
{
    if place < numbers.len() {
        numbers[place] = number;
    }
}

/// Makes `after` the numbers with those that a remembered step wrote at their places.
pub fn write(
    table: &PartTable,
    choice: Choice,
    step: &CachedStep,
    numbers: &[u32],
    after: &mut Vec<u32>,
) -> Result<(), AllocError>
    ensures { OnOk result (after.new.items
        ≡ put_at numbers.now (spec.places table.now choice step.now.scope numbers.now) step.now.written) }
{
    let [first, second, third, fourth] = places(table, choice, step.scope, numbers);
    after.clear();
    after.extend_from_slice(numbers)?;
    put(after, first, step.written[0]);
    put(after, second, step.written[1]);
    put(after, third, step.written[2]);
    put(after, fourth, step.written[3]);
    Ok(())
}
