//! What is known of where choices lead before it is their turn.
ghost use Rattle.std.specs.Prelude.{◌≡◌, ◌<◌, ℕ, List, [], IfOk, IfSome, OnOk, length, true};
ghost use Rattle.zy_search.specs.Ahead.{numbers_at, IsForeseen, HasNumbers, AreSuccessors, IsSuccessor, IsTaken};
ghost use Rattle.zy_search.specs.Stuck.{is_still};
ghost use Rattle.zy_search.specs.Visits.{step_by, AreNumbersAt, Grows, IsInformed, IsNumber, LeadsTo};
ghost use Rattle.zy_search.specs.declared.branch.Branch.{Branch as ABranch};
ghost use Rattle.zy_search.specs.declared.plan.Plan.{Plan as APlan};
ghost use Rattle.zy_search.specs.declared.reached.Reached.{Reached as AReached};

use crate::branch::{Branch, NumberedBranch};
use crate::plan::Plan;
use crate::reached::Reached;
use crate::still::is_still;
use crate::turn_numbers::TurnNumbers;
use std::alloc::{AllocError, Global};
use zy_step_cache::Vectors;
use zy_table::Outcome;

/// What is known of where a choice leads.
#[derive(Clone, Copy)]
pub enum Successor {
    /// Nothing: no step like it is remembered.
    Unknown,
    /// To a state like one that was reached.
    Reached,
    /// To a state that was not found. Its numbers are kept at this place.
    Numbered(u32),
}

/// What is known of where each choice leads from the state at a place.
#[derive(Drop)]
pub struct Successors {
    /// The place of the state.
    pub place: u32,
    /// What is known of where each of the choices that are considered leads, in their order.
    pub by_choice: Vec<Successor>,
}

/// The successors of the states at some places one behind the other, and the numbers of those that were not found, each once.
#[derive(Drop)]
pub struct Ahead {
    /// The place of the first state.
    first: u32,
    /// The successors of each state, in the order of their places.
    pub found: Vec<Successors>,
    /// The numbers of the successors that were not found.
    pub numbers: Vectors,
    /// How many of these states were taken in: the first ones.
    pub taken: usize,
}

/// Whether nothing comes of the choice of a branch, by a byte or two of the parts of its state. Where it answers yes, nothing does.
pub(crate) fn rests(plan: &Plan, reached: &Reached, branch: Branch, here: &[u32]) -> bool
    requires here { AreNumbersAt plan.now reached.now branch.from here.now }
    ensures { result ≡ true → is_still (step_by plan.now reached.now.tree branch).outcome ≡ true }
{
    reached.explored.cache.rests(branch.by, here)
}

/// What comes of the choice of a branch, if a step like it is remembered. Where something does, the numbers of the state
/// that it leads to are those that come next.
pub(crate) fn recall(
    plan: &Plan,
    reached: &Reached,
    turn: NumberedBranch,
    numbers: &mut TurnNumbers,
) -> Result<Option<Outcome>, AllocError>
    requires there { turn.branch.from < length reached.now.tree }
    requires informed { IsInformed plan.now reached.now }
    requires choice { IsNumber plan.now turn.choice turn.branch.by }
    requires here { AreNumbersAt plan.now reached.now turn.branch.from numbers.old.here.items }
    ensures leads { IfOk result (λ o. IfSome o (LeadsTo plan.now reached.now turn.branch numbers.new.next.items)) }
    ensures here { numbers.new.here ≡ numbers.old.here }
{
    let cache = &reached.explored.cache;
    let here = numbers.here.as_slice();
    let Some(step) = cache.recall(turn.choice, here) else {
        return Ok(None);
    };
    if is_still(step.outcome) {
        return Ok(Some(step.outcome));
    }
    cache.follow(turn.choice, step, here, &mut numbers.next)?;
    Ok(Some(step.outcome))
}

/// A state whose numbers are kept at a place. From a number of places on that no search comes to, nothing is known of it.
fn numbered(place: usize) -> Successor
    ensures { (p : APlan) (x : AReached) (arena : List (List ℕ)) (b : ABranch) → HasNumbers p x arena b place
        → IsSuccessor p x arena b result }
{
    match u32::try_from(place) {
        Ok(place) => Successor::Numbered(place),
        Err(_) => Successor::Unknown,
    }
}

/// What is known of where the choice of a branch leads. The numbers of a state that is not found are kept.
fn successor_of(
    plan: &Plan,
    reached: &Reached,
    turn: NumberedBranch,
    numbers: &mut TurnNumbers,
    kept: &mut Vectors,
) -> Result<Successor, AllocError>
    requires there { turn.branch.from < length reached.now.tree }
    requires informed { IsInformed plan.now reached.now }
    requires choice { IsNumber plan.now turn.choice turn.branch.by }
    requires here { AreNumbersAt plan.now reached.now turn.branch.from numbers.old.here.items }
    ensures successor { IfOk result (IsSuccessor plan.now reached.now kept.new turn.branch) }
    ensures grows { OnOk result (Grows kept.old kept.new) }
    ensures here { numbers.new.here ≡ numbers.old.here }
{
    if rests(plan, reached, turn.branch, &numbers.here) {
        return Ok(Successor::Reached);
    }
    let Some(outcome) = recall(plan, reached, turn, numbers)? else {
        return Ok(Successor::Unknown);
    };
    if is_still(outcome) {
        return Ok(Successor::Reached);
    }
    if let Some(_) = reached.explored.find(&numbers.next) {
        return Ok(Successor::Reached);
    }
    if let Some(place) = kept.find(&numbers.next) {
        return Ok(numbered(place));
    }
    let place = kept.len();
    kept.push(&numbers.next)?;
    Ok(numbered(place))
}

/// What is known of where each choice leads from the state at a place.
fn successors_of(
    plan: &Plan,
    reached: &Reached,
    at: u32,
    numbers: &mut TurnNumbers,
    kept: &mut Vectors,
) -> Result<Successors, AllocError>
    requires there { at < length reached.now.tree }
    requires informed { IsInformed plan.now reached.now }
    ensures successors { IfOk result (AreSuccessors plan.now reached.now kept.new) }
    ensures grows { OnOk result (Grows kept.old kept.new) }
{
    numbers.go_to(plan, reached, at)?;
    let mut by_choice = Vec::with_capacity(plan.alloc, plan.choices.len())?;
    for i in 0..plan.choices.len() {
        let turn = NumberedBranch {
            branch: Branch {
                from: at,
                by: plan.choices[i],
            },
            choice: i,
        };
        let successor = successor_of(plan, reached, turn, numbers, kept)?;
        by_choice.push(successor)?;
    }
    Ok(Successors {
        place: at,
        by_choice,
    })
}

/// What is known of where each choice leads from the states at some places, as far as there are any.
pub(crate) fn foresee(
    plan: &Plan,
    reached: &Reached,
    first: u32,
    count: u32,
) -> Result<Ahead, AllocError>
    requires { IsInformed plan.now reached.now }
    ensures { IfOk result (IsForeseen plan.now reached.now) }
{
    let mut numbers = TurnNumbers::new(plan.alloc);
    let mut ahead = Ahead::new(plan.alloc, first);
    for at in first..first.saturating_add(count) {
        if reached.tree.len() <= at as usize {
            return Ok(ahead);
        }
        let successors = successors_of(plan, reached, at, &mut numbers, &mut ahead.numbers)?;
        ahead.found.push(successors)?;
    }
    Ok(ahead)
}

impl Ahead {
    /// Nothing is known yet. It takes no memory.
    pub(crate) fn new(alloc: Global, first: u32) -> Ahead
        ensures found { result.found.items ≡ [] }
        ensures taken { result.taken ≡ 0 }
    {
        Ahead {
            first,
            found: Vec::new(alloc),
            numbers: Vectors::new(alloc),
            taken: 0,
        }
    }

    /// Whether it knows of the state at a place.
    pub(crate) fn has(&self, at: u32) -> bool {
        self.successors(at).is_some()
    }

    /// What it knows of the state at a place, if it does.
    #[inline(always)]
    fn successors(&self, at: u32) -> Option<&Successors>
        ensures place { IfSome result (λ r. r.now.place ≡ at) }
        ensures successors { IfSome result (λ r. (p : APlan) (x : AReached) → IsForeseen p x self.entry.now
            → AreSuccessors p x self.entry.now.numbers r.now) }
    {
        let successors = self.found.get(at.checked_sub(self.first)? as usize)?;
        if successors.place == at {
            Some(successors)
        } else {
            None
        }
    }

    /// What is known of where the choice of a branch leads.
    #[inline(always)]
    pub(crate) fn successor(&self, turn: NumberedBranch) -> Successor
        ensures { (p : APlan) (x : AReached) → IsForeseen p x self.now → IsNumber p turn.choice turn.branch.by
            → IsSuccessor p x self.now.numbers turn.branch result }
    {
        let Some(successors) = self.successors(turn.branch.from) else {
            return Successor::Unknown;
        };
        match successors.by_choice.get(turn.choice) {
            Some(successor) => *successor,
            None => Successor::Unknown,
        }
    }

    /// The numbers that are kept at a place.
    pub(crate) fn numbers_at(&self, place: usize) -> &[u32]
        ensures { result.now ≡ numbers_at self.entry.now.numbers place }
    {
        match self.numbers.get(place) {
            Some(numbers) => numbers,
            None => &[],
        }
    }

    /// The state whose numbers are kept at a place was taken in.
    pub(crate) fn take(&mut self, place: usize)
        ensures { (p : APlan) (x : AReached) → IsTaken p x self.old.numbers place → IsForeseen p x self.old
            → IsForeseen p x self.new }
    {
        if place == self.taken {
            self.taken = self.taken.saturating_add(1);
        }
    }
}
