//! What many threads find out ahead of a search.
ghost use Rattle.std.specs.Prelude.{◌≡◌, [], IfOk, OnOk};
ghost use Rattle.std.specs.List.{All};
ghost use Rattle.zy_search.specs.Ahead.{IsForeseen, IsOutlook};
ghost use Rattle.zy_search.specs.Visits.{IsInformed};
ghost use Rattle.zy_search.specs.declared.plan.Plan.{Plan as APlan};
ghost use Rattle.zy_search.specs.declared.reached.Reached.{Reached as AReached};

use crate::ahead::{Ahead, foresee};
use crate::plan::Plan;
use crate::reached::Reached;
use std::alloc::{AllocError, Global};
use std::thread;
use std::thread::Threads;

/// What is known of the successors of states whose turn comes next.
#[derive(Drop)]
pub struct Outlook {
    /// What is known of those whose turn it is.
    pub ahead: Ahead,
    /// What is known of those behind them, the nearest last.
    pub rest: Vec<Ahead>,
}

/// How many states a thread looks at before their successors are taken in.
const MOST_EACH: u32 = 2048;

/// How many states are worth the start of a thread.
const LEAST_EACH: u32 = 128;

/// How many states wait for their turn, from a place on.
fn waiting(reached: &Reached, at: u32) -> u32 {
    let known = u32::try_from(reached.tree.len()).unwrap_or(u32::MAX);
    known.saturating_sub(at)
}

/// Whether it is not worth it to look ahead from a place.
fn are_few(plan: &Plan, reached: &Reached, at: u32) -> bool {
    plan.threads < 2 || waiting(reached, at) < 2 * LEAST_EACH
}

/// How the states from a place on are shared among threads: how many parts there are, and how many states each has.
fn shares(plan: &Plan, reached: &Reached, at: u32) -> (usize, u32) {
    let most = plan.threads.saturating_mul(MOST_EACH);
    let count = waiting(reached, at).min(most).max(1);
    let each = count.div_ceil(plan.threads.max(1)).max(LEAST_EACH);
    (count.div_ceil(each) as usize, each)
}

/// The place of the first state of a part, where the first part begins at a place, and each has some states.
fn first_of(part: usize, at: u32, each: u32) -> u32 {
    let part = u32::try_from(part).unwrap_or(u32::MAX);
    at.saturating_add(part.saturating_mul(each))
}

/// The parts, the first of them last, if no thread was out of memory.
fn reversed(
    alloc: Global,
    mut results: Vec<Result<Ahead, AllocError>>,
) -> Result<Vec<Ahead>, AllocError>
    ensures { IfOk result (λ v. (p : APlan) (x : AReached) → All (λ r. IfOk r (IsForeseen p x)) results.items
        → All (IsForeseen p x) v.items) }
{
    let mut parts = Vec::with_capacity(alloc, results.len())?;
    for _ in 0..results.len() {
        if let Some(result) = results.pop() {
            parts.push(result?)?;
        }
    }
    Ok(parts)
}

/// What is known of the successors of the states from a place on, by many threads; the first part is the last.
fn look_ahead<R: Threads + Sync>(
    rt: &R,
    plan: &Plan,
    reached: &Reached,
    at: u32,
) -> Result<Vec<Ahead>, AllocError>
    requires { IsInformed plan.now reached.now }
    ensures { IfOk result (λ v. All (IsForeseen plan.now reached.now) v.items) }
{
    let (parts, each) = shares(plan, reached, at);
    let part = move |i: usize| -> Result<Ahead, AllocError>
        requires { IsInformed plan.now reached.now }
        ensures { IfOk result (IsForeseen plan.entry.now reached.entry.now) }
    { foresee(plan, reached, first_of(i, at, each), each) };
    let results = thread::map_indices(rt, plan.alloc, parts, &part)?;
    reversed(plan.alloc, results)
}

impl Outlook {
    /// Nothing is known yet. It takes no memory.
    pub(crate) fn new(alloc: Global) -> Outlook
        ensures { (p : APlan) (x : AReached) → IsOutlook p x result }
    {
        Outlook {
            ahead: Ahead::new(alloc, 0),
            rest: Vec::new(alloc),
        }
    }

    /// Whether all is known of a place that is to be known, when it is its turn.
    fn is_settled(&self, plan: &Plan, reached: &Reached, at: u32) -> bool {
        self.ahead.has(at) || (self.rest.is_empty() && are_few(plan, reached, at))
    }

    /// Brings it to a place whose turn it is. Where nothing is known of that, many threads look ahead, if it is worth it.
    pub(crate) fn go_to<R: Threads + Sync>(
        &mut self,
        rt: &R,
        plan: &Plan,
        reached: &Reached,
        at: u32,
    ) -> Result<(), AllocError>
        requires informed { IsInformed plan.now reached.now }
        requires outlook { IsOutlook plan.now reached.now self.old }
        ensures { OnOk result (IsOutlook plan.now reached.now self.new) }
    {
        if self.is_settled(plan, reached, at) {
            return Ok(());
        }
        if self.rest.is_empty() {
            self.rest = look_ahead(rt, plan, reached, at)?;
        }
        self.go_on();
        Ok(())
    }

    /// The nearest of those behind comes next, if there is one.
    fn go_on(&mut self)
        ensures { (p : APlan) (x : AReached) → IsOutlook p x self.old → IsOutlook p x self.new }
    {
        if let Some(ahead) = self.rest.pop() {
            self.ahead = ahead;
        }
    }
}
