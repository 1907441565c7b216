//! Runs by three threads.

use crate::scenes::{ACTORS, scenario};
use crate::sweeping::{Answers, Trouble, setup};
use std::alloc::Global;
use std::sync::Wait;
use std::sync::atomic::{AtomicU64, Ordering};
use std::thread::{Threads, yield_now};
use zy_isa::{Actor, Choice, Scenario};
use zy_table::Entry;
use zy_threads::Gate;
use zy_threads::run::run_threads;

/// For how many turns of a loop a look checks that the gate stays quiet.
const LOOK: u64 = 100;

/// How many choices an actor has.
fn count_of(actor: Actor, choices: &[Choice]) -> u64 {
    let own = choices.iter().filter(|choice| choice.actor() == actor);
    own.count() as u64
}

/// Counts the calls for each actor, and delays those for B by some turns of a loop.
#[derive(Drop)]
struct Counting {
    turns: u64,
    c: AtomicU64,
    a: AtomicU64,
    b: AtomicU64,
    wrong: AtomicU64,
}

impl Counting {
    fn new(turns: u64) -> Counting {
        Counting {
            turns,
            c: AtomicU64::new(0),
            a: AtomicU64::new(0),
            b: AtomicU64::new(0),
            wrong: AtomicU64::new(0),
        }
    }

    fn calls(&self, actor: Actor) -> &AtomicU64 {
        match actor {
            Actor::C => &self.c,
            Actor::A => &self.a,
            Actor::B => &self.b,
        }
    }

    fn count(&self, actor: Actor) -> u64 {
        self.calls(actor).load(Ordering::SeqCst)
    }

    /// Whether each actor's calls were numbered in order, and only its first call had no entry.
    fn is_numbered(&self) -> bool {
        self.wrong.load(Ordering::SeqCst) == 0
    }

    /// Whether each actor was called for all of its choices.
    fn is_whole(&self, choices: &[Choice]) -> bool {
        ACTORS
            .iter()
            .all(|actor| self.count(*actor) == count_of(*actor, choices))
    }

    /// Whether the actor was called, but not for all of its choices.
    fn is_short(&self, actor: Actor, choices: &[Choice]) -> bool {
        let count = self.count(actor);
        count > 0 && count < count_of(actor, choices)
    }

    /// Whether one actor at most was cut short.
    fn is_cut(&self, choices: &[Choice]) -> bool {
        let short = ACTORS
            .iter()
            .filter(|actor| self.is_short(**actor, choices));
        short.count() <= 1
    }

    /// Whether no call comes during a look.
    fn is_quiet(&self) -> bool {
        let before = ACTORS.map(|actor| self.count(actor));
        for _ in 0..LOOK {
            yield_now();
        }
        ACTORS.map(|actor| self.count(actor)) == before
    }
}

impl Gate for Counting {
    fn before(&self, actor: Actor, k: usize, last: Option<&Entry>) {
        let before = self.calls(actor).fetch_add(1, Ordering::SeqCst);
        let is_next = k > 0 && before == (k - 1) as u64;
        if !is_next || last.is_none() != (k == 1) {
            self.wrong.store(1, Ordering::SeqCst);
        }
        if actor == Actor::B {
            for _ in 0..self.turns {
                yield_now();
            }
        }
    }
}

/// Lets three threads make the choices of a scenario, and returns whether they did.
fn is_made<R: Threads + Wait + Sync>(
    rt: &R,
    alloc: Global,
    scenario: Scenario,
    gate: &Counting,
) -> bool {
    match run_threads(rt, alloc, scenario, gate) {
        Ok(machine) => {
            machine.discard();
            true
        }
        Err(_) => false,
    }
}

/// Does the same under a gate, and checks the gate's calls.
fn run<R: Threads + Wait + Sync>(
    rt: &R,
    alloc: Global,
    scenario: &Scenario,
    turns: u64,
) -> Result<(), Trouble> {
    let gate = Counting::new(turns);
    let is_made = is_made(rt, alloc, setup(scenario.copy(alloc))?, &gate);
    let is_orderly = gate.is_quiet() && gate.is_numbered();
    if is_orderly && is_made && gate.is_whole(scenario.choices()) {
        Ok(())
    } else if is_orderly && !is_made && gate.is_cut(scenario.choices()) {
        Err(Trouble::Memory)
    } else {
        Err(Trouble::Different)
    }
}

/// `run_threads` of a text's scenario, made again if it runs out of memory. Each step of B waits for some turns of a loop.
pub fn sweep_workers<R: Threads + Wait + Sync>(
    rt: &R,
    alloc: Global,
    input: &[u8],
    turns: u64,
) -> Result<Answers, Trouble> {
    let scenario = setup(scenario(alloc, input))?;
    let again = match run(rt, alloc, &scenario, turns) {
        Ok(()) => false,
        Err(Trouble::Memory) => {
            run(rt, alloc, &scenario, turns)?;
            true
        }
        Err(trouble) => return Err(trouble),
    };
    Ok(Answers { count: 1, again })
}
