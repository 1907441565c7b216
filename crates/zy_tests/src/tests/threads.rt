//! The worked run on a node that is not there yet, by three threads: what its gates are called with, in which order it
//! may go, and a step that is refused memory.

use super::image::scenario;
use std::alloc::Global;
use std::sync::atomic::{AtomicU64, Ordering};
use std::sync::{OnceLock, Wait};
use std::test::Fail;
use std::thread::{Threads, yield_now};
use zy_isa::{Actor, Choice, Node};
use zy_table::{Entry, Outcome};
use zy_threads::run::{run_allowed, run_threads};
use zy_threads::{Allowance, Gate};

const TAKE_B: Choice = Choice::Take(Node::B);

const RUN_B: Choice = Choice::Run(Node::B, 0);

/// Two choices of the client, one of A and five of B.
const CHOICES: &[Choice] = &[
    Choice::Start,
    TAKE_B,
    Choice::Take(Node::A),
    Choice::Begin(0),
    RUN_B,
    TAKE_B,
    RUN_B,
    RUN_B,
];

/// How often a gate looks for what it waits for: long enough, and never for ever.
const TURNS: u32 = 1_000_000_000;

/// Whether the number came up to this within the turns.
fn waited(number: &AtomicU64, least: u64) -> bool {
    for _ in 0..TURNS {
        if number.load(Ordering::SeqCst) >= least {
            return true;
        }
        yield_now();
    }
    false
}

/// The steps of a run by three threads.
fn steps(
    rt: &(impl Threads + Wait + Sync),
    alloc: Global,
    gate: &(impl Gate + Sync),
) -> Result<Vec<Entry>, Fail> {
    let machine = run_threads(rt, alloc, scenario(alloc, CHOICES)?, gate)?;
    let steps = machine.entries().to_vec(alloc);
    machine.discard();
    Ok(steps?)
}

/// Whether the actor's steps are its choices, in order.
fn are_own(steps: &[Entry], actor: Actor) -> bool {
    let own = CHOICES
        .iter()
        .copied()
        .filter(|choice| choice.actor() == actor);
    let taken = steps.iter().map(|entry| entry.choice);
    taken.filter(|choice| choice.actor() == actor).eq(own)
}

/// Whether the steps are each actor's choices, in order.
fn are_merged(steps: &[Entry]) -> bool {
    let each = are_own(steps, Actor::C) && are_own(steps, Actor::A) && are_own(steps, Actor::B);
    each && steps.len() == CHOICES.len()
}

/// A node's first step waits until the other's has begun.
#[derive(Drop)]
struct Meeting {
    a: AtomicU64,
    b: AtomicU64,
    missed: AtomicU64,
}

impl Meeting {
    fn meet(&self, own: &AtomicU64, other: &AtomicU64) {
        own.store(1, Ordering::SeqCst);
        if !waited(other, 1) {
            self.missed.store(1, Ordering::SeqCst);
        }
    }
}

impl Gate for Meeting {
    fn before(&self, actor: Actor, k: usize, _last: Option<&Entry>) {
        if k != 1 {
            return;
        }
        match actor {
            Actor::C => {}
            Actor::A => self.meet(&self.a, &self.b),
            Actor::B => self.meet(&self.b, &self.a),
        }
    }
}

#[test]
fn two_workers_meet(rt: HostRuntime) -> Result<(), Fail> {
    let gate = Meeting {
        a: AtomicU64::new(0),
        b: AtomicU64::new(0),
        missed: AtomicU64::new(0),
    };
    let steps = steps(&rt, rt.alloc(), &gate)?;
    assert_eq!(rt; gate.missed.load(Ordering::SeqCst), 0);
    assert!(rt; are_merged(steps.as_slice()));
    Ok(())
}

/// A's first call waits for B's second, and B's first for the client's second: each of these comes only after a step.
#[derive(Drop)]
struct Waiting {
    b: AtomicU64,
    c: AtomicU64,
    missed: AtomicU64,
}

impl Gate for Waiting {
    fn before(&self, actor: Actor, k: usize, _last: Option<&Entry>) {
        let came = match actor {
            Actor::C => self.c.fetch_add(1, Ordering::SeqCst) < 2,
            Actor::A => waited(&self.b, 2),
            Actor::B => {
                self.b.fetch_add(1, Ordering::SeqCst);
                k != 1 || waited(&self.c, 2)
            }
        };
        if !came {
            self.missed.store(1, Ordering::SeqCst);
        }
    }
}

#[test]
fn others_step_while_one_waits(rt: HostRuntime) -> Result<(), Fail> {
    let gate = Waiting {
        b: AtomicU64::new(0),
        c: AtomicU64::new(0),
        missed: AtomicU64::new(0),
    };
    let steps = steps(&rt, rt.alloc(), &gate)?;
    assert_eq!(rt; gate.missed.load(Ordering::SeqCst), 0);
    assert!(rt; are_merged(steps.as_slice()));
    Ok(())
}

/// The outcome that B's step before its `k`-th has, where the client comes last.
fn before_client(k: usize) -> Option<Outcome> {
    match k {
        2 => Some(Outcome::NoMessage),
        3 => Some(Outcome::Idle),
        4 => Some(Outcome::NoMessage),
        5 => Some(Outcome::Idle),
        _ => None,
    }
}

/// The client's first step waits until A has come to its first and B to its fifth.
#[derive(Drop)]
struct ClientLast {
    a: AtomicU64,
    b: AtomicU64,
    wrong: AtomicU64,
}

impl Gate for ClientLast {
    fn before(&self, actor: Actor, k: usize, last: Option<&Entry>) {
        let right = match actor {
            Actor::C => k != 1 || (waited(&self.a, 1) && waited(&self.b, 5)),
            Actor::A => {
                self.a.fetch_add(1, Ordering::SeqCst);
                k == 1 && last.is_none()
            }
            Actor::B => {
                self.b.fetch_add(1, Ordering::SeqCst);
                last.map(|entry| entry.outcome) == before_client(k)
            }
        };
        if !right {
            self.wrong.store(1, Ordering::SeqCst);
        }
    }
}

/// How many steps of B are before the client's first.
fn of_b_before_client(steps: &[Entry]) -> usize {
    let before = steps
        .iter()
        .take_while(|entry| entry.choice.actor() != Actor::C);
    before
        .filter(|entry| entry.choice.actor() == Actor::B)
        .count()
}

#[test]
fn the_client_comes_last(rt: HostRuntime) -> Result<(), Fail> {
    let gate = ClientLast {
        a: AtomicU64::new(0),
        b: AtomicU64::new(0),
        wrong: AtomicU64::new(0),
    };
    let steps = steps(&rt, rt.alloc(), &gate)?;
    assert_eq!(rt; gate.wrong.load(Ordering::SeqCst), 0);
    assert_eq!(rt; gate.b.load(Ordering::SeqCst), 5);
    assert!(rt; of_b_before_client(steps.as_slice()) >= 4);
    Ok(())
}

/// Notes each call: how many each actor had, and the entry that each was handed, in the order of the actors.
#[derive(Drop)]
struct Noting {
    c: AtomicU64,
    a: AtomicU64,
    b: AtomicU64,
    notes: [OnceLock<Entry>; 8],
    wrong: AtomicU64,
}

impl Noting {
    fn new() -> Noting {
        Noting {
            c: AtomicU64::new(0),
            a: AtomicU64::new(0),
            b: AtomicU64::new(0),
            notes: [
                OnceLock::new(),
                OnceLock::new(),
                OnceLock::new(),
                OnceLock::new(),
                OnceLock::new(),
                OnceLock::new(),
                OnceLock::new(),
                OnceLock::new(),
            ],
            wrong: AtomicU64::new(0),
        }
    }

    fn calls(&self, actor: Actor) -> &AtomicU64 {
        match actor {
            Actor::C => &self.c,
            Actor::A => &self.a,
            Actor::B => &self.b,
        }
    }

    /// The notes of an actor's calls.
    fn notes_of(&self, actor: Actor) -> &[OnceLock<Entry>] {
        let notes = &self.notes[..];
        match actor {
            Actor::C => &notes[..2],
            Actor::A => &notes[2..3],
            Actor::B => &notes[3..],
        }
    }

    /// Whether the actor was called, but for fewer than all its steps.
    fn is_short(&self, actor: Actor) -> bool {
        let calls = self.calls(actor).load(Ordering::SeqCst);
        calls > 0 && calls < self.notes_of(actor).len() as u64
    }

    /// How many actors were called for fewer than all their steps.
    fn short(&self) -> usize {
        [Actor::C, Actor::A, Actor::B]
            .iter()
            .filter(|actor| self.is_short(**actor))
            .count()
    }

    /// Whether each call of an actor was handed the entry of its step before, and the first one none.
    fn agrees(&self, steps: &[Entry], actor: Actor) -> bool {
        let own = steps.iter().filter(|entry| entry.choice.actor() == actor);
        let notes = self.notes_of(actor);
        let handed = notes.iter().filter_map(|note| note.get());
        handed.eq(own.take(notes.len().saturating_sub(1)))
    }
}

impl Gate for Noting {
    fn before(&self, actor: Actor, k: usize, last: Option<&Entry>) {
        let before = self.calls(actor).fetch_add(1, Ordering::SeqCst);
        let in_turn = usize::try_from(before).is_ok_and(|calls| k > 0 && calls == k - 1);
        if !in_turn || last.is_none() != (k == 1) {
            self.wrong.store(1, Ordering::SeqCst);
        }
        let notes = self.notes_of(actor);
        if let Some(entry) = last
            && k > 0
            && k <= notes.len()
        {
            let _ = notes[k - 1].try_set(*entry);
        }
    }
}

/// Refuses one step its memory.
#[derive(Drop)]
struct OneRefused {
    asked: AtomicU64,
    refused: u64,
}

impl Allowance for OneRefused {
    fn grants(&self) -> bool {
        self.asked.fetch_add(1, Ordering::SeqCst) != self.refused
    }
}

/// Whether the run has an answer.
fn is_made<W: Allowance + Sync>(
    rt: &(impl Threads + Wait + Sync),
    alloc: Global,
    gate: &(impl Gate + Sync),
    allowance: &W,
) -> Result<bool, Fail> {
    match run_allowed(rt, alloc, scenario(alloc, CHOICES)?, gate, allowance) {
        Ok(machine) => {
            machine.discard();
            Ok(true)
        }
        Err(_) => Ok(false),
    }
}

/// Whether a run with this step refused, from 0, has no answer, and cuts one actor short at most.
fn is_refused(
    rt: &(impl Threads + Wait + Sync),
    alloc: Global,
    refused: u64,
) -> Result<bool, Fail> {
    let gate = Noting::new();
    let allowance = OneRefused {
        asked: AtomicU64::new(0),
        refused,
    };
    let is_made = is_made(rt, alloc, &gate, &allowance)?;
    let quiet = gate.wrong.load(Ordering::SeqCst) == 0;
    Ok(!is_made && quiet && gate.short() <= 1)
}

#[test]
fn a_refused_step_stops_one(rt: HostRuntime) -> Result<(), Fail> {
    for refused in 0..CHOICES.len() as u64 {
        assert!(rt; is_refused(&rt, rt.alloc(), refused)?, "step {refused}");
    }
    Ok(())
}

#[test]
fn each_call_has_the_entry_before(rt: HostRuntime) -> Result<(), Fail> {
    let gate = Noting::new();
    let steps = steps(&rt, rt.alloc(), &gate)?;
    assert_eq!(rt; gate.wrong.load(Ordering::SeqCst), 0);
    assert_eq!(rt; gate.short(), 0);
    assert!(rt; gate.agrees(steps.as_slice(), Actor::C));
    assert!(rt; gate.agrees(steps.as_slice(), Actor::A));
    assert!(rt; gate.agrees(steps.as_slice(), Actor::B));
    Ok(())
}
