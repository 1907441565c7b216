//! A machine whose choices are taken actor by actor.
ghost use Rattle.std.specs.Prelude.{◌≡◌, ◌<◌, ◌≤◌, ◌+◌, [], IfOk, OnErr, MatchOption, length, slice_get};
ghost use Rattle.std.specs.Prelude.{Some};
ghost use Rattle.zy_machine.specs.Histories.{choices_of};
ghost use Rattle.zy_table.specs.Play.{opening};
ghost use Rattle.zy_threads.specs.Turns.{sub, is_by, turns_of, one_further, IsTurn, IsBoard, IsMerge};
ghost use Rattle.zy_isa.specs.declared.node.Actor.TheVariants.{C as client, A as node_a, B as node_b};

use std::alloc::Global;
use std::marker::Model;
use zy_isa::{Actor, Choice, Scenario};
use zy_machine::{Fault, Machine};
use zy_table::Entry;

/// One actor's choices in order, and how many were taken.
#[derive(Drop)]
struct Lane {
    schedule: Vec<Choice>,
    cursor: usize,
}

impl Model for Lane {
    ghost use Rattle.std.specs.Prelude.{◌≤◌, length};
    ghost use Rattle.zy_threads.specs.Turns.{Turns};

    ghost Value = { Turns };

    ghost view = { λ l. record { schedule = l.schedule.items; cursor = l.cursor } };

    ghost invariant = { λ l. l.cursor ≤ length l.schedule.items };
}

impl Lane {
    fn new(schedule: Vec<Choice>) -> Lane
        ensures schedule { result.schedule ≡ schedule.items }
        ensures cursor { result.cursor ≡ 0 }
    {
        Lane {
            schedule,
            cursor: 0,
        }
    }

    fn front(&self) -> Option<Choice>
        ensures { MatchOption result (self.now.cursor ≡ length self.now.schedule)
            (λ c. (slice_get self.now.schedule self.now.cursor ≡ Some c)
            × (self.now.cursor < length self.now.schedule)) }
    {
        self.schedule.get(self.cursor).copied()
    }

    fn len(&self) -> usize
        ensures { result ≡ length self.now.schedule }
    {
        self.schedule.len()
    }

    fn advance(&mut self)
        requires { self.old.cursor < length self.old.schedule }
        ensures { self.new ≡ one_further self.old }
    {
        self.cursor += 1;
    }
}

/// Whether the choice is the actor's.
fn is_of(choice: Choice, actor: Actor) -> bool
    ensures { result ≡ is_by actor choice }
{
    match actor {
        Actor::C => matches!(choice.actor(), Actor::C),
        Actor::A => matches!(choice.actor(), Actor::A),
        Actor::B => matches!(choice.actor(), Actor::B),
    }
}

/// The choices of the actor, in order.
fn choices_by(alloc: Global, choices: &[Choice], actor: Actor) -> Result<Vec<Choice>, Fault>
    ensures { IfOk result (λ v. v.items ≡ sub actor choices.now) }
{
    let mut found = Vec::new(alloc);
    for choice in choices {
        if is_of(*choice, actor) {
            found.push(*choice)?;
        }
    }
    Ok(found)
}

/// A machine, and each actor's choices with a cursor into them.
#[derive(Drop)]
pub struct Board {
    machine: Machine,
    c: Lane,
    a: Lane,
    b: Lane,
}

impl Model for Board {
    ghost use Rattle.zy_threads.specs.Turns.{BoardView, IsBoard};

    ghost Value = { BoardView };

    ghost view = { λ t. record { machine = t.machine; c = t.c; a = t.a; b = t.b } };

    ghost invariant = { λ t. IsBoard (record { machine = t.machine; c = t.c; a = t.a; b = t.b }) };
}

impl Board {
    /// A board where nothing has happened yet. The scenario is dropped where there is no memory.
    pub fn new(alloc: Global, scenario: Scenario) -> Result<Board, Fault>
        ensures machine { IfOk result (λ t. t.machine ≡ record {
          scenario = scenario;
          state = opening scenario;
          entries = [];
        }) }
        ensures cursors { IfOk result (λ t. (t.c.cursor ≡ 0) × (t.a.cursor ≡ 0) × (t.b.cursor ≡ 0)) }
    {
        let c = Lane::new(choices_by(alloc, scenario.choices(), Actor::C)?);
        let a = Lane::new(choices_by(alloc, scenario.choices(), Actor::A)?);
        let b = Lane::new(choices_by(alloc, scenario.choices(), Actor::B)?);
        let machine = Machine::open(alloc, scenario)?;
        Ok(Board { machine, c, a, b })
    }

    /// The actor's next choice.
    fn next_of(&self, actor: Actor) -> Option<Choice>
        ensures { MatchOption result ((turns_of self.now actor).cursor ≡ length (turns_of self.now actor).schedule)
            (λ c. slice_get (turns_of self.now actor).schedule (turns_of self.now actor).cursor ≡ Some c) }
    {
        match actor {
            Actor::C => self.c.front(),
            Actor::A => self.a.front(),
            Actor::B => self.b.front(),
        }
    }

    /// Takes the actor's next choice, if it has one left. Out of memory, nothing changes.
    pub fn step_next(&mut self, actor: Actor) -> Result<Option<Entry>, Fault>
        ensures ok { IfOk result (λ r. IsTurn actor self.old r self.new) }
        ensures err { OnErr result (self.new ≡ self.old) }
    {
        let Some(choice) = self.next_of(actor) else {
            return Ok(None);
        };
        let entry = self.machine.step(choice)?;
        match actor {
            Actor::C => self.c.advance(),
            Actor::A => self.a.advance(),
            Actor::B => self.b.advance(),
        }
        Ok(Some(entry))
    }

    /// How many choices the actor has taken.
    pub fn cursor(&self, actor: Actor) -> usize
        ensures cursor { result ≡ (turns_of self.now actor).cursor }
        ensures board { IsBoard self.now }
    {
        match actor {
            Actor::C => self.c.cursor,
            Actor::A => self.a.cursor,
            Actor::B => self.b.cursor,
        }
    }

    /// How many choices the actor has, taken or not.
    pub(crate) fn turns(&self, actor: Actor) -> usize
        ensures whole { result ≡ length (sub actor self.now.machine.scenario.choices) }
        ensures turns { result ≡ length (turns_of self.now actor).schedule }
    {
        match actor {
            Actor::C => self.c.len(),
            Actor::A => self.a.len(),
            Actor::B => self.b.len(),
        }
    }

    /// The machine.
    pub fn machine(&self) -> &Machine
        ensures { result.now ≡ self.now.machine }
    {
        &self.machine
    }

    /// The machine, on which every choice was taken.
    pub(crate) fn finished(self) -> Machine
        requires { (self.c.cursor ≡ length (sub client self.machine.scenario.choices))
            × (self.a.cursor ≡ length (sub node_a self.machine.scenario.choices))
            × (self.b.cursor ≡ length (sub node_b self.machine.scenario.choices)) }
        ensures machine { result ≡ self.machine }
        ensures merge { IsMerge (choices_of result.entries) result.scenario.choices }
    {
        self.into_machine()
    }

    /// The machine, however many choices were taken.
    pub fn into_machine(self) -> Machine
        ensures { result ≡ self.machine }
    {
        let Board {
            machine,
            c: _,
            a: _,
            b: _,
        } = self;
        machine
    }
}
