//! Stops, and what they read.
ghost use Rattle.std.specs.Prelude.{◌≡◌, true};
ghost use Rattle.zy_debug.specs.Stops.{fires_from};
ghost use Rattle.zy_debug.specs.Stops as spec;

use zy_isa::Node;
use zy_machine::Machine;
use zy_model::NodeMode;
use zy_table::{Outcome, Place};

/// A stop: a break or a watch.
#[derive(Clone, Copy)]
pub enum Stop {
    /// Where this page changes its place.
    Page(u16),
    /// Where a node changes its mode.
    Mode,
    /// Where a choice ends in an abort.
    Abort,
    /// Where the committed value at this key changes.
    Watch(u16),
}

/// What a stop reads in a state.
#[derive(Clone, Copy)]
pub enum Reading {
    /// Nothing.
    Nothing,
    /// Where the page is.
    Place(Place),
    /// The modes of A and B.
    Modes(NodeMode, NodeMode),
    /// The committed value.
    Value(Option<u32>),
}

impl Stop {
    /// What it reads in a machine's state.
    pub fn reading(self, machine: &Machine) -> Reading
        ensures { result ≡ spec.reading self machine.now.state }
    {
        match self {
            Stop::Page(p) => Reading::Place(machine.place(p)),
            Stop::Mode => Reading::Modes(machine.mode(Node::A), machine.mode(Node::B)),
            Stop::Abort => Reading::Nothing,
            Stop::Watch(k) => Reading::Value(machine.value(k)),
        }
    }

    /// Whether it fires where it read `before` and the step with this outcome has led to the machine.
    pub fn fires(self, before: Reading, machine: &Machine, outcome: Outcome) -> bool
        ensures { result ≡ fires_from self before machine.now.state outcome }
    {
        match self {
            Stop::Abort => is_abort(outcome),
            Stop::Page(_) => !same_reading(before, self.reading(machine)),
            Stop::Mode => !same_reading(before, self.reading(machine)),
            Stop::Watch(_) => !same_reading(before, self.reading(machine)),
        }
    }
}

/// What the stop of a slot reads, if one is there.
pub fn slot_reading(slot: Option<Stop>, machine: &Machine) -> Reading
    ensures { result ≡ spec.slot_reading slot machine.now.state }
{
    match slot {
        Some(stop) => stop.reading(machine),
        None => Reading::Nothing,
    }
}

/// Whether a page is where it was.
fn same_place(p: Place, q: Place) -> bool
    ensures value { result ≡ spec.same_place p q }
    ensures same { result ≡ true → p ≡ q }
{
    p == q
}

/// Whether a node's mode is what it was.
fn same_mode(m: NodeMode, n: NodeMode) -> bool
    ensures value { result ≡ spec.same_mode m n }
    ensures same { result ≡ true → m ≡ n }
{
    m == n
}

/// Whether two readings are the same.
pub fn same_reading(a: Reading, b: Reading) -> bool
    ensures value { result ≡ spec.same_reading a b }
    ensures same { result ≡ true → a ≡ b }
{
    match (a, b) {
        (Reading::Nothing, Reading::Nothing) => true,
        (Reading::Place(p), Reading::Place(q)) => same_place(p, q),
        (Reading::Modes(m, n), Reading::Modes(k, l)) => same_mode(m, k) && same_mode(n, l),
        (Reading::Value(v), Reading::Value(w)) => v == w,
        _ => false,
    }
}

/// Whether this is an abort.
pub fn is_abort(outcome: Outcome) -> bool
    ensures { result ≡ spec.is_abort outcome }
{
    matches!(outcome, Outcome::Aborted(_))
}
