//! What is called before each step of a worker.
use zy_isa::Actor;
use zy_table::Entry;

/// What a worker calls before each step. Whether it returns is its own affair: the others do not wait for it.
pub trait Gate {
    /// Called by a worker that holds no lock, before its `k`-th step (from 1), with the entry of its step before, none before the first.
    fn before(&self, actor: Actor, k: usize, last: Option<&Entry>);
}

/// Lets each step pass.
pub struct FreeGate;

impl Gate for FreeGate {
    fn before(&self, _actor: Actor, _k: usize, _last: Option<&Entry>) {}
}

/// What may refuse a step its memory, as an allocator may. A test can refuse one step of its choice.
pub trait Allowance {
    /// Whether the next step may ask for memory. Called once for each step, by the worker that holds the lock.
    fn grants(&self) -> bool;
}

/// Leaves refusals to the allocator.
pub struct Unlimited;

impl Allowance for Unlimited {
    fn grants(&self) -> bool {
        true
    }
}
