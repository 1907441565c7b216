//! Scans for the position at which a stop fires.
ghost use Rattle.std.specs.Prelude.{◌≡◌, ◌<◌, ◌≤◌, ◌+◌, IfOk, IfSome, length, map, position};
ghost use Rattle.zy_machine.specs.Replays.{Follows};
ghost use Rattle.zy_debug.specs.Scans.{Conts, LastIn, watch_of};
ghost use Rattle.zy_debug.specs.Stops as spec;

use crate::stop::{Reading, Stop, slot_reading};
use std::alloc::Global;
use zy_machine::replay::advance;
use zy_machine::{Fault, Machine};
use zy_table::Outcome;

/// A slot, with what its stop read last.
#[derive(Clone, Copy)]
pub struct Watched {
    pub slot: Option<Stop>,
    pub before: Reading,
}

impl Watched {
    /// Whether its stop fires at the step with this outcome that has led to the machine.
    fn fires(&self, machine: &Machine, outcome: Outcome) -> bool
        ensures { result ≡ spec.slot_fires self.now.before machine.now.state outcome self.now.slot }
    {
        match self.slot {
            Some(stop) => stop.fires(self.before, machine, outcome),
            None => false,
        }
    }
}

/// Each slot with what it reads now.
fn watch(alloc: Global, slots: &[Option<Stop>], machine: &Machine) -> Result<Vec<Watched>, Fault>
    ensures { IfOk result (λ all. all.items ≡ map (watch_of machine.now.state) slots.now) }
{
    let mut all = Vec::with_capacity(alloc, slots.len())?;
    for slot in slots {
        let before = slot_reading(*slot, machine);
        all.push(Watched {
            slot: *slot,
            before,
        })?;
    }
    Ok(all)
}

/// Each slot reads again.
fn renew(watched: &mut Vec<Watched>, machine: &Machine)
    ensures { watched.new.items ≡ map (λ w. watch_of machine.now.state w.slot) watched.old.items }
{
    for w in watched.iter_mut() {
        w.before = slot_reading(w.slot, machine);
    }
}

/// The lowest slot whose stop fires.
fn first(watched: &[Watched], machine: &Machine, outcome: Outcome) -> Option<usize>
    ensures { result ≡ position (λ w. spec.slot_fires w.before machine.now.state outcome w.slot) watched.now }
{
    watched.iter().position(|w| w.fires(machine, outcome))
}

/// Goes on to the least position at which a stop fires, or to the end. Each position is looked at once. Out of memory,
/// the machine is left at some position on the way: whoever lends it drops it.
pub fn cont(
    alloc: Global,
    machine: &mut Machine,
    slots: &[Option<Stop>],
) -> Result<Option<usize>, Fault>
    requires { Follows machine.old }
    ensures scenario { machine.new.scenario ≡ machine.old.scenario }
    ensures follows { Follows machine.new }
    ensures stops { IfOk result (λ i. Conts machine.old.scenario slots.now (length machine.old.entries) i
        (length machine.new.entries)) }
    ensures slot { IfOk result (λ i. IfSome i (λ n. n < length slots.now)) }
{
    let mut watched = watch(alloc, slots, machine)?;
    for _ in machine.len()..machine.scenario().choices().len() {
        let outcome = advance(machine)?;
        match first(&watched, machine, outcome) {
            Some(i) => return Ok(Some(i)),
            None => renew(&mut watched, machine),
        }
    }
    Ok(None)
}

/// The greatest position above the machine's and below `end` at which a stop fires, and the lowest slot
/// that fires there. Each position is looked at once, upwards. The machine is left at the last position that was looked
/// at, which out of memory is some position on the way: whoever lends it drops it.
pub fn last_firing(
    alloc: Global,
    machine: &mut Machine,
    slots: &[Option<Stop>],
    end: usize,
) -> Result<Option<(usize, usize)>, Fault>
    requires follows { Follows machine.old }
    requires below { length machine.old.entries < end }
    requires end { end ≤ length machine.old.scenario.choices }
    ensures scenario { machine.new.scenario ≡ machine.old.scenario }
    ensures follows { Follows machine.new }
    ensures found { IfOk result (λ found.
        LastIn machine.old.scenario slots.now (length machine.old.entries) end found) }
    ensures slot { IfOk result (λ found. IfSome found (λ f. f.1 < length slots.now)) }
{
    let mut watched = watch(alloc, slots, machine)?;
    let mut last = None;
    for m in machine.len() + 1..end {
        let outcome = advance(machine)?;
        last = match first(&watched, machine, outcome) {
            Some(i) => Some((m, i)),
            None => last,
        };
        renew(&mut watched, machine);
    }
    Ok(last)
}
