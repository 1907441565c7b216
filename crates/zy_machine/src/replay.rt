//! Replays of a scenario's own choices.
ghost use Rattle.std.specs.Prelude.{◌≡◌, ◌<◌, ◌≤◌, ◌+◌, [], IfOk, OnOk, length};
ghost use Rattle.zy_machine.specs.Replays.{Follows};
ghost use Rattle.zy_machine.specs.Replays.{outcome_at};

use crate::machine::{Fault, Machine};
use std::alloc::Global;
use zy_isa::Scenario;
use zy_table::Outcome;

/// Makes the next choice of the machine's scenario.
pub fn advance(machine: &mut Machine) -> Result<Outcome, Fault>
    requires follows { Follows machine.old }
    requires more { length machine.old.entries < length machine.old.scenario.choices }
    ensures scenario { machine.new.scenario ≡ machine.old.scenario }
    ensures follows { Follows machine.new }
    ensures position { OnOk result (length machine.new.entries ≡ length machine.old.entries + 1) }
    ensures outcome { IfOk result (λ o. o ≡ outcome_at machine.old.scenario (length machine.old.entries + 1)) }
{
    let choice = machine.scenario().choices()[machine.len()];
    let entry = machine.step(choice)?;
    Ok(entry.outcome)
}

/// Makes the machine's choices up to a position. Out of memory, the machine is left at some position on the way:
/// whoever lends it drops it.
pub fn advance_to(machine: &mut Machine, target: usize) -> Result<(), Fault>
    requires follows { Follows machine.old }
    requires below { length machine.old.entries ≤ target }
    requires target { target ≤ length machine.old.scenario.choices }
    ensures scenario { machine.new.scenario ≡ machine.old.scenario }
    ensures follows { Follows machine.new }
    ensures position { OnOk result (length machine.new.entries ≡ target) }
{
    for _ in machine.len()..target {
        advance(machine)?;
    }
    Ok(())
}

/// A machine that has made no choice of its scenario yet. The choices are made once here, so that what comes of them is
/// in memory once for this machine and all copies of it.
pub fn start(alloc: Global, scenario: Scenario) -> Result<Machine, Fault>
    ensures scenario { IfOk result (λ m. m.scenario ≡ scenario) }
    ensures follows { IfOk result (λ m. Follows m) }
    ensures position { IfOk result (λ m. m.entries ≡ []) }
{
    let ran = Machine::run_all(alloc, scenario)?;
    let whole = ran.share(alloc)?;
    let machine = restart(alloc, &whole);
    whole.discard();
    machine
}

/// A machine of the same scenario that has made no choice of it yet.
pub fn restart(alloc: Global, machine: &Machine) -> Result<Machine, Fault>
    ensures scenario { IfOk result (λ m. m.scenario ≡ machine.now.scenario) }
    ensures follows { IfOk result (λ m. Follows m) }
    ensures position { IfOk result (λ m. m.entries ≡ []) }
{
    let machine = machine.reopen(alloc)?;
    Ok(machine)
}
