//! The choices that end the migration of a machine.
ghost use Rattle.std.specs.Prelude.{◌≡◌, ◌+◌, ◌<◌, ◌≤◌, true, Err, IfOk, OnOk, length};
ghost use Rattle.zy_isa.specs.Choices.{names_below};
ghost use Rattle.zy_isa.specs.Limits.{max_choices};
ghost use Rattle.zy_isa.specs.Scenario.{AreNamed};
ghost use Rattle.zy_laws.specs.WayOut.{Ended};
ghost use Rattle.zy_laws.specs.WayOut as laws;
ghost use Rattle.zy_table.specs.Play.{play};
ghost use Rattle.zy_table.specs.Play as table;
ghost use Rattle.zy_ending.specs.Ways.{IsOnWay};
ghost use Rattle.zy_ending.specs.declared.faults.EndingFault.TheVariants.{NoRoom};

use crate::faults::EndingFault;
use crate::next::next;
use std::alloc::{AllocError, Global};
use zy_isa::{Choice, MAX_CHOICES};
use zy_machine::Machine;

/// The choices that end the migration of a machine: kills of its active transactions, and behind them the steps by which
/// the nodes end it. There are none where no transaction is active and no migration goes on. The machine stays as it is: a
/// copy of it makes them.
pub fn way_out(alloc: Global, machine: &Machine) -> Result<Vec<Choice>, EndingFault>
    // They are those of the law, and after them the migration has ended.
    ensures choices { IfOk result (λ v. v.items ≡ laws.way_out machine.now.scenario machine.now.state) }
    ensures ended { IfOk result (λ v. Ended machine.now.state (play machine.now.scenario machine.now.state v.items)) }
    // The history has room for them.
    ensures room { IfOk result (λ v. length machine.now.entries + length v.items ≤ max_choices) }
    // It is full only where it has no room for all of them.
    ensures full { result ≡ Err NoRoom
        → max_choices < length machine.now.entries + length (laws.way_out machine.now.scenario machine.now.state) }
{
    // Proof: the machine's choices lead to its state, so the law `no_dead_end` speaks of it.
    machine.entries();
    let mut replay = machine.copy(alloc)?;
    let made = end(alloc, machine, &mut replay);
    replay.discard();
    made
}

/// Ends the migration of a machine's copy, and gives the choices that it made.
fn end(alloc: Global, machine: &Machine, replay: &mut Machine) -> Result<Vec<Choice>, EndingFault>
    requires { replay.old ≡ machine.now }
    ensures choices { IfOk result (λ v. v.items ≡ laws.way_out machine.now.scenario machine.now.state) }
    ensures room { IfOk result (λ v. length machine.now.entries + length v.items ≤ max_choices) }
    ensures full { result ≡ Err NoRoom
        → max_choices < length machine.now.entries + length (laws.way_out machine.now.scenario machine.now.state) }
{
    let mut made = kills(alloc, machine)?;
    make_all(replay, &made)?;
    go_on(machine, replay, &mut made)?;
    Ok(made)
}

/// A kill of each active transaction, in order.
fn kills(alloc: Global, machine: &Machine) -> Result<Vec<Choice>, AllocError>
    ensures kills { IfOk result (λ v. v.items ≡ laws.kills 0 machine.now.state.txns) }
    ensures named { IfOk result (λ v. AreNamed (length machine.now.scenario.programs) v.items) }
{
    let mut kills = Vec::new(alloc);
    for t in 0..machine.txn_count() {
        if machine.txn(t as u8).is_active() {
            kills.push(Choice::Kill(t as u8))?;
        }
    }
    Ok(kills)
}

/// Makes a choice, if the history has room for it.
fn make(machine: &mut Machine, choice: Choice) -> Result<(), EndingFault>
    requires { names_below (length machine.old.scenario.programs) choice ≡ true }
    ensures state { OnOk result (machine.new.state ≡ (table.step machine.old.scenario choice machine.old.state).after) }
    ensures count { OnOk result (length machine.new.entries ≡ length machine.old.entries + 1) }
    ensures room { OnOk result (length machine.old.entries < max_choices) }
    ensures scenario { machine.new.scenario ≡ machine.old.scenario }
    ensures full { result ≡ Err NoRoom → length machine.old.entries ≡ max_choices }
{
    if MAX_CHOICES <= machine.len() {
        return Err(EndingFault::NoRoom);
    }
    machine.step(choice)?;
    Ok(())
}

/// Makes choices in order.
fn make_all(machine: &mut Machine, choices: &[Choice]) -> Result<(), EndingFault>
    requires { AreNamed (length machine.old.scenario.programs) choices.now }
    ensures state { OnOk result (machine.new.state ≡ play machine.old.scenario machine.old.state choices.now) }
    ensures count { OnOk result (length machine.new.entries ≡ length machine.old.entries + length choices.now) }
    ensures scenario { machine.new.scenario ≡ machine.old.scenario }
    ensures full { result ≡ Err NoRoom → max_choices < length machine.old.entries + length choices.now }
{
    for choice in choices {
        make(machine, *choice)?;
    }
    Ok(())
}

/// Makes what comes next on a machine's copy, as long as something does, behind the choices that it has made.
fn go_on(machine: &Machine, replay: &mut Machine, made: &mut Vec<Choice>) -> Result<(), EndingFault>
    requires { IsOnWay machine.now replay.old made.old.items }
    ensures choices { OnOk result (made.new.items ≡ laws.way_out machine.now.scenario machine.now.state) }
    ensures room { OnOk result (length machine.now.entries + length made.new.items ≤ max_choices) }
    ensures full { result ≡ Err NoRoom
        → max_choices < length machine.now.entries + length (laws.way_out machine.now.scenario machine.now.state) }
{
    // Proof: by the law `no_dead_end` nothing comes next where the way out is at its end.
    machine.entries();
    'onward: while let Some(choice) = next(replay) {
        made.reserve(1)?;
        make(replay, choice)?;
        made.push_reserved(choice);
    }
    replay.entries();
    Ok(())
}
