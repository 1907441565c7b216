//! The migration order of a run.
ghost use Rattle.std.specs.Prelude.{◌≡◌, ◌<◌, ◌+◌, [], length, true, IfOk, OnOk};
ghost use Rattle.zy_isa.specs.Choices.{names_below};
ghost use Rattle.zy_isa.specs.Limits.{max_choices};
ghost use Rattle.zy_laws.specs.SourceFirst.{SerialIn, sorted_step};
ghost use Rattle.zy_laws.specs.SourceFirst as laws;
ghost use Rattle.zy_machine.specs.Histories.{choices_of};
ghost use Rattle.zy_table.specs.Play as table;

use crate::acting::{is_source, side_of};
use crate::sorted::Sorted;
use std::alloc::Global;
use zy_isa::Choice;
use zy_laws::laws::strictly_serializable;
use zy_machine::{Fault, Machine};
use zy_table::CommitRecord;

/// The commits of a machine's history in the migration order: of each migration first those at its source, then those
/// at its destination, each in the order in which they were made. The committed transactions, run one by one in this
/// order, leave the machine's database. The history is made again for it, so this takes as long as the run did. It
/// reports that it is out of memory.
pub fn migration_order(alloc: Global, machine: &Machine) -> Result<Vec<CommitRecord>, Fault>
    ensures order { IfOk result (λ order. order.items
        ≡ laws.migration_order machine.now.scenario (choices_of machine.now.entries)) }
    ensures serial { IfOk result (λ order. SerialIn order.items machine.now.scenario machine.now.state) }
{
    let mut replay = machine.reopen(alloc)?;
    let order = sort_along(alloc, machine, &mut replay);
    replay.discard();
    order
}

/// The commits of a machine's history in the migration order. A machine where nothing has happened makes the history again.
fn sort_along(
    alloc: Global,
    machine: &Machine,
    replay: &mut Machine,
) -> Result<Vec<CommitRecord>, Fault>
    requires { replay.old ≡ record {
      scenario = machine.now.scenario;
      state = table.opening machine.now.scenario;
      entries = [];
    } }
    ensures order { IfOk result (λ order. order.items
        ≡ laws.migration_order machine.now.scenario (choices_of machine.now.entries)) }
    ensures serial { IfOk result (λ order. SerialIn order.items machine.now.scenario machine.now.state) }
{
    // Proof: the state is serial in that order.
    strictly_serializable();
    let mut sorted = Sorted::new(alloc);
    for entry in machine.entries() {
        advance(replay, &mut sorted, entry.choice)?;
    }
    sorted.joined()
}

/// Makes a choice, and sorts the commit that may come of it.
fn advance(machine: &mut Machine, sorted: &mut Sorted, choice: Choice) -> Result<(), Fault>
    requires named { names_below (length machine.old.scenario.programs) choice ≡ true }
    requires room { length machine.old.entries < max_choices }
    ensures state { OnOk result (machine.new.state ≡ (table.step machine.old.scenario choice machine.old.state).after) }
    ensures count { OnOk result (length machine.new.entries ≡ length machine.old.entries + 1) }
    ensures scenario { machine.new.scenario ≡ machine.old.scenario }
    ensures sorted { OnOk result (sorted.new
        ≡ sorted_step machine.old.scenario choice machine.old.state sorted.old) }
{
    let node = side_of(machine, choice);
    let was_source = is_source(machine.mode(node));
    let seen = machine.commits().len();
    machine.step(choice)?;
    let now_source = is_source(machine.mode(node));
    let commits = machine.commits();
    let (_, new) = commits.split_at(seen.min(commits.len()));
    sorted.add(was_source, now_source, new)
}
