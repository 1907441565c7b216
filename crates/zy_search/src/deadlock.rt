//! Whether transactions wait in a cycle.
ghost use Rattle.std.specs.Prelude.{◌≡◌, ◌<◌, IfOk, OnOk, length};
ghost use Rattle.std.specs.List.{list_any};
ghost use Rattle.zy_isa.specs.Limits.{max_choices};
ghost use Rattle.zy_model.specs.Locks as locks_locks;
ghost use Rattle.zy_search.specs.Deadlocks as spec;

use std::alloc::{AllocError, Global};
use zy_isa::{Choice, Node};
use zy_laws::laws::safe_counts;
use zy_machine::{Fault, Machine};
use zy_model::Lock;
use zy_table::Outcome;

/// A transaction that waits at its node for a page.
#[derive(Clone, Copy)]
pub struct Wait {
    /// The number of the transaction.
    pub txn: u8,
    /// The node where it runs, which owns the page.
    pub node: Node,
    /// The number of the page. It is the one that the outcome `waits` names: of those that a `sum` reads the first on
    /// which another transaction has an exclusive lock.
    pub page: u16,
}

/// The wait of a transaction whose run at a node had this outcome, if it waits.
fn wait_in(txn: u8, node: Node, outcome: Outcome) -> Option<Wait>
    ensures { result ≡ spec.wait_in txn node outcome }
{
    match outcome {
        Outcome::Waits(page) => Some(Wait { txn, node, page }),
        _ => None,
    }
}

/// The wait of a transaction, if it waits. A run of it is tried on another machine.
fn wait_of(
    alloc: Global,
    machine: &Machine,
    spare: &mut Machine,
    txn: u8,
) -> Result<Option<Wait>, Fault>
    requires there { txn < length machine.now.state.txns }
    requires room { length machine.now.entries < max_choices }
    requires spare { spare.old.scenario ≡ machine.now.scenario }
    ensures wait { IfOk result (λ w. w ≡ spec.wait_of machine.now.scenario machine.now.state txn) }
    ensures spare { OnOk result (spare.new.scenario ≡ machine.now.scenario) }
{
    // Proof: there are as many transactions as programs.
    safe_counts();
    let node = machine.txn(txn).node();
    spare.set_to(alloc, machine)?;
    let entry = spare.step(Choice::Run(node, txn))?;
    Ok(wait_in(txn, node, entry.outcome))
}

/// The waits of all transactions, in the order of their numbers.
fn waits(alloc: Global, machine: &Machine, spare: &mut Machine) -> Result<Vec<Wait>, Fault>
    requires room { length machine.now.entries < max_choices }
    requires spare { spare.old.scenario ≡ machine.now.scenario }
    ensures waits { IfOk result (λ v. v.items ≡ spec.waits_below machine.now.scenario machine.now.state
        (length machine.now.state.txns)) }
    ensures spare { OnOk result (spare.new.scenario ≡ machine.now.scenario) }
{
    let mut waits = Vec::new(alloc);
    for t in 0..machine.txn_count() {
        if let Some(wait) = wait_of(alloc, machine, spare, t as u8)? {
            waits.push(wait)?;
        }
    }
    Ok(waits)
}

/// Whether one of these locks is a transaction's on a page.
fn holds(locks: &[Lock], page: u16, txn: u8) -> bool
    ensures { result ≡ locks_locks.holds locks.now page txn }
{
    locks
        .iter()
        .any(|lock| lock.page == page && lock.txn == txn)
}

/// Whether a transaction waits for another one that waits.
fn is_for(machine: &Machine, wait: Wait, other: Wait) -> bool
    ensures { result ≡ spec.is_for machine.now.state wait other }
{
    other.txn != wait.txn && holds(machine.locks(wait.node), wait.page, other.txn)
}

/// Whether a transaction waits for one of some that wait.
fn is_kept(machine: &Machine, waits: &[Wait], wait: Wait) -> bool
    ensures { result ≡ list_any (spec.is_for machine.now.state wait) waits.now }
{
    waits.iter().any(|other| is_for(machine, wait, *other))
}

/// Those of some waits that are for one of them.
fn kept(alloc: Global, machine: &Machine, waits: &[Wait]) -> Result<Vec<Wait>, AllocError>
    ensures { IfOk result (λ v. v.items ≡ spec.kept machine.now.state waits.now) }
{
    waits
        .iter()
        .copied()
        .filter(|wait| is_kept(machine, waits, *wait))
        .collect(alloc)
}

/// Those of some waits that wait for one another in a cycle, or for one that does: what is left when those that are for
/// none of them are taken away, as many times as there are waits.
fn in_cycle(alloc: Global, machine: &Machine, waits: Vec<Wait>) -> Result<Vec<Wait>, AllocError>
    ensures { IfOk result (λ v. v.items ≡ spec.in_cycle machine.now.state waits.items) }
{
    let mut left = waits;
    for _ in 0..left.len() {
        left = kept(alloc, machine, &left)?;
    }
    Ok(left)
}

/// Whether some transactions wait in a cycle, each for a page that another one of them has locked. A run of each is tried
/// on another machine.
pub(crate) fn is_deadlocked(
    alloc: Global,
    machine: &Machine,
    spare: &mut Machine,
) -> Result<bool, Fault>
    requires room { length machine.now.entries < max_choices }
    requires spare { spare.old.scenario ≡ machine.now.scenario }
    ensures deadlocked { IfOk result (λ b. b ≡ spec.is_deadlocked machine.now.scenario machine.now.state) }
    ensures spare { OnOk result (spare.new.scenario ≡ machine.now.scenario) }
{
    let waits = waits(alloc, machine, spare)?;
    let left = in_cycle(alloc, machine, waits)?;
    Ok(!left.is_empty())
}
