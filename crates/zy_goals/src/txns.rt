//! Properties of transactions, and the order of commits.
ghost use Rattle.std.specs.Prelude.{◌≡◌, ◌==◌};
ghost use Rattle.std.specs.List.{list_any, list_all};
ghost use Rattle.zy_table.specs.Run.{same_node as are_one};
ghost use Rattle.zy_table.specs.Serial as table_serial;
ghost use Rattle.zy_goals.specs.Txns as spec;

use crate::goal::{Selector, TxnProperty};
use zy_isa::Node;
use zy_machine::Machine;
use zy_patterns::ReasonPattern;
use zy_patterns::patterns::allows_reason;
use zy_table::{CommitRecord, Status};
use zy_txns::Txn;

/// Whether it is committed.
fn is_committed(status: Status) -> bool
    ensures { result ≡ table_serial.is_committed status }
{
    match status {
        Status::New => false,
        Status::Active => false,
        Status::Committed => true,
        Status::Aborted(_) => false,
    }
}

/// Whether it is aborted, for this reason if one is asked for.
fn is_aborted(reason: Option<ReasonPattern>, status: Status) -> bool
    ensures { result ≡ spec.is_aborted reason status }
{
    match status {
        Status::New => false,
        Status::Active => false,
        Status::Committed => false,
        Status::Aborted(why) => allows_reason(reason, why),
    }
}

/// Whether two nodes are one.
pub(crate) fn same_node(m: Node, n: Node) -> bool
    ensures { result ≡ are_one m n }
{
    m == n
}

/// Whether a transaction has a property.
fn has_property(property: TxnProperty, txn: &Txn) -> bool
    ensures { result ≡ spec.has_property property txn.now }
{
    match property {
        TxnProperty::New => txn.is_new(),
        TxnProperty::Active => txn.is_active(),
        TxnProperty::Committed => is_committed(txn.status()),
        TxnProperty::Aborted(reason) => is_aborted(reason, txn.status()),
        TxnProperty::At(n) => !txn.is_new() && same_node(txn.node(), n),
        TxnProperty::Wrote(key) => txn.get(key).is_some(),
    }
}

/// Whether at least one transaction has a property.
fn any_has(property: TxnProperty, machine: &Machine) -> bool
    ensures { result ≡ list_any (spec.has_property property) machine.now.state.txns }
{
    for t in 0..machine.txn_count() {
        if has_property(property, machine.txn(t as u8)) {
            return true;
        }
    }
    false
}

/// Whether each transaction has a property.
fn all_have(property: TxnProperty, machine: &Machine) -> bool
    ensures { result ≡ list_all (spec.has_property property) machine.now.state.txns }
{
    for t in 0..machine.txn_count() {
        if !has_property(property, machine.txn(t as u8)) {
            return false;
        }
    }
    true
}

/// Whether the selected transactions have a property.
pub fn selected_have(selector: Selector, property: TxnProperty, machine: &Machine) -> bool
    ensures { result ≡ spec.selected_have selector property machine.now.state.txns }
{
    match selector {
        Selector::Any => any_has(property, machine),
        Selector::All => all_have(property, machine),
        Selector::One(t) => {
            usize::from(t) < machine.txn_count() && has_property(property, machine.txn(t))
        }
    }
}

/// Whether a transaction has one of these commits.
fn has_commit(t: u8, commits: &[CommitRecord]) -> bool
    ensures { result ≡ list_any (λ c. c.txn == t) commits.now }
{
    commits.iter().any(|commit| commit.txn == t)
}

/// Whether both transactions have one of these commits, `earlier` the first one.
pub(crate) fn committed_before(earlier: u8, later: u8, commits: &[CommitRecord]) -> bool
    ensures { result ≡ spec.committed_before earlier later commits.now }
{
    match commits {
        [] => false,
        [first, rest @ ..] => {
            if first.txn == earlier {
                has_commit(later, rest)
            } else {
                committed_before(earlier, later, rest)
            }
        }
    }
}
