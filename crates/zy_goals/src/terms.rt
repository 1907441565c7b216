//! The numbers that a goal compares.
ghost use Rattle.std.specs.Prelude.{◌≡◌, ◌≤◌, unwrap_or, slice_get};
ghost use Rattle.zy_isa.specs.Limits.{max_value};
ghost use Rattle.zy_table.specs.Change.{txn_or};
ghost use Rattle.zy_table.specs.Ranges.{range, total};
ghost use Rattle.zy_goals.specs.Terms as spec;

use crate::goal::{Comparison, Term};
use zy_machine::Machine;

/// The committed value at a key, 0 where there is none.
fn committed_at(machine: &Machine, key: u16) -> u64
    ensures value { result ≡ spec.committed_at machine.now.state key }
    ensures small { result ≤ max_value }
{
    match machine.value(key) {
        Some(value) => u64::from(value),
        None => 0,
    }
}

/// The sum of the committed values from one key to another, both included. It is below 2^48 and does not wrap.
fn sum(machine: &Machine, first: u16, last: u16) -> u64
    ensures { result ≡ total (spec.committed_at machine.now.state) (range first last) }
{
    let mut sum = 0u64;
    let count = (u32::from(last) + 1).saturating_sub(u32::from(first));
    for i in 0..count {
        let key = u32::from(last) - i;
        sum += committed_at(machine, key as u16);
    }
    sum
}

/// The value of a register of a transaction; 0 where there is none.
fn register(machine: &Machine, t: u8, r: u8) -> u64
    ensures { result ≡ unwrap_or (slice_get (txn_or (slice_get machine.now.state.txns t)).regs r) 0 }
{
    if usize::from(t) < machine.txn_count() {
        match machine.txn(t).regs().get(usize::from(r)) {
            Some(value) => u64::from(*value),
            None => 0,
        }
    } else {
        0
    }
}

/// The program counter of a transaction; 0 where there is none.
fn pc(machine: &Machine, t: u8) -> u64
    ensures { result ≡ (txn_or (slice_get machine.now.state.txns t)).pc }
{
    if usize::from(t) < machine.txn_count() {
        u64::from(machine.txn(t).pc())
    } else {
        0
    }
}

/// How many instructions a transaction has done; 0 where there is none.
fn done(machine: &Machine, t: u8) -> u64
    ensures { result ≡ (txn_or (slice_get machine.now.state.txns t)).done }
{
    if usize::from(t) < machine.txn_count() {
        u64::from(machine.txn(t).done())
    } else {
        0
    }
}

/// The value of a term in a machine's state.
pub(crate) fn value(term: Term, machine: &Machine) -> u64
    ensures { result ≡ spec.value term machine.now.state }
{
    match term {
        Term::Number(number) => number,
        Term::Key(key) => committed_at(machine, key),
        Term::Sum { first, last } => sum(machine, first, last),
        Term::Register { txn, register: r } => register(machine, txn, r),
        Term::Pc(t) => pc(machine, t),
        Term::Done(t) => done(machine, t),
        Term::Commits => machine.commits().len() as u64,
    }
}

/// Whether one number compares so with another.
pub(crate) fn compares(comparison: Comparison, m: u64, n: u64) -> bool
    ensures { result ≡ spec.compares comparison m n }
{
    match comparison {
        Comparison::Equal => m == n,
        Comparison::NotEqual => m != n,
        Comparison::Less => m < n,
        Comparison::AtMost => m <= n,
        Comparison::Greater => m > n,
        Comparison::AtLeast => m >= n,
    }
}
