//! What came of the steps and kills of transactions.

use crate::no_effect::Cause;
use zy_isa::{Choice, MAX_TXNS, Node};
use zy_machine::Machine;
use zy_table::{Outcome, Status};

const _: () = prove!(MAX_TXNS == 64);

/// What was tried with a transaction.
#[derive(Clone, Copy)]
enum Tried {
    Steps,
    Kills,
}

/// What came of the steps and kills of a transaction.
#[derive(Clone, Copy)]
pub struct Attempts {
    /// How many were idle.
    idle: usize,
    /// How many were at the node where it is not.
    elsewhere: usize,
    /// How many were neither.
    others: usize,
}

impl Attempts {
    /// No step yet.
    const NONE: Attempts = Attempts {
        idle: 0,
        elsewhere: 0,
        others: 0,
    };

    /// Notes what came of a step or a kill.
    fn note(&mut self, outcome: Outcome) {
        let count = match outcome {
            Outcome::Idle => &mut self.idle,
            Outcome::Elsewhere => &mut self.elsewhere,
            _ => &mut self.others,
        };
        // A run has too few steps for it to wrap.
        *count = count.wrapping_add(1);
    }

    /// Why none of its steps did anything, if none did. The transaction ends with `status` at `node`.
    pub fn cause(self, status: Status, node: Node) -> Option<Cause> {
        match status {
            _ if self.others > 0 => None,
            Status::New if self.idle > 0 => Some(Cause::NotBegun),
            Status::Active if self.elsewhere > 0 => Some(Cause::At(node)),
            Status::Active if self.idle > 0 => Some(Cause::BegunLater),
            _ => None,
        }
    }

    /// How many did nothing for this cause, which it has.
    pub fn still_for(self, cause: Cause) -> usize {
        match cause {
            Cause::At(_) => self.elsewhere,
            Cause::NotBegun | Cause::BegunLater => self.idle,
        }
    }
}

/// A bit for each transaction that has run no instruction and has not ended. A step of every other one did something.
#[derive(Clone, Copy)]
pub struct Doubtful {
    bits: u64,
    /// Whether one of them was not begun.
    has_new: bool,
}

impl Doubtful {
    /// Those of a run.
    pub fn of(machine: &Machine) -> Doubtful {
        let mut doubtful = Doubtful {
            bits: 0,
            has_new: false,
        };
        for t in 0..machine.txn_count() {
            let txn = machine.txn(t as u8);
            if matches!(txn.status(), Status::New | Status::Active) && txn.done() == 0 {
                doubtful.bits |= 1u64.wrapping_shl(t as u32);
                doubtful.has_new |= txn.status() == Status::New;
            }
        }
        doubtful
    }

    /// Whether there is none.
    pub fn is_empty(self) -> bool {
        self.bits == 0
    }

    /// Whether a transaction is one of them.
    fn has(self, txn: u8) -> bool {
        self.bits.wrapping_shr(u32::from(txn)) & 1 == 1
    }
}

/// The outcomes of the steps and kills of each transaction in doubt, indexed by its number.
#[derive(Clone, Copy)]
pub struct AttemptsByTxn([Attempts; 64]);

impl AttemptsByTxn {
    /// Those of a run. Only where they decide what is said the kills are among them: nothing comes of a kill before the
    /// beginning, and what is said of a transaction that was run at the other node does not count those.
    pub fn of(machine: &Machine, doubtful: Doubtful) -> AttemptsByTxn {
        let mut attempts = AttemptsByTxn([Attempts::NONE; 64]);
        attempts.note_all(machine, doubtful, Tried::Steps);
        if doubtful.has_new || !attempts.has_elsewhere() {
            attempts.note_all(machine, doubtful, Tried::Kills);
        }
        attempts
    }

    /// What came of the steps and kills of a transaction.
    pub fn of_txn(&self, txn: usize) -> Attempts {
        self.0.get(txn).copied().unwrap_or(Attempts::NONE)
    }

    /// Notes what came of each step, or of each kill.
    fn note_all(&mut self, machine: &Machine, doubtful: Doubtful, tried: Tried) {
        for entry in machine.entries() {
            let txn = match (entry.choice, tried) {
                (Choice::Run(_, txn), Tried::Steps) => txn,
                (Choice::Kill(txn), Tried::Kills) => txn,
                _ => continue,
            };
            if doubtful.has(txn) {
                self.note(txn, entry.outcome);
            }
        }
    }

    /// Notes what came of a step or a kill of a transaction.
    fn note(&mut self, txn: u8, outcome: Outcome) {
        if let Some(of_txn) = self.0.get_mut(usize::from(txn)) {
            of_txn.note(outcome);
        }
    }

    /// Whether a transaction was run at the node where it is not, and none of its steps did anything.
    fn has_elsewhere(&self) -> bool {
        self.0
            .iter()
            .any(|of_txn| of_txn.elsewhere > 0 && of_txn.others == 0)
    }
}
