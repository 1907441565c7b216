//! Runs of which nothing came: of all choices, or of those of a transaction.

use crate::attempts::{AttemptsByTxn, Doubtful};
use std::fmt::{self, Formatter, Write};
use zy_isa::Node;
use zy_machine::Machine;
use zy_table::Outcome;

/// Why nothing came of the steps of a transaction.
#[derive(Clone, Copy, PartialEq, Eq)]
pub enum Cause {
    /// It was not begun.
    NotBegun,
    /// It is at this node, and was run at the other one.
    At(Node),
    /// It was begun after them.
    BegunLater,
}

impl Cause {
    /// The rank of the cause; the clearest has the lowest.
    fn rank(self) -> u8 {
        match self {
            Cause::NotBegun => 0,
            Cause::At(_) => 1,
            Cause::BegunLater => 2,
        }
    }

    /// Writes what it says of one transaction, or of several.
    fn tell<W: Write>(self, f: &mut Formatter<W>, is_one: bool) -> fmt::Result {
        let (was, is) = if is_one {
            ("was", "is")
        } else {
            ("were", "are")
        };
        match self {
            Cause::At(node) => {
                let (here, there) = match node {
                    Node::A => ("A", "B"),
                    Node::B => ("B", "A"),
                };
                write!(f, "{is} at {here}, and {was} run at {there}")
            }
            Cause::NotBegun => write!(f, "{was} not begun"),
            Cause::BegunLater => write!(f, "{was} begun after them"),
        }
    }
}

/// Transactions that did nothing, all for the same cause.
#[derive(Clone, Copy)]
struct Stalled {
    cause: Cause,
    /// Whether each transaction is one of them, by its number.
    txns: [bool; 64],
    /// How many they are.
    count: usize,
    /// How many choices did nothing for it.
    still: usize,
}

impl Stalled {
    /// Those that have the clearest cause, if one has any.
    fn of(machine: &Machine) -> Option<Stalled> {
        let doubtful = Doubtful::of(machine);
        if doubtful.is_empty() {
            return None;
        }
        let attempts = AttemptsByTxn::of(machine, doubtful);
        let cause = clearest(machine, &attempts)?;
        let mut stalled = Stalled {
            cause,
            txns: [false; 64],
            count: 0,
            still: 0,
        };
        for t in 0..machine.txn_count() {
            let txn = machine.txn(t as u8);
            let of_txn = attempts.of_txn(t);
            if of_txn.cause(txn.status(), txn.node()) == Some(cause) {
                stalled.take(t, of_txn.still_for(cause));
            }
        }
        Some(stalled)
    }

    /// Takes a transaction, of which this number of choices did nothing.
    fn take(&mut self, txn: usize, still: usize) {
        if let Some(is_one) = self.txns.get_mut(txn) {
            *is_one = true;
        }
        self.count = self.count.saturating_add(1);
        self.still = self.still.saturating_add(still);
    }

    /// Writes their numbers.
    fn tell_txns<W: Write>(&self, f: &mut Formatter<W>) -> fmt::Result {
        let mut left = self.count;
        let mut between = if left == 1 {
            "transaction "
        } else {
            "transactions "
        };
        for (number, is_one) in self.txns.iter().enumerate() {
            if *is_one {
                write!(f, "{between}{number}")?;
                left = left.saturating_sub(1);
                between = if left == 1 { " and " } else { ", " };
            }
        }
        Ok(())
    }
}

impl fmt::Display for Stalled {
    fn fmt<W: Write>(&self, f: &mut Formatter<W>) -> fmt::Result {
        self.tell_txns(f)?;
        f.write_str(" ")?;
        self.cause.tell(f, self.count == 1)
    }
}

/// The clearest reason why nothing came of the steps of a transaction.
fn clearest(machine: &Machine, attempts: &AttemptsByTxn) -> Option<Cause> {
    let mut clearest: Option<Cause> = None;
    for t in 0..machine.txn_count() {
        let txn = machine.txn(t as u8);
        if let Some(cause) = attempts.of_txn(t).cause(txn.status(), txn.node()) {
            if clearest.is_none_or(|other| cause.rank() < other.rank()) {
                clearest = Some(cause);
            }
        }
    }
    clearest
}

/// Which outcomes a run had, of those with which it can begin and come to nothing, but for those of transactions.
#[derive(Clone, Copy)]
struct Idling {
    bad_mode: bool,
    no_message: bool,
}

impl Idling {
    /// Those of a run that had no others.
    fn of(machine: &Machine) -> Option<Idling> {
        let mut idling = Idling {
            bad_mode: false,
            no_message: false,
        };
        for entry in machine.entries() {
            match entry.outcome {
                Outcome::BadMode => idling.bad_mode = true,
                Outcome::NoMessage => idling.no_message = true,
                _ => return None,
            }
        }
        (idling.bad_mode || idling.no_message).then_some(idling)
    }
}

impl fmt::Display for Idling {
    fn fmt<W: Write>(&self, f: &mut Formatter<W>) -> fmt::Result {
        f.write_str(match (self.bad_mode, self.no_message) {
            (true, true) => "the outcomes are badmode and nomessage",
            (true, false) => "each outcome is badmode",
            _ => "each outcome is nomessage",
        })
    }
}

/// Why choices did nothing.
#[derive(Clone, Copy)]
enum Reason {
    Stalled(Stalled),
    Idling(Idling),
}

/// How many choices did nothing, and why.
#[derive(Clone, Copy)]
pub struct NoEffect {
    /// How many choices there were.
    count: usize,
    reason: Reason,
}

impl NoEffect {
    /// The message about a run in which the steps of some transaction, or all choices, did nothing.
    pub fn of(machine: &Machine) -> Option<NoEffect> {
        let reason = match Stalled::of(machine) {
            Some(stalled) => Reason::Stalled(stalled),
            None => Reason::Idling(Idling::of(machine)?),
        };
        let count = machine.entries().len();
        Some(NoEffect { count, reason })
    }
}

impl fmt::Display for NoEffect {
    fn fmt<W: Write>(&self, f: &mut Formatter<W>) -> fmt::Result {
        let count = self.count;
        match &self.reason {
            Reason::Stalled(stalled) => {
                let still = stalled.still;
                write!(f, "{still} of {count} choices did nothing: {stalled}")
            }
            Reason::Idling(idling) => write!(f, "{count} of {count} choices did nothing: {idling}"),
        }
    }
}
