//! The order that explains the rows of a run, as standard error names it.

use std::alloc::Global;
use std::fmt::{self, Formatter, Write};
use zy_isa::{Choice, MAX_CHOICES};
use zy_machine::{Fault, Machine};
use zy_serial::explaining::explaining_order;
use zy_table::CommitRecord;

/// Says on standard error which order explains the rows of a run where that of the commits does not. Out of memory it says
/// nothing: the run is over, and its output is out.
pub fn explain<R: Eprint + AllocGlobal>(rt: &R, machine: &Machine) {
    if let Ok(Some(order)) = explaining_order(rt.alloc(), machine) {
        let explained = Explained(&order);
        let _ = eprintln!(rt; "zy_bench: {explained}");
    }
}

/// Makes choices, as far as the scenario has their transactions and there is room for them.
fn go_on(machine: &mut Machine, choices: &[Choice]) -> Result<(), Fault> {
    for choice in choices {
        let count = machine.scenario().programs().len();
        if choice.names_below(count) && machine.len() < MAX_CHOICES {
            machine.step(*choice)?;
        }
    }
    Ok(())
}

/// A copy of a machine that has made choices from there.
pub fn went_from(alloc: Global, machine: &Machine, choices: &[Choice]) -> Result<Machine, Fault> {
    let mut copy = machine.copy(alloc)?;
    match go_on(&mut copy, choices) {
        Ok(()) => Ok(copy),
        Err(fault) => {
            copy.discard();
            Err(fault)
        }
    }
}

/// Which order explains the rows.
#[derive(Clone, Copy)]
struct Explained<'a>(&'a [CommitRecord]);

impl fmt::Display for Explained<'_> {
    fn fmt<W: Write>(&self, f: &mut Formatter<W>) -> fmt::Result {
        let mut between = "the rows are those of ";
        for commit in self.0 {
            write!(f, "{between}{}", commit.txn)?;
            between = ", ";
        }
        f.write_str(" in this order: in each migration who committed at the source comes first")
    }
}
