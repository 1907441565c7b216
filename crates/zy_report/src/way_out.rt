//! What it takes to end the migration from a state that a search has found, as standard error counts it.

use crate::summary::Count;
use std::fmt::{self, Formatter, Write};
use zy_ending::ending::way_out;
use zy_isa::Choice;
use zy_machine::Machine;

/// Says on standard error how many choices `zy_bench end` adds to a run; nothing where it adds none. Out of memory, and where
/// a scenario has no room for them, it says nothing.
pub fn tell_way_out<R: Eprint + AllocGlobal>(rt: &R, machine: &Machine) {
    if let Ok(choices) = way_out(rt.alloc(), machine) {
        if !choices.is_empty() {
            let way = WayOut::of(&choices);
            let _ = eprintln!(rt; "zy_bench: {way}");
        }
    }
}

/// How many choices of each kind end a migration.
#[derive(Clone, Copy)]
struct WayOut {
    /// Kills of active transactions.
    kills: usize,
    /// What the nodes do after them.
    steps: usize,
}

impl WayOut {
    /// How many of each kind these choices are.
    fn of(choices: &[Choice]) -> WayOut {
        let mut kills = 0usize;
        let mut steps = 0usize;
        for choice in choices {
            match choice {
                Choice::Kill(_) => kills = kills.saturating_add(1),
                _ => steps = steps.saturating_add(1),
            }
        }
        WayOut { kills, steps }
    }
}

impl fmt::Display for WayOut {
    fn fmt<W: Write>(&self, f: &mut Formatter<W>) -> fmt::Result {
        let WayOut { kills, steps } = *self;
        f.write_str("no dead end: zy_bench end adds ")?;
        if kills != 0 {
            write!(f, "{}", Count::of(kills, "kill"))?;
        }
        if kills != 0 && steps != 0 {
            f.write_str(" and ")?;
        }
        if steps != 0 {
            write!(f, "{} of the nodes", Count::of(steps, "step"))?;
        }
        Ok(())
    }
}
