//! The furthest order of logs, which is kept in a file.
ghost use Rattle.std.specs.Prelude.{◌≡◌, None};
ghost use Rattle.zy_engine.specs.Searching.{history_of};

use crate::output::{output_to, pass};
use std::fs;
use std::rt::Files;
use zy_engine::{BenchFault, Wording};
use zy_isa::Choice;
use zy_machine::Machine;
use zy_order::OrderAnswer;
use zy_order_engine::OrderedLogs;
use zy_order_engine::behind::write_behind;
use zy_report::origin::Origin;

/// A file, and how a scenario is written to it.
#[derive(Clone, Copy)]
pub struct Keeper<'a> {
    pub path: &'a str,
    pub wording: Wording,
}

/// The choices of the furthest order that a search reached, if it found no order that it was asked for.
fn furthest_of(answer: &OrderAnswer) -> Option<&[Choice]> {
    match answer {
        OrderAnswer::Found(_) => None,
        OrderAnswer::OtherEnd(order) => Some(order.as_slice()),
        OrderAnswer::Nowhere(order) => Some(order.as_slice()),
        OrderAnswer::Spent(order) => Some(order.as_slice()),
    }
}

impl Keeper<'_> {
    /// Writes the scenario of logs, whose own text is at hand, with the choices of the furthest order behind its own, where there
    /// is no order of all lines. Why that is not written it says on standard error, and returns the exit status.
    pub fn keep<R: Eprint + Files + AllocGlobal>(
        self,
        rt: &R,
        text: &[u8],
        ordered: &OrderedLogs,
    ) -> Result<(), u8>
        requires { ordered.now.machine ≡ history_of None ordered.now.machine.scenario }
    {
        let Some(order) = furthest_of(&ordered.report.answer) else {
            return Ok(());
        };
        match self.write(rt, text, &ordered.machine, order) {
            Ok(()) => Ok(()),
            Err(fault) => {
                let origin = Origin::of(Some(self.path));
                let _ = eprintln!(rt; "{origin}: {fault}");
                Err(fault.status())
            }
        }
    }

    /// Writes the scenario of a machine, which has made all its choices, with these choices behind its own.
    fn write<R: Files + AllocGlobal>(
        self,
        rt: &R,
        text: &[u8],
        machine: &Machine,
        order: &[Choice],
    ) -> Result<(), BenchFault>
        requires { machine.now ≡ history_of None machine.now.scenario }
    {
        let Ok(file) = fs::create(rt, self.path) else {
            return Err(BenchFault::Write);
        };
        let mut output = output_to(rt.alloc(), file)?;
        write_behind(rt.alloc(), self.wording, text, machine, order, &mut output)?;
        pass(&mut output)
    }
}
