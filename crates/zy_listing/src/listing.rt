//! The whole listing.
ghost use Rattle.std.specs.Prelude.{◌<◌};
ghost use Rattle.zy_io.specs.Writing.{Wrote};
ghost use Rattle.zy_machine.specs.Histories.{choices_of};
ghost use Rattle.zy_listing.specs.Listing.{listing};
ghost use Rattle.zy_listing.specs.Run.{listing_of};

use crate::lines::final_state::FinalState;
use crate::lines::serial::SerialLine;
use crate::lines::step::Steps;
use crate::lines::taken::Taken;
use std::alloc::Global;
use zy_disasm::ScenarioHead;
use zy_io::{AllPieces, LineBuffer, One, Section, Sink, TextFault, sections};
use zy_machine::Machine;
use zy_serial::serial::same;

/// Writes the listing of a machine, a line at a time; `same` is what the test against the serial run says.
pub(crate) fn write_listing_as<K: Sink>(
    alloc: Global,
    machine: &Machine,
    same: bool,
    sink: &mut K,
) -> Result<(), TextFault>
    requires { (K.sent sink.old).failures < u64.MAX }
    ensures { Wrote (K.sent sink.old) (K.sent sink.new) result
        (listing machine.now.scenario (choices_of machine.now.entries) same) }
{
    let mut line = LineBuffer::new(alloc);
    let entries = machine.entries();
    sections!(
        ScenarioHead(machine.scenario()),
        AllPieces(Taken(entries)),
        One("end"),
        One("steps"),
        AllPieces(Steps(entries)),
        FinalState(machine),
        One(SerialLine(same)),
        One("end"),
    )
    .write(sink, &mut line)
}

/// Writes the listing of a machine, with what the test against the serial run says.
pub fn write_listing<K: Sink>(
    alloc: Global,
    machine: &Machine,
    sink: &mut K,
) -> Result<(), TextFault>
    requires { (K.sent sink.old).failures < u64.MAX }
    ensures { Wrote (K.sent sink.old) (K.sent sink.new) result
        (listing_of machine.now) }
{
    let agrees = same(alloc, machine)?;
    write_listing_as(alloc, machine, agrees, sink)
}
