//! The whole text.
ghost use Rattle.std.specs.Prelude.{◌<◌};
ghost use Rattle.zy_text.specs.Canon.{canon};
ghost use Rattle.zy_io.specs.Writing.{Wrote};

use crate::head::ScenarioHead;
use std::alloc::Global;
use zy_io::{AllPieces, LineBuffer, One, Section, Sink, TextFault, sections};
use zy_isa::Scenario;
use zy_text::Each;

/// Writes the canonical text of a scenario, a line at a time.
pub fn write_text<K: Sink>(
    alloc: Global,
    scenario: &Scenario,
    sink: &mut K,
) -> Result<(), TextFault>
    requires { (K.sent sink.old).failures < u64.MAX }
    ensures { Wrote (K.sent sink.old) (K.sent sink.new) result (canon scenario.now) }
{
    let mut line = LineBuffer::new(alloc);
    sections!(
        ScenarioHead(scenario),
        AllPieces(Each(scenario.choices())),
        One("end"),
    )
    .write(sink, &mut line)
}
