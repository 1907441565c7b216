//! From the bytes of a scenario text to those of its listing.
ghost use Rattle.std.specs.Prelude.{◌<◌, IfErr, IfOk};
ghost use Rattle.zy_io.specs.Inputs.{ReadsInput, streams};
ghost use Rattle.zy_laws.specs.Throughout.{CanEndThroughout, OwnedThroughout, SerialThroughout, StrictThroughout};
ghost use Rattle.zy_first.specs.Runs.{IsFaultOf, IsTextOf, Lists, of_reading};

use crate::faults::RunFault;
use std::alloc::Global;
use zy_asm::assembling::assemble_bytes;
use zy_io::reading::read_all;
use zy_io::{Sink, Source};
use zy_isa::Scenario;
use zy_listing::run::write_run;
use zy_machine::Machine;

/// The scenario that a text means.
fn accept(alloc: Global, text: &[u8]) -> Result<Scenario, RunFault>
    ensures accepted { IfOk result (IsTextOf text.now) }
    ensures fault { IfErr result (IsFaultOf text.now) }
{
    let scenario = assemble_bytes(alloc, text)?;
    Ok(scenario)
}

/// Makes the choices of the scenario that a text means, writes its listing, and gives the machine that has made them. Nothing
/// is written before the text is accepted.
fn run_text<K: Sink>(alloc: Global, text: &[u8], sink: &mut K) -> Result<Machine, RunFault>
    requires { (K.sent sink.old).failures < u64.MAX }
    ensures run { Lists text.now (K.sent sink.old) (K.sent sink.new) result }
    ensures owned { IfOk result (λ m. OwnedThroughout m.scenario m.scenario.choices) }
    ensures strict { IfOk result (λ m. StrictThroughout m.scenario m.scenario.choices) }
    ensures serial { IfOk result (λ m. SerialThroughout m.scenario m.scenario.choices) }
    ensures ends { IfOk result (λ m. CanEndThroughout m.scenario m.scenario.choices) }
{
    let scenario = accept(alloc, text)?;
    let machine = write_run(alloc, scenario, sink)?;
    Ok(machine)
}

/// Reads a scenario text whole, makes its choices, writes its listing, and gives the machine that has made them. The bytes that
/// were read are left in `input`.
pub fn run<S: Source, K: Sink>(
    alloc: Global,
    source: &mut S,
    sink: &mut K,
    input: &mut Vec<u8>,
) -> Result<Machine, RunFault>
    requires { ((S.pulled source.old).failures < u64.MAX) × ((K.sent sink.old).failures < u64.MAX) }
    ensures run { let at = streams S.pulled K.sent in
        ReadsInput of_reading Lists (at source.old sink.old) (at source.new sink.new) result }
    // At every point of the run each page is in one place, the run is strictly serializable, under `held` the database
    // is that of the commits one by one, and the migration can be ended.
    ensures owned { IfOk result (λ m. OwnedThroughout m.scenario m.scenario.choices) }
    ensures strict { IfOk result (λ m. StrictThroughout m.scenario m.scenario.choices) }
    ensures serial { IfOk result (λ m. SerialThroughout m.scenario m.scenario.choices) }
    ensures ends { IfOk result (λ m. CanEndThroughout m.scenario m.scenario.choices) }
{
    *input = read_all(alloc, source)?;
    run_text(alloc, input.as_slice(), sink)
}
