//! The engines of `run`, `trace`, `asm` and `dis`: bytes in, bytes out. Each is a function on an input in hand, and one that reads
//! the input first. That one leaves what it has read to its caller, who can look at it again where it is rejected.
ghost use Rattle.std.specs.Prelude.{◌<◌};
ghost use Rattle.zy_listing.specs.Run.{WroteOutput, WroteRun};
ghost use Rattle.zy_io.specs.Inputs.{ReadsInput, streams};
ghost use Rattle.zy_engine.specs.Faults.{of_reading};
ghost use Rattle.zy_engine.specs.OnInput.{OnInput};
ghost use Rattle.zy_engine.specs.Outputs.{output_of, shown_of};

use crate::faults::BenchFault;
use crate::format::{Format, accept};
use crate::output::{RunFormat, SourceFormat};
use std::alloc::Global;
use zy_io::reading::read_all;
use zy_io::{Sink, Source};
use zy_machine::Machine;

/// Makes the choices of the scenario that an input stands for, writes something of the run, and gives the machine that has
/// made them. Nothing is written before the input is found to be a scenario.
pub fn run_input<K: Sink>(
    alloc: Global,
    format: Format,
    shown: RunFormat,
    input: &[u8],
    sink: &mut K,
) -> Result<Machine, BenchFault>
    requires { (K.sent sink.old).failures < u64.MAX }
    ensures { OnInput (WroteRun (shown_of shown)) format input.now (K.sent sink.old) (K.sent sink.new) result }
{
    let scenario = accept(alloc, format, input)?;
    let machine = shown.write(alloc, scenario, sink)?;
    Ok(machine)
}

/// Writes something of the scenario that an input stands for.
pub fn convert_input<K: Sink>(
    alloc: Global,
    format: Format,
    output: SourceFormat,
    input: &[u8],
    sink: &mut K,
) -> Result<(), BenchFault>
    requires { (K.sent sink.old).failures < u64.MAX }
    ensures { OnInput (WroteOutput (output_of output)) format input.now (K.sent sink.old) (K.sent sink.new) result }
{
    let scenario = accept(alloc, format, input)?;
    output.write(alloc, scenario, sink)?;
    Ok(())
}

/// Reads an input whole, and then does what `run_input` does. The bytes that were read are left in `input`.
pub fn run_bytes<S: Source, K: Sink>(
    alloc: Global,
    format: Format,
    shown: RunFormat,
    source: &mut S,
    sink: &mut K,
    input: &mut Vec<u8>,
) -> Result<Machine, BenchFault>
    requires { ((S.pulled source.old).failures < u64.MAX) × ((K.sent sink.old).failures < u64.MAX) }
    ensures { let at = streams S.pulled K.sent in
        ReadsInput of_reading (OnInput (WroteRun (shown_of shown)) format) (at source.old sink.old)
        (at source.new sink.new) result }
{
    *input = read_all(alloc, source)?;
    run_input(alloc, format, shown, input.as_slice(), sink)
}

/// Reads an input whole, and then does what `convert_input` does. The bytes that were read are left in `input`.
pub fn convert_bytes<S: Source, K: Sink>(
    alloc: Global,
    format: Format,
    output: SourceFormat,
    source: &mut S,
    sink: &mut K,
    input: &mut Vec<u8>,
) -> Result<(), BenchFault>
    requires { ((S.pulled source.old).failures < u64.MAX) × ((K.sent sink.old).failures < u64.MAX) }
    ensures { let at = streams S.pulled K.sent in
        ReadsInput of_reading (OnInput (WroteOutput (output_of output)) format) (at source.old sink.old)
        (at source.new sink.new) result }
{
    *input = read_all(alloc, source)?;
    convert_input(alloc, format, output, input.as_slice(), sink)
}
