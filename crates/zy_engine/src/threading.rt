//! The engine of a run by three threads.
ghost use Rattle.std.specs.Prelude.{◌<◌};
ghost use Rattle.zy_io.specs.Inputs.{ReadsInput, streams};
ghost use Rattle.zy_engine.specs.Faults.{of_reading};
ghost use Rattle.zy_engine.specs.OnInput.{OnInput};
ghost use Rattle.zy_engine.specs.Threads.{WroteMerge};

use crate::faults::BenchFault;
use crate::format::{Format, accept};
use std::alloc::Global;
use std::sync::Wait;
use std::thread::Threads;
use zy_io::reading::read_all;
use zy_io::{Sink, Source, TextFault};
use zy_isa::Scenario;
use zy_listing::listing::write_listing;
use zy_machine::Machine;
use zy_threads::Gate;
use zy_threads::run::run_threads;

/// Makes the choices of a scenario by three threads, writes the listing in the order that they took, and gives the
/// machine that has made them.
fn write_threads<R: Threads + Wait + Sync, G: Gate + Sync, K: Sink>(
    rt: &R,
    alloc: Global,
    scenario: Scenario,
    gate: &G,
    sink: &mut K,
) -> Result<Machine, TextFault>
    requires { (K.sent sink.old).failures < u64.MAX }
    ensures { WroteMerge scenario (K.sent sink.old) (K.sent sink.new) result }
{
    let machine = run_threads(rt, alloc, scenario, gate)?;
    match write_listing(alloc, &machine, sink) {
        Ok(()) => Ok(machine),
        Err(fault) => {
            machine.discard();
            Err(fault)
        }
    }
}

/// Makes the choices of the scenario that an input stands for by three threads, writes its listing in the order that they
/// took, and gives the machine that has made them.
pub fn threads_input<K: Sink, R: Threads + Wait + Sync, G: Gate + Sync>(
    rt: &R,
    alloc: Global,
    format: Format,
    input: &[u8],
    sink: &mut K,
    gate: &G,
) -> Result<Machine, BenchFault>
    requires { (K.sent sink.old).failures < u64.MAX }
    ensures { OnInput WroteMerge format input.now (K.sent sink.old) (K.sent sink.new) result }
{
    let scenario = accept(alloc, format, input)?;
    let machine = write_threads(rt, alloc, scenario, gate, sink)?;
    Ok(machine)
}

/// Reads an input whole, and then does what `threads_input` does. The bytes that were read are left in `input`.
pub fn threads_bytes<S: Source, K: Sink, R: Threads + Wait + Sync, G: Gate + Sync>(
    rt: &R,
    alloc: Global,
    format: Format,
    source: &mut S,
    sink: &mut K,
    input: &mut Vec<u8>,
    gate: &G,
) -> Result<Machine, BenchFault>
    requires { ((S.pulled source.old).failures < u64.MAX) × ((K.sent sink.old).failures < u64.MAX) }
    ensures { let at = streams S.pulled K.sent in
        ReadsInput of_reading (OnInput WroteMerge format) (at source.old sink.old) (at source.new sink.new) result }
{
    *input = read_all(alloc, source)?;
    threads_input(rt, alloc, format, input.as_slice(), sink, gate)
}
