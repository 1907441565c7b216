//! The commands `run`, `trace`, `threads`, `asm` and `dis`: a scenario is read, and something of it is written.
ghost use Rattle.std.specs.Prelude.{◌<◌, OnOk};

use crate::output::{Output, pass};
use std::io::{Read, Write};
use std::sync::Wait;
use std::thread::Threads;
use zy_cli::exit_status::DONE;
use zy_cli::request::Shown;
use zy_engine::engine::{convert_bytes, run_bytes};
use zy_engine::threading::threads_bytes;
use zy_engine::{BenchFault, Format, SourceFormat};
use zy_io::{CountingReader, Source};
use zy_machine::Machine;
use zy_report::explained::explain;
use zy_report::no_effect::NoEffect;
use zy_threads::FreeGate;

/// Ends a command that has made a run, and says what there is to say of it.
fn close_run<R: Eprint + AllocGlobal, W: Write>(
    rt: &R,
    machine: &Machine,
    output: &mut Output<W>,
) -> Result<u8, BenchFault>
    requires { output.old.sink.1 < u64.MAX }
{
    pass(output)?;
    comment(rt, machine);
    Ok(DONE)
}

/// Writes the scenario that is given in another format, leaves its bytes in `input`, and returns the exit status.
pub fn convert<R: AllocGlobal, G: Read, W: Write>(
    rt: &R,
    from: Format,
    to: SourceFormat,
    given: &mut G,
    input: &mut Vec<u8>,
    output: &mut Output<W>,
) -> Result<u8, BenchFault>
    requires { output.old.sink.1 < u64.MAX }
{
    let source = &mut CountingReader::new(given);
    convert_bytes(rt.alloc(), from, to, source, output, input)?;
    pass(output)?;
    Ok(DONE)
}

/// Makes a run of what is given, shows it, leaves the bytes that were read in `input`, and returns the exit status.
pub fn run<R: Eprint + AllocGlobal + Threads + Wait + Sync, G: Read, W: Write>(
    rt: &R,
    shown: Shown,
    format: Format,
    given: &mut G,
    input: &mut Vec<u8>,
    output: &mut Output<W>,
) -> Result<u8, BenchFault>
    requires { output.old.sink.1 < u64.MAX }
{
    let source = &mut CountingReader::new(given);
    let machine = shown_run(rt, shown, format, source, input, output)?;
    let status = close_run(rt, &machine, output);
    machine.discard();
    status
}

/// Makes a run, shows it, and gives the machine that has made it.
fn shown_run<R: AllocGlobal + Threads + Wait + Sync, S: Source, W: Write>(
    rt: &R,
    shown: Shown,
    format: Format,
    source: &mut S,
    input: &mut Vec<u8>,
    output: &mut Output<W>,
) -> Result<Machine, BenchFault>
    requires source { (S.pulled source.old).failures < u64.MAX }
    requires output { output.old.sink.1 < u64.MAX }
    ensures { OnOk result (output.new.sink.1 < u64.MAX) }
{
    let alloc = rt.alloc();
    match shown {
        Shown::Alone(shown) => run_bytes(alloc, format, shown, source, output, input),
        Shown::ByThreads => threads_bytes(rt, alloc, format, source, output, input, &FreeGate),
    }
}

/// Says on standard error where nothing came of a run or of a transaction, and which order explains the rows of a run
/// where that of the commits does not.
fn comment<R: Eprint + AllocGlobal>(rt: &R, machine: &Machine) {
    if let Some(no_effect) = NoEffect::of(machine) {
        let _ = eprintln!(rt; "zy_bench: {no_effect}");
    }
    explain(rt, machine);
}
