//! `zy_first`: reads a scenario text on standard input, and writes its listing, as `zy_bench run` does. It uses few
//! crates, so it is proved long before `zy_bench`.
#![tactic(auto)]

ghost use Rattle.std.specs.Prelude.{◌<◌};

mod advised;
mod faults;
mod noted;
mod run;

use advised::Advised;
use faults::RunFault;
use noted::{Cause, Noted};
use run::run;
use std::alloc::Global;
use std::io;
use std::io::{Read, Write};
use std::process::ExitCode;
use zy_io::{Buffered, CountingReader, CountingWriter, Patient, Pending, Source};

/// How many bytes of a listing are kept back at most.
const MOST_PENDING: usize = 8192;

/// Writes the listing of the scenario that is given, whose bytes it leaves in `input`.
fn list<G: Read, W: Write>(
    alloc: Global,
    given: &mut G,
    output: &mut W,
    input: &mut Vec<u8>,
) -> Result<(), RunFault> {
    let mut source = CountingReader::new(given);
    let pending = Pending::new(alloc, MOST_PENDING)?;
    let mut sink = Buffered::new(CountingWriter::new(output), pending);
    let listed = list_to(alloc, &mut source, &mut sink, input);
    // Of a listing that ends with a fault, what was written goes out, too.
    if listed.is_err() && sink.sink().failures() == 0 {
        let _ = sink.pass();
    }
    drop(sink);
    listed
}

/// Writes the listing of the scenario that a source gives, and passes on all of it.
fn list_to<S: Source, W: Write>(
    alloc: Global,
    source: &mut S,
    sink: &mut Buffered<CountingWriter<W>>,
    input: &mut Vec<u8>,
) -> Result<(), RunFault>
    requires source { (S.pulled source.old).failures < u64.MAX }
    requires sink { sink.old.sink.1 < u64.MAX }
{
    let machine = run(alloc, source, sink, input)?;
    machine.discard();
    sink.pass()?;
    Ok(())
}

/// Reports a fault on standard error, and gives the exit status.
fn tell(rt: &impl Eprint, advised: Advised<'_>) -> u8 {
    // The user has called `./zy_bench run`.
    let _ = eprintln!(rt; "zy_bench: {advised}");
    advised.fault.status()
}

/// Writes the listing of the scenario that is given, or says why there is none, and gives the exit status.
fn answer<R: Eprint + AllocGlobal, G: Read, W: Write>(
    rt: &R,
    given: &mut Noted<G>,
    output: &mut Noted<W>,
) -> u8 {
    let mut input = Vec::new(rt.alloc());
    let status = match list(rt.alloc(), given, output, &mut input) {
        Ok(()) => 0,
        Err(RunFault::Write) if output.cause() == Cause::Unread => RunFault::Write.status(),
        Err(fault) => {
            let advised = Advised {
                fault,
                input: input.as_slice(),
                cause: given.cause(),
            };
            tell(rt, advised)
        }
    };
    drop(input);
    status
}

/// Writes the listing of the scenario on standard input, or says why there is none, and gives the exit status.
fn answer_input<R: Print + Eprint + Input + AllocGlobal>(rt: &R) -> u8 {
    let mut given = Noted::new(rt.reader());
    let mut output = Noted::new(Patient::new(io::writer(rt)));
    answer(rt, &mut given, &mut output)
}

fn main(rt: HostRuntime) -> ExitCode {
    ExitCode::from(answer_input(&rt))
}
