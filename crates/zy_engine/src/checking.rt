//! The engine that checks a listing.
ghost use Rattle.std.specs.Prelude.{◌≡◌, ◌<◌, IfOk};
ghost use Rattle.zy_check.specs.Differs.{verdict};
ghost use Rattle.zy_engine.specs.Checks.{Checks, WroteVerdict, WroteOrNothing, verdict_line};
ghost use Rattle.zy_listing.specs.Run.{listing_of};
ghost use Rattle.zy_io.specs.Inputs.{ReadsInput, streams};
ghost use Rattle.zy_engine.specs.Faults.{of_reading};

use crate::faults::BenchFault;
use crate::format::{Format, accept, split_scenario};
use std::alloc::{AllocError, Global};
use zy_check::check::compare;
use zy_check::{Comparison, Verdict};
use zy_io::reading::read_all;
use zy_io::{Line, LineBuffer, Sink, Source, TextFault};
use zy_isa::Scenario;
use zy_machine::Machine;

/// The words of a verdict, and the end of their line.
fn line_of(alloc: Global, verdict: Verdict) -> Result<LineBuffer, AllocError>
    ensures { IfOk result (λ line. line ≡ verdict_line verdict) }
{
    let mut line = LineBuffer::new(alloc);
    verdict.append(&mut line)?;
    line.push(b'\n')?;
    Ok(line)
}

/// Writes the words of a verdict, once they are all there.
fn tell<K: Sink>(alloc: Global, verdict: Verdict, sink: &mut K) -> Result<(), TextFault>
    requires { (K.sent sink.old).failures < u64.MAX }
    ensures { WroteOrNothing (K.sent sink.old) (K.sent sink.new) result (verdict_line verdict) }
{
    let line = line_of(alloc, verdict)?;
    sink.put_all(line.as_bytes())?;
    Ok(())
}

/// A verdict on a listing, and the machine that it was compared with.
#[derive(Drop)]
pub struct CheckedListing {
    pub verdict: Verdict,
    /// The line that the listing has where the input first differs, as a `Comparison` has it.
    pub expected: Option<Vec<u8>>,
    /// It has made all choices of the scenario.
    pub machine: Machine,
}

/// Compares an input with the listing of a machine, writes the verdict, and gives what was found. Nothing is written before that is
/// known.
fn write_verdict<K: Sink>(
    alloc: Global,
    input: &[u8],
    machine: &Machine,
    sink: &mut K,
) -> Result<Comparison, TextFault>
    requires { (K.sent sink.old).failures < u64.MAX }
    ensures returned { IfOk result (λ c. c.verdict ≡ verdict input.now (listing_of machine.now)) }
    ensures wrote { WroteOrNothing (K.sent sink.old) (K.sent sink.new) result (verdict_line (verdict input.now (listing_of machine.now))) }
{
    let found = compare(alloc, input, machine)?;
    tell(alloc, found.verdict, sink)?;
    Ok(found)
}

/// Makes the choices of a scenario, compares an input with the listing, and writes the verdict.
fn check_run<K: Sink>(
    alloc: Global,
    input: &[u8],
    scenario: Scenario,
    sink: &mut K,
) -> Result<CheckedListing, TextFault>
    requires { (K.sent sink.old).failures < u64.MAX }
    ensures { WroteVerdict input.now scenario (K.sent sink.old) (K.sent sink.new) result }
{
    let machine = Machine::run_all(alloc, scenario)?;
    match write_verdict(alloc, input, &machine, sink) {
        Ok(found) => Ok(CheckedListing {
            verdict: found.verdict,
            expected: found.expected,
            machine,
        }),
        Err(fault) => {
            machine.discard();
            Err(fault)
        }
    }
}

/// Writes whether an input is the listing of the scenario at its head: `table`, or `not table` and the line in which they first
/// differ. It gives that verdict, and the machine that has made the scenario's choices. Nothing is written before the verdict is
/// known.
pub fn check_input<K: Sink>(
    alloc: Global,
    input: &[u8],
    sink: &mut K,
) -> Result<CheckedListing, BenchFault>
    requires { (K.sent sink.old).failures < u64.MAX }
    ensures { Checks input.now (K.sent sink.old) (K.sent sink.new) result }
{
    let (part, _) = split_scenario(input);
    let scenario = accept(alloc, Format::Text, part)?;
    let checked = check_run(alloc, input, scenario, sink)?;
    Ok(checked)
}

/// Reads an input whole, and then does what `check_input` does. The bytes that were read are left in `input`.
pub fn check_bytes<S: Source, K: Sink>(
    alloc: Global,
    source: &mut S,
    sink: &mut K,
    input: &mut Vec<u8>,
) -> Result<CheckedListing, BenchFault>
    requires { ((S.pulled source.old).failures < u64.MAX) × ((K.sent sink.old).failures < u64.MAX) }
    ensures { let at = streams S.pulled K.sent in
        ReadsInput of_reading Checks (at source.old sink.old) (at source.new sink.new) result }
{
    *input = read_all(alloc, source)?;
    check_input(alloc, input.as_slice(), sink)
}
