//! The engine that ends the migration of a scenario.
ghost use Rattle.std.specs.Prelude.{◌≡◌, ◌<◌, None};
ghost use Rattle.zy_io.specs.Inputs.{ReadsInput, streams};
ghost use Rattle.zy_engine.specs.Ending.{WroteEnding};
ghost use Rattle.zy_engine.specs.Faults.{of_reading};
ghost use Rattle.zy_engine.specs.OnInput.{OnInput};
ghost use Rattle.zy_engine.specs.Searching.{history_of};

use crate::faults::BenchFault;
use crate::format::{Format, accept};
use crate::searching::write_found;
use crate::wording::Wording;
use std::alloc::Global;
use zy_ending::EndingFault;
use zy_ending::ending::way_out;
use zy_io::reading::read_all;
use zy_io::{Sink, Source, TextFault};
use zy_isa::Scenario;
use zy_machine::Machine;

/// What came of a scenario whose migration was to be ended.
#[derive(Clone, Copy)]
pub enum Ending {
    /// It went out with the choices that end its migration behind its own.
    Written,
    /// Nothing went out: a scenario has at most 4096 choices, and with those it has more.
    NoRoom,
}

/// Writes a text of a machine's scenario, all of whose choices it has made, with those that end its migration behind them.
/// The scenario's own text is at hand.
fn write_way_out<K: Sink>(
    alloc: Global,
    wording: Wording,
    text: &[u8],
    machine: &Machine,
    sink: &mut K,
) -> Result<Ending, TextFault>
    requires ran { machine.now ≡ history_of None machine.now.scenario }
    requires calls { (K.sent sink.old).failures < u64.MAX }
    ensures { WroteEnding wording machine.now.scenario (K.sent sink.old) (K.sent sink.new) result }
{
    match way_out(alloc, machine) {
        Ok(choices) => {
            write_found(alloc, wording, text, machine, &choices, sink)?;
            Ok(Ending::Written)
        }
        Err(EndingFault::NoRoom) => Ok(Ending::NoRoom),
        Err(EndingFault::Memory) => Err(TextFault::Memory),
    }
}

/// Makes the choices of a scenario, whose own text is at hand, and writes a text of it with those that end its migration
/// behind them.
fn write_ending<K: Sink>(
    alloc: Global,
    wording: Wording,
    text: &[u8],
    scenario: Scenario,
    sink: &mut K,
) -> Result<Ending, TextFault>
    requires { (K.sent sink.old).failures < u64.MAX }
    ensures { WroteEnding wording scenario (K.sent sink.old) (K.sent sink.new) result }
{
    let machine = Machine::run_all(alloc, scenario)?;
    let ending = write_way_out(alloc, wording, text, &machine, sink);
    machine.discard();
    ending
}

/// Makes the choices of the scenario that an input stands for, and writes the scenario with those that end its migration
/// behind them; nothing where there is no room for all of these.
pub fn end_input<K: Sink>(
    alloc: Global,
    format: Format,
    wording: Wording,
    input: &[u8],
    sink: &mut K,
) -> Result<Ending, BenchFault>
    requires { (K.sent sink.old).failures < u64.MAX }
    ensures { OnInput (WroteEnding wording) format input.now (K.sent sink.old) (K.sent sink.new) result }
{
    let scenario = accept(alloc, format, input)?;
    let ending = write_ending(alloc, wording, input, scenario, sink)?;
    Ok(ending)
}

/// Reads an input whole, and then does what `end_input` does. The bytes that were read are left in `input`.
pub fn end_bytes<S: Source, K: Sink>(
    alloc: Global,
    format: Format,
    wording: Wording,
    source: &mut S,
    sink: &mut K,
    input: &mut Vec<u8>,
) -> Result<Ending, BenchFault>
    requires { ((S.pulled source.old).failures < u64.MAX) × ((K.sent sink.old).failures < u64.MAX) }
    ensures { let at = streams S.pulled K.sent in
        ReadsInput of_reading (OnInput (WroteEnding wording) format) (at source.old sink.old)
        (at source.new sink.new) result }
{
    *input = read_all(alloc, source)?;
    end_input(alloc, format, wording, input.as_slice(), sink)
}
