//! The engine that debugs a scenario.
ghost use Rattle.std.specs.Prelude.{◌<◌, ◌≤◌};
ghost use Rattle.zy_text.specs.Words.{lines_of};
ghost use Rattle.zy_debug_text.specs.Console.{WroteReplies, opened};
ghost use Rattle.zy_io.specs.Inputs.{ReadsInput, streams};
ghost use Rattle.zy_engine.specs.Faults.{of_reading};
ghost use Rattle.zy_engine.specs.Debugs.{Debugs, max_every, max_ring};

use crate::faults::BenchFault;
use crate::format::{Format, accept, split_scenario};
use std::alloc::Global;
use zy_debug::Debugger;
use zy_debug_text::session::write_session;
use zy_io::reading::read_all;
use zy_io::{Sink, Source, TextFault};
use zy_isa::Scenario;

/// The most choices from one kept copy of the machine to the next.
pub const MAX_EVERY: usize = 4096;

/// The most copies of the machine that are kept.
pub const MAX_RING: usize = 64;

/// A session on a scenario: does the commands, one a line, and writes the reply to each.
fn write_replies<K: Sink>(
    alloc: Global,
    scenario: Scenario,
    every: usize,
    ring: usize,
    commands: &[u8],
    sink: &mut K,
) -> Result<(), TextFault>
    requires every { 1 ≤ every }
    requires sink { (K.sent sink.old).failures < u64.MAX }
    ensures { WroteReplies (K.sent sink.old) (K.sent sink.new) result
        (opened scenario) (lines_of commands.now) }
{
    let mut debugger = Debugger::open(alloc, scenario, every, ring)?;
    let written = write_session(alloc, &mut debugger, commands, sink);
    drop(debugger);
    written
}

/// Answers an input: a scenario text through its first line whose only word is `end`, and below it commands, one a line. Writes
/// the replies. Nothing is written before the scenario is accepted.
///
/// Copies of the machine are kept to replay from, at multiples of `every` and close to the position, and at most `ring`
/// of them: they change how long a command takes, and no reply.
pub fn debug_input<K: Sink>(
    alloc: Global,
    every: usize,
    ring: usize,
    input: &[u8],
    sink: &mut K,
) -> Result<(), BenchFault>
    requires every { 1 ≤ every }
    requires failures { (K.sent sink.old).failures < u64.MAX }
    ensures { Debugs input.now (K.sent sink.old) (K.sent sink.new) result }
{
    let (part, commands) = split_scenario(input);
    let scenario = accept(alloc, Format::Text, part)?;
    write_replies(alloc, scenario, every, ring, commands, sink)?;
    Ok(())
}

/// Reads an input whole, and then does what `debug_input` does. The bytes that were read are left in `input`.
pub fn debug_bytes<S: Source, K: Sink>(
    alloc: Global,
    every: usize,
    ring: usize,
    source: &mut S,
    sink: &mut K,
    input: &mut Vec<u8>,
) -> Result<(), BenchFault>
    requires every_least { 1 ≤ every }
    requires every_most { every ≤ max_every }
    requires ring_least { 1 ≤ ring }
    requires ring_most { ring ≤ max_ring }
    requires failures { ((S.pulled source.old).failures < u64.MAX) × ((K.sent sink.old).failures < u64.MAX) }
    ensures { let at = streams S.pulled K.sent in
        ReadsInput of_reading Debugs (at source.old sink.old) (at source.new sink.new) result }
{
    *input = read_all(alloc, source)?;
    debug_input(alloc, every, ring, input.as_slice(), sink)
}
