//! Writes a scenario with choices behind its own.
ghost use Rattle.std.specs.Prelude.{◌≡◌, ◌<◌, None};
ghost use Rattle.zy_engine.specs.Searching.{history_of};
ghost use Rattle.zy_order_engine.specs.Behind.{WroteBehind};

use std::alloc::Global;
use zy_engine::Wording;
use zy_engine::searching::write_found;
use zy_io::{Sink, TextFault};
use zy_isa::Choice;
use zy_machine::Machine;

/// Writes a text of the scenario of a machine, which has made all its choices, with choices behind its own. The scenario's own
/// text is at hand.
pub fn write_behind<K: Sink>(
    alloc: Global,
    wording: Wording,
    text: &[u8],
    machine: &Machine,
    choices: &[Choice],
    sink: &mut K,
) -> Result<(), TextFault>
    requires ran { machine.now ≡ history_of None machine.now.scenario }
    requires calls { (K.sent sink.old).failures < u64.MAX }
    ensures { WroteBehind wording choices.now machine.now.scenario (K.sent sink.old) (K.sent sink.new) result }
{
    write_found(alloc, wording, text, machine, choices, sink)
}
