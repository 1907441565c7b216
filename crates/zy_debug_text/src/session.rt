//! A whole session.
ghost use Rattle.std.specs.Prelude.{◌<◌};
ghost use Rattle.zy_text.specs.Words.{lines_of};
ghost use Rattle.zy_debug_text.specs.Console.{WroteSession};

use crate::answer::answer;
use std::alloc::Global;
use zy_debug::Debugger;
use zy_io::{LineBuffer, Sink, TextFault};
use zy_text::Words;
use zy_text::line::take_line;

/// Does the commands of a text, one a line, and writes the reply to each once it is done. It ends at the first call
/// that fails or takes no byte, and where there is no memory.
pub fn write_session<K: Sink>(
    alloc: Global,
    debugger: &mut Debugger,
    commands: &[u8],
    sink: &mut K,
) -> Result<(), TextFault>
    requires { (K.sent sink.old).failures < u64.MAX }
    ensures { WroteSession (K.sent sink.old) (K.sent sink.new) result
        debugger.old (lines_of commands.now) debugger.new }
{
    let mut words = Words::new();
    let mut line = LineBuffer::new(alloc);
    let mut rest = commands;
    while !rest.is_empty() {
        rest = take_line(&mut words, rest);
        answer(debugger, words.as_slice(), &mut line)?;
        sink.put_all(line.as_bytes())?;
    }
    Ok(())
}
