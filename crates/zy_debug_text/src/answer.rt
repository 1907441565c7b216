//! What a line is answered.
ghost use Rattle.std.specs.Prelude.{◌≡◌, ◌≢◌, ◌++◌, OnOk, codes};
ghost use Rattle.std.specs.Fmt.{decimal};
ghost use Rattle.zy_io.specs.Writing.{line_of};
ghost use Rattle.zy_text.specs.Lines.{texts};
ghost use Rattle.zy_debug.specs.Commands.{refusal};
ghost use Rattle.zy_debug_text.specs.Replies.{refusal_text};
ghost use Rattle.zy_debug_text.specs.Console.{LineSays, Obeyed};

use crate::command::command_of;
use crate::shown::append_shown;
use std::alloc::AllocError;
use zy_debug::{Command, DebugFault, Debugger, Reply};
use zy_io::{Decimal, Line, LineBuffer, joined};

/// Appends a text and the end of its line.
fn append_line<D: Line>(item: &D, line: &mut LineBuffer) -> Result<(), AllocError>
    ensures { OnOk result (line.new ≡ line.old ++ line_of (D.text item.now)) }
{
    item.append(line)?;
    line.push(b'\n')
}

/// Appends which stop fires, and where.
fn append_stop(i: usize, m: usize, line: &mut LineBuffer) -> Result<(), AllocError>
    ensures { OnOk result (line.new ≡ line.old
        ++ line_of (codes "stop " ++ (decimal i ++ (codes " at " ++ decimal m)))) }
{
    append_line(&joined!("stop ", Decimal(i), " at ", Decimal(m)), line)
}

/// Appends why a command is refused. Out of memory, there is no more to say.
fn append_refusal(fault: DebugFault, line: &mut LineBuffer) -> Result<(), AllocError>
    ensures { OnOk result ((line.new ≡ line.old ++ refusal_text fault) × (fault ≢ DebugFault.Memory)) }
{
    match fault {
        DebugFault::NoSuchStop => append_line(&"no such stop", line),
        DebugFault::Range => append_line(&"out of range", line),
        DebugFault::TooManyStops => append_line(&"too many stops", line),
        DebugFault::Memory => Err(AllocError),
    }
}

/// Does a command, and puts the reply in place of what the buffer holds.
fn obey(debugger: &mut Debugger, command: Command, line: &mut LineBuffer) -> Result<(), AllocError>
    ensures ok { OnOk result (Obeyed (refusal debugger.old command) debugger.old command debugger.new line.new) }
{
    line.clear();
    match debugger.command(command) {
        Ok(Reply::At(m)) => append_line(&joined!("at ", Decimal(m)), line),
        Ok(Reply::Stop(i, m)) => append_stop(i, m, line),
        Ok(Reply::Set(i)) => append_line(&joined!("stop ", Decimal(i), " set"), line),
        Ok(Reply::Deleted(i)) => append_line(&joined!("deleted ", Decimal(i)), line),
        Ok(Reply::Shown(shown)) => append_shown(debugger.machine(), shown, line),
        Err(fault) => append_refusal(fault, line),
    }
}

/// Answers the words of a line, in place of what the buffer holds.
pub fn answer(
    debugger: &mut Debugger,
    words: &[&[u8]],
    line: &mut LineBuffer,
) -> Result<(), AllocError>
    ensures { OnOk result (LineSays debugger.old (texts words.now) debugger.new line.new) }
{
    line.clear();
    if words.is_empty() {
        return Ok(());
    }
    match command_of(words) {
        Some(command) => obey(debugger, command, line),
        None => append_line(&"bad command", line),
    }
}
