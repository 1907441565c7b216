//! Reads the lines of a text as lines of a log in JSON.
ghost use Rattle.std.specs.Prelude.{◌≡◌, ◌==◌, ◌<◌, ◌+◌, ◌∷◌, ◌++◌, OnOk, length, position};
ghost use Rattle.std.specs.List.{list_all};
ghost use Rattle.zy_text.specs.Words as words;
ghost use Rattle.zy_text.specs.Words.{lines_of};
ghost use Rattle.zy_text.specs.Lines.{line_number_end};
ghost use Rattle.zy_io.specs.Writing.{line_of};
ghost use Rattle.zy_json.specs.Logs.{ReadsObjects, Says, SaysNumbered};

use crate::faults::{JsonFault, JsonLineFault, JsonLogFault};
use crate::reading::read;
use crate::step::LogText;
use json::Scratch;
use std::alloc::{AllocError, Global};
use zy_io::{Line, LineBuffer};
use zy_text::line::is_space;

/// Where a text's first line feed is.
fn line_end(text: &[u8]) -> Option<usize>
    ensures { result ≡ position (λ b. b == 10) text.now }
{
    text.iter().position(|byte| *byte == b'\n')
}

/// The first line of a text, and what follows its line feed.
fn first_line(text: &[u8]) -> (&[u8], &[u8])
    requires { 0 < length text.now }
    ensures lines { lines_of text.entry.now ≡ result.0.now ∷ lines_of result.1.now }
    ensures shorter { length result.1.now < length text.entry.now }
{
    match line_end(text) {
        Some(end) => (&text[..end], &text[end + 1..]),
        None => (text, &[]),
    }
}

/// Whether a line has nothing but spaces.
fn is_blank(line: &[u8]) -> bool
    ensures { result ≡ list_all words.is_space line.now }
{
    line.iter().all(|byte| is_space(*byte))
}

/// The line of a log that a line tells, in the buffer, whose old text is lost.
fn say(
    alloc: Global,
    scratch: &mut Scratch,
    line: &[u8],
    log: &mut LineBuffer,
) -> Result<(), JsonFault>
    ensures { Says line.now log.new result }
{
    log.clear();
    if is_blank(line) {
        return Ok(());
    }
    let step = read(alloc, scratch, line)?;
    match LogText(step).append(log) {
        Ok(()) => Ok(()),
        Err(_) => Err(JsonFault::Memory),
    }
}

/// What the line of this number says as a line of a log; a fault names the number.
fn say_numbered(
    alloc: Global,
    scratch: &mut Scratch,
    number: usize,
    line: &[u8],
    log: &mut LineBuffer,
) -> Result<(), JsonLogFault>
    ensures { SaysNumbered number line.now log.new result }
{
    match say(alloc, scratch, line, log) {
        Ok(()) => Ok(()),
        Err(JsonFault::Memory) => Err(JsonLogFault::Memory),
        Err(fault) => Err(JsonLogFault::Refused(JsonLineFault {
            line: number,
            fault,
        })),
    }
}

/// Puts a line and its end behind others.
fn put_line(logs: &mut Vec<u8>, log: &[u8]) -> Result<(), AllocError>
    ensures { OnOk result (logs.new.items ≡ logs.old.items ++ line_of log.now) }
{
    logs.extend_from_slice(log)?;
    logs.push(b'\n')?;
    Ok(())
}

/// The lines of a log that the lines of a text tell, the first of which has number `first`. Each line is one object, as `read` reads
/// it, or has nothing but spaces, and then it tells an empty line: so what goes out has a line for each, in its place. The first line
/// that is neither is reported.
pub fn read_objects(alloc: Global, first: usize, text: &[u8]) -> Result<Vec<u8>, JsonLogFault>
    requires { first + length text.now < line_number_end }
    ensures { ReadsObjects first text.now result }
{
    let mut scratch = Scratch::new(alloc);
    let mut log = LineBuffer::new(alloc);
    let mut logs = Vec::new(alloc);
    let mut rest = text;
    let mut number = first;
    while !rest.is_empty() {
        let (line, below) = first_line(rest);
        say_numbered(alloc, &mut scratch, number, line, &mut log)?;
        put_line(&mut logs, log.as_bytes())?;
        rest = below;
        number += 1;
    }
    Ok(logs)
}
