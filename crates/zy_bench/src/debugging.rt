//! The command `debug`: commands are answered on the run of a scenario.
ghost use Rattle.std.specs.Prelude.{◌<◌};

use crate::given::Given;
use crate::output::{Output, pass};
use std::io::{Read, Write};
use zy_cli::exit_status::{COMMAND_LINE, DONE};
use zy_cli::request::Checkpoints;
use zy_engine::BenchFault;
use zy_engine::debugging::{MAX_EVERY, MAX_RING, debug_bytes};
use zy_io::CountingReader;
use zy_report::bad_commands::BadCommands;

/// Answers the commands below a scenario, and returns the exit status.
pub fn debug<R: Eprint + AllocGlobal, F: Read + Drop, S: Read, W: Write>(
    rt: &R,
    checkpoints: Checkpoints,
    file: Option<&str>,
    given: &mut Given<F, S>,
    input: &mut Vec<u8>,
    output: &mut Output<W>,
) -> Result<u8, BenchFault>
    requires { output.old.sink.1 < u64.MAX }
{
    let Checkpoints { every, ring } = checkpoints;
    if !(1..=MAX_EVERY).contains(&every) || !(1..=MAX_RING).contains(&ring) {
        return Ok(COMMAND_LINE);
    }
    let mut source = CountingReader::new(&mut *given);
    debug_bytes(rt.alloc(), every, ring, &mut source, output, input)?;
    pass(output)?;
    let session = BadCommands {
        file,
        lines: given.lines(),
    };
    session.tell_bad(rt, input.as_slice());
    Ok(DONE)
}
