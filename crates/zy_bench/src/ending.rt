//! The command `end`: a scenario is written with choices behind its own that end its migration.
ghost use Rattle.std.specs.Prelude.{◌<◌};

use crate::output::{Output, pass};
use std::io::{Read, Write};
use zy_cli::exit_status::{DONE, SPENT};
use zy_engine::ending::end_bytes;
use zy_engine::{BenchFault, Ending, Format, Wording};
use zy_io::CountingReader;

/// The message if a scenario has no room for the choices that end its migration.
const NO_ROOM: &'static str =
    "with the choices that end its migration the scenario would have more than 4096: leave out some of its own";

/// Writes the given scenario with further choices that end its migration, and returns the exit status.
pub fn end<R: Eprint + AllocGlobal, G: Read, W: Write>(
    rt: &R,
    format: Format,
    wording: Wording,
    given: &mut G,
    input: &mut Vec<u8>,
    output: &mut Output<W>,
) -> Result<u8, BenchFault>
    requires { output.old.sink.1 < u64.MAX }
{
    let source = &mut CountingReader::new(given);
    match end_bytes(rt.alloc(), format, wording, source, output, input)? {
        Ending::Written => {
            pass(output)?;
            Ok(DONE)
        }
        Ending::NoRoom => {
            let _ = eprintln!(rt; "zy_bench: {NO_ROOM}");
            Ok(SPENT)
        }
    }
}
