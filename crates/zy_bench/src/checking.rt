//! The command `check`: a listing is read, and compared with that of its scenario.
ghost use Rattle.std.specs.Prelude.{◌<◌};

use crate::output::{Output, pass};
use std::io::{Read, Write};
use zy_check::Verdict;
use zy_cli::exit_status::{DONE, NOT_TABLE};
use zy_engine::checking::check_bytes;
use zy_engine::{BenchFault, CheckedListing};
use zy_io::CountingReader;
use zy_report::excerpt::Differing;
use zy_report::explained::explain;
use zy_report::origin::Origin;
use zy_source_words::line::whole_line;
use zy_text::cut::cut_len;

/// The end of a listing whose rows differ from those of the commit order.
const DIFFERING_END: &'static [u8] = b"serial differs\nend\n";

/// Checks the given listing, shows the first line that differs, and returns the exit status.
pub fn check<R: Eprint + AllocGlobal, G: Read, W: Write>(
    rt: &R,
    file: Option<&str>,
    given: &mut G,
    input: &mut Vec<u8>,
    output: &mut Output<W>,
) -> Result<u8, BenchFault>
    requires { output.old.sink.1 < u64.MAX }
{
    let mut source = CountingReader::new(given);
    let checked = check_bytes(rt.alloc(), &mut source, output, input)?;
    tell_checked(rt, file, input.as_slice(), &checked, output)
}

/// Finishes a check: reports what it found, and returns the exit status.
fn tell_checked<R: Eprint + AllocGlobal, W: Write>(
    rt: &R,
    file: Option<&str>,
    listing: &[u8],
    checked: &CheckedListing,
    output: &mut Output<W>,
) -> Result<u8, BenchFault>
    requires { output.old.sink.1 < u64.MAX }
{
    match checked.verdict {
        Verdict::Table => {
            pass(output)?;
            if listing.ends_with(DIFFERING_END) {
                explain(rt, &checked.machine);
            }
            Ok(DONE)
        }
        Verdict::NotTable(line) => {
            let Some(expected) = &checked.expected else {
                return Err(BenchFault::Memory);
            };
            pass(output)?;
            show(rt, file, listing, line, expected.as_slice());
            Ok(NOT_TABLE)
        }
    }
}

/// Shows on standard error the line of an input at which it is not the listing.
fn show(rt: &impl Eprint, file: Option<&str>, input: &[u8], line: usize, expected: &[u8]) {
    let differing = Differing {
        number: line,
        is: whole_line(input, line),
        expected,
        is_scenario: cut_len(input) == input.len(),
    };
    let origin = Origin::at(file, differing.position());
    let _ = eprintln!(rt; "{origin}: {differing}");
}
