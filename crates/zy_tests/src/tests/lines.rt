//! The lines of a listing, each of which goes to the writer by itself.

use std::alloc::Global;
use std::io::{self, Write};
use zy_asm::assembling::assemble;
use zy_io::CountingWriter;
use zy_listing::run::write_run;

/// The first run of the README.
const FIRST_RUN: &str =
    "zephyr 1\ncap 4\npages 4\nrule held\nrow 10 7\ntxn 0\nset r0 10\nread r1 r0\nset r2 11\ninsert r2 r1\ncommit\nC begin 0\nA run 0 x 5\nend\n";

/// How many lines its listing has.
const LINES: usize = 34;

/// Counts the calls that write, and the ends of lines that they write.
#[derive(Drop)]
struct Calls {
    calls: usize,
    lines: usize,
}

impl Write for Calls {
    fn write(&mut self, bytes: &[u8]) -> io::Result<usize> {
        self.calls = self.calls.saturating_add(1);
        for byte in bytes {
            if *byte == b'\n' {
                self.lines = self.lines.saturating_add(1);
            }
        }
        Ok(bytes.len())
    }

    fn flush(&mut self) -> io::Result<()> {
        Ok(())
    }
}

/// Writes the listing of the first run; nothing where it is rejected or not written.
fn written(alloc: Global) -> Option<Calls> {
    let Ok(scenario) = assemble(alloc, FIRST_RUN) else {
        return None;
    };
    let mut sink = CountingWriter::new(Calls { calls: 0, lines: 0 });
    let Ok(machine) = write_run(alloc, scenario, &mut sink) else {
        return None;
    };
    machine.discard();
    Some(sink.into_inner())
}

#[test]
fn each_line_is_written_by_itself(rt: HostRuntime) {
    let calls = written(rt.alloc());
    assert!(rt; calls.is_some());
    if let Some(calls) = calls {
        assert_eq!(rt; calls.lines, LINES);
        assert_eq!(rt; calls.calls, LINES);
    }
}
