//! Tests calls of the libraries while a request for memory is refused (tests/library-refusals). `zy_alloc_failures NAME < INPUT`
//! makes the calls of a sweep and prints what it found.
#![tactic(auto)]

mod parts;
mod scenes;
mod sweeping;
mod workers;

use crate::scenes::{Apart, Lines, Session, Setting, Verifying};
use crate::sweeping::{Answers, Trouble, setup, sweep};
use crate::workers::sweep_workers;
use std::alloc::Global;
use std::env::Env;
use std::process::ExitCode;
use std::sync::Wait;
use std::thread::Threads;
use zy_io::CountingReader;
use zy_io::reading::read_all;
use zy_links::Link;
use zy_locks::Locks;
use zy_threads::Board;
use zy_txns::Txn;
use zy_wire::Wire;

/// How many turns of a loop a delayed step of B waits.
const TURNS: u64 = 100;

/// Makes the sweep of this name. Sweeps of parts need no input. The others need a scenario's text; `command` needs commands
/// below it.
fn swept<R: Threads + Wait + Sync>(
    rt: &R,
    name: &str,
    alloc: Global,
    input: &[u8],
) -> Result<Answers, Trouble> {
    match name {
        "verify" => sweep::<Verifying>(alloc, input),
        "step_next" => sweep::<Board>(alloc, input),
        "step_apart" => sweep::<Apart>(alloc, input),
        "set_to" => sweep::<Setting>(alloc, input),
        "command" => sweep::<Session>(alloc, input),
        "lines" => sweep::<Lines>(alloc, input),
        "wire_grow" => sweep::<Wire>(alloc, input),
        "try_lock" => sweep::<Locks>(alloc, input),
        "link_reserve" => sweep::<Link>(alloc, input),
        "txn_put" => sweep::<Txn>(alloc, input),
        "run_threads" => sweep_workers(rt, alloc, input, 0),
        "run_threads_slowly" => sweep_workers(rt, alloc, input, TURNS),
        _ => Err(Trouble::Fault),
    }
}

/// The words of the command line.
fn words<R: AllocGlobal + Env>(rt: &R) -> Result<Vec<String>, Trouble> {
    let Ok(args) = std::env::args(rt) else {
        return Err(Trouble::Setup);
    };
    args.collect(rt.alloc()).map_err(|_| Trouble::Setup)
}

/// Makes the sweep that the first argument names, over the input.
fn asked<R: Input + AllocGlobal + Env + Threads + Wait + Sync>(rt: &R) -> Result<Answers, Trouble> {
    let words = words(rt)?;
    let Some(name) = words.get(1) else {
        return Err(Trouble::Fault);
    };
    let mut source = CountingReader::new(rt.reader());
    let input = setup(read_all(rt.alloc(), &mut source))?;
    swept(rt, name.as_str(), rt.alloc(), input.as_slice())
}

/// Prints the result of a sweep.
fn print(rt: &impl Print, found: Result<Answers, Trouble>) -> std::io::Result<()> {
    match found {
        Ok(
            Answers {
                count,
                again: false,
            },
        ) => println!(rt; "{count} answered"),
        Ok(Answers { count, .. }) => println!(rt; "{count} answered, one when it was made again"),
        Err(trouble) => println!(rt; "{}", trouble.words()),
    }
}

fn main(rt: HostRuntime) -> ExitCode {
    match print(&rt, asked(&rt)) {
        Ok(()) => ExitCode::from(0),
        Err(_) => ExitCode::from(1),
    }
}
