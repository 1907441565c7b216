//! `zy_bench`: runs transaction programs on a migrating store under any schedule.
#![tactic(auto)]

ghost use Rattle.std.specs.Prelude.{◌<◌};

mod answering;
mod checking;
mod debugging;
mod ending;
mod given;
mod keeping;
mod ordering;
mod output;
mod running;

use answering::{AnswerKind, answer};
use checking::check;
use clap::ArgMatches;
use clap::error::ErrorKind;
use debugging::debug;
use ending::end;
use given::Given;
use ordering::{OrderCaller, order};
use output::{Output, output_to, pass_rest};
use running::{convert, run};
use std::alloc::Global;
use std::io::{IsTerminal, Read, Write};
use std::process::ExitCode;
use std::rt::{Env, Files};
use std::sync::Wait;
use std::thread::Threads;
use std::time::Clock;
use std::{fs, io};
use zy_cli::command::command;
use zy_cli::exit_status::{COMMAND_LINE, DONE};
use zy_cli::request::request_of;
use zy_cli::{Hint, Request, Task};
use zy_engine::BenchFault;
use zy_report::failure::Failure;
use zy_report::fault_message::{FaultMessage, InputRead};
use zy_report::origin::Origin;

/// Reports a fault on standard error, and returns the exit status.
fn tell(rt: &impl Eprint, fault: BenchFault) -> u8 {
    let _ = eprintln!(rt; "zy_bench: {fault}");
    fault.status()
}

/// Reports on standard error why the words could not be read, and returns the exit status.
fn no_words(rt: &impl Eprint, error: &io::Error) -> u8 {
    if error.kind() == io::ErrorKind::OutOfMemory {
        return tell(rt, BenchFault::Memory);
    }
    let _ = eprintln!(rt; "zy_bench: the words of the command line are UTF-8");
    COMMAND_LINE
}

/// Prints the help, the version, or what is wrong with the command line, and returns the exit status.
fn say(rt: &(impl Print + Eprint), said: &clap::Error) -> u8 {
    let printed = said.print(rt);
    if said.use_stderr() {
        return COMMAND_LINE;
    }
    match printed {
        Ok(()) => DONE,
        Err(error) => match error.kind() {
            io::ErrorKind::BrokenPipe => BenchFault::Write.status(),
            io::ErrorKind::OutOfMemory => tell(rt, BenchFault::Memory),
            _ => tell(rt, BenchFault::Write),
        },
    }
}

/// What a request reads: its file, otherwise standard input; `debug` reads standard input after its file.
fn open<R: Input + Files>(
    rt: &R,
    request: Request<'_>,
) -> Result<Given<R::File, R::Reader>, Failure> {
    let Some(path) = request.file else {
        return Ok(Given::new(None, Some(rt.reader())));
    };
    let standard = match request.task {
        Task::Debug(_) => Some(rt.reader()),
        _ => None,
    };
    match fs::open(rt, path) {
        Ok(file) => Ok(Given::new(Some(file), standard)),
        Err(error) => Err(Failure::of(&error, true)),
    }
}

/// Carries a request out, and returns the exit status.
fn carry_out<R: Print + Eprint + Input + Files + AllocGlobal + Clock + Threads + Wait + Sync>(
    rt: &R,
    request: Request<'_>,
    is_terminal: bool,
) -> u8 {
    let Ok(mut output) = output_to(rt.alloc(), io::writer(rt)) else {
        return tell(rt, BenchFault::Memory);
    };
    let status = write_answer(rt, request, is_terminal, &mut output);
    pass_rest(&mut output);
    status
}

/// Opens what a request reads, carries it out, and returns the exit status.
fn write_answer<R: Eprint + Input + Files + AllocGlobal + Clock + Threads + Wait + Sync, W: Write>(
    rt: &R,
    request: Request<'_>,
    is_terminal: bool,
    output: &mut Output<W>,
) -> u8
    requires { output.old.sink.1 < u64.MAX }
{
    match open(rt, request) {
        Ok(mut given) => answer_given(rt, request, is_terminal, &mut given, output),
        Err(failure) => {
            let origin = Origin::of(request.file);
            let _ = eprintln!(rt; "{origin}: Read: {failure}");
            BenchFault::Read.status()
        }
    }
}

/// Carries a request out on what it is given to read, reports a fault and what to do about it, and returns the exit status.
fn answer_given<
    R: Eprint + Files + AllocGlobal + Clock + Threads + Wait + Sync,
    F: Read + Drop,
    S: Read,
    W: Write,
>(
    rt: &R,
    request: Request<'_>,
    is_terminal: bool,
    given: &mut Given<F, S>,
    output: &mut Output<W>,
) -> u8
    requires { output.old.sink.1 < u64.MAX }
{
    let mut input = Vec::new(rt.alloc());
    match perform(rt, request, is_terminal, given, &mut input, output) {
        Ok(status) => status,
        Err(BenchFault::Write) if output.sink().is_unread() => BenchFault::Write.status(),
        Err(fault) => {
            let message = FaultMessage::of(reading_of(request, given, input.as_slice()), fault);
            let _ = eprintln!(rt; "{message}");
            fault.status()
        }
    }
}

/// Performs the task of a request, and returns the exit status.
fn perform<
    R: Eprint + Files + AllocGlobal + Clock + Threads + Wait + Sync,
    F: Read + Drop,
    S: Read,
    W: Write,
>(
    rt: &R,
    request: Request<'_>,
    is_terminal: bool,
    given: &mut Given<F, S>,
    input: &mut Vec<u8>,
    output: &mut Output<W>,
) -> Result<u8, BenchFault>
    requires { output.old.sink.1 < u64.MAX }
{
    let file = request.file;
    match request.task {
        Task::Run(shown, format) => run(rt, shown, format, given, input, output),
        Task::Convert(from, to) => convert(rt, from, to, given, input, output),
        Task::Check => check(rt, file, given, input, output),
        Task::Debug(checkpoints) => debug(rt, checkpoints, file, given, input, output),
        Task::Search(search) => {
            let kind = AnswerKind::Schedule { is_terminal };
            answer(rt, kind, search, given, input, output)
        }
        Task::Find(search) => answer(rt, AnswerKind::Positions, search, given, input, output),
        Task::End(format, wording) => end(rt, format, wording, given, input, output),
        Task::Order(logs) => {
            let caller = OrderCaller { file, is_terminal };
            order(rt, logs, caller, given, input, output)
        }
    }
}

/// What a request has read.
fn reading_of<'a, F: Drop, S>(
    request: Request<'a>,
    given: &Given<F, S>,
    bytes: &'a [u8],
) -> InputRead<'a> {
    let lines = match request.task {
        Task::Debug(_) => Some(given.lines()),
        _ => None,
    };
    InputRead {
        command: request.command,
        file: request.file,
        lines,
        bytes,
        failure: given.failure(),
    }
}

/// What these words say.
fn parse<'a>(alloc: Global, words: &'a [String]) -> Result<ArgMatches<'a>, clap::Error> {
    command(alloc)?.try_get_matches_from(words)
}

/// The exit status of a run with these words, where standard error may be a terminal.
fn status<'a, R: Print + Eprint + Input + Files + AllocGlobal + Clock + Threads + Wait + Sync>(
    rt: &R,
    words: &'a [String],
    is_terminal: bool,
) -> u8 {
    match parse(rt.alloc(), words) {
        Ok(matches) => match request_of(&matches) {
            Some(request) => carry_out(rt, request, is_terminal),
            None => COMMAND_LINE,
        },
        Err(said) => refuse(rt, &said, words),
    }
}

/// Prints what there is in place of matches, and a hint, and returns the exit status.
fn refuse<'a>(rt: &(impl Print + Eprint), said: &clap::Error, words: &'a [String]) -> u8 {
    if said.kind() == ErrorKind::OutOfMemory {
        return tell(rt, BenchFault::Memory);
    }
    let status = say(rt, said);
    if let Some(hint) = Hint::of(said.kind(), words) {
        let _ = eprintln!(rt; "zy_bench: {hint}");
    }
    status
}

/// The exit status of a run with the words that it was started with, where standard error may be a terminal.
fn run_words<R: Print + Eprint + Input + Env + Files + AllocGlobal + Clock + Threads + Wait + Sync>(
    rt: &R,
    is_terminal: bool,
) -> u8 {
    match std::env::args(rt) {
        Ok(args) => match args.collect::<Vec<String>>(rt.alloc()) {
            Ok(words) => status(rt, words.as_slice(), is_terminal),
            Err(_) => tell(rt, BenchFault::Memory),
        },
        Err(error) => no_words(rt, &error),
    }
}

fn main(rt: HostRuntime) -> ExitCode {
    let is_terminal = rt.stderr().is_terminal();
    ExitCode::from(run_words(&rt, is_terminal))
}
