//! The command `order`: logs are read, and an order of them is looked for.
ghost use Rattle.std.specs.Prelude.{◌≡◌, ◌<◌, None};
ghost use Rattle.zy_engine.specs.Searching.{history_of};

use crate::keeping::Keeper;
use crate::output::{Output, pass};
use std::fmt;
use std::io::{Read, Write};
use std::rt::Files;
use std::time::Clock;
use zy_cli::exit_status::{DONE, NOWHERE, OTHER_END, SPENT};
use zy_cli::request::OrderRequest;
use zy_engine::BenchFault;
use zy_engine::format::split_scenario;
use zy_io::CountingReader;
use zy_logs::LogLineFault;
use zy_order::{End, OrderAnswer};
use zy_order_engine::ordering::order_bytes;
use zy_order_engine::{LogFormat, OrderFault, OrderedLogs};
use zy_report::furthest::{Furthest, Steps};
use zy_report::other_end::tell_unsettled;
use zy_report::progress::Progress;
use zy_report::refused_line::RefusedLine;
use zy_report::refused_object::{RefusedObject, ToldLine};
use zy_report::summary::Count;

/// What an order is asked for with, beside its logs.
#[derive(Clone, Copy)]
pub struct OrderCaller<'a> {
    /// The file that has the input, if it is not standard input.
    pub file: Option<&'a str>,
    /// Whether standard error is a terminal.
    pub is_terminal: bool,
}

/// Looks for an order of the logs below a scenario, and returns the exit status. It says how far it is where standard
/// error is a terminal.
pub fn order<R: Eprint + Files + AllocGlobal + Clock, G: Read, W: Write>(
    rt: &R,
    request: OrderRequest<'_>,
    caller: OrderCaller<'_>,
    given: &mut G,
    input: &mut Vec<u8>,
    output: &mut Output<W>,
) -> Result<u8, BenchFault>
    requires { output.old.sink.1 < u64.MAX }
{
    let file = caller.file;
    let mut progress = Progress::new(rt, caller.is_terminal);
    let source = &mut CountingReader::new(given);
    let ordered = order_bytes(
        rt.alloc(),
        request.options,
        source,
        output,
        input,
        &mut progress,
    );
    progress.clear();
    match ordered {
        Ok(ordered) => tell_ordered(rt, request, file, input.as_slice(), &ordered, output),
        Err(fault) => refuse(rt, request.options.logs, file, input.as_slice(), fault),
    }
}

/// Ends the output of a search for an order, reports what came of it, and returns the exit status.
fn tell_ordered<R: Eprint + Files + AllocGlobal, W: Write>(
    rt: &R,
    request: OrderRequest<'_>,
    file: Option<&str>,
    input: &[u8],
    ordered: &OrderedLogs,
    output: &mut Output<W>,
) -> Result<u8, BenchFault>
    requires ran { ordered.now.machine ≡ history_of None ordered.now.machine.scenario }
    requires calls { output.old.sink.1 < u64.MAX }
{
    pass(output)?;
    let status = sum_up(rt, request, file, input, ordered)?;
    Ok(kept(rt, request, input, ordered).unwrap_or(status))
}

/// Says on standard error why a line of an input is not a line of a log, and returns the exit status; it returns any other fault.
fn refuse<R: Eprint + AllocGlobal>(
    rt: &R,
    logs: LogFormat,
    file: Option<&str>,
    input: &[u8],
    fault: OrderFault,
) -> Result<u8, BenchFault> {
    match fault {
        OrderFault::Bench(fault) => return Err(fault),
        OrderFault::Log(refusal) => tell_refused(rt, logs, file, input, refusal)?,
        OrderFault::Json(refusal) => tell(rt, RefusedObject::of(file, input, refusal)),
    }
    Ok(fault.status())
}

/// Says something on standard error.
fn tell<D: fmt::Display + Drop>(rt: &impl Eprint, said: D) {
    let _ = eprintln!(rt; "{said}");
}

/// Says on standard error why a line of an input, or the line that it tells, is not a line of a log.
fn tell_refused<R: Eprint + AllocGlobal>(
    rt: &R,
    logs: LogFormat,
    file: Option<&str>,
    input: &[u8],
    refusal: LogLineFault,
) -> Result<(), BenchFault> {
    match logs {
        LogFormat::Text => tell(rt, RefusedLine::of(file, input, refusal)),
        LogFormat::Json => {
            let told = ToldLine::of(rt.alloc(), input, refusal.line)?;
            tell(rt, told.refused(file, refusal));
        }
    }
    Ok(())
}

/// Keeps the furthest order, if a file is named for it, and returns the exit status where that fails.
fn kept<R: Eprint + Files + AllocGlobal>(
    rt: &R,
    request: OrderRequest<'_>,
    input: &[u8],
    ordered: &OrderedLogs,
) -> Option<u8>
    requires { ordered.now.machine ≡ history_of None ordered.now.machine.scenario }
{
    let keeper = Keeper {
        path: request.furthest?,
        wording: request.options.wording,
    };
    let (text, _) = split_scenario(input);
    keeper.keep(rt, text, ordered).err()
}

/// What stands before how far an order comes that may not be the furthest.
fn tried_by(end: End) -> &'static str {
    match end {
        End::Any => "no order was found, and the furthest that was tried takes",
        End::Settled =>
            "no order that ends settled was found, and the furthest that was tried takes",
    }
}

/// Reports on standard error what came of a search for an order, and returns the exit status.
fn sum_up<R: Eprint + AllocGlobal>(
    rt: &R,
    request: OrderRequest<'_>,
    file: Option<&str>,
    input: &[u8],
    ordered: &OrderedLogs,
) -> Result<u8, BenchFault> {
    let report = &ordered.report;
    let states = Count::of(report.states, "state");
    let (order, status, end, takes) = match &report.answer {
        OrderAnswer::Found(order) => {
            let steps = Steps::of(ordered, order.len());
            let _ = eprintln!(rt; "zy_bench: found after {states}: an order of {steps}");
            return Ok(DONE);
        }
        OrderAnswer::OtherEnd(order) => {
            tell_unsettled(rt, ordered, order)?;
            return Ok(OTHER_END);
        }
        OrderAnswer::Nowhere(order) => (order, NOWHERE, "there is no order,", "the furthest takes"),
        OrderAnswer::Spent(order) => (order, SPENT, "gave up", tried_by(request.options.end)),
    };
    let furthest = Furthest::of(rt.alloc(), request.options.logs, ordered, order)?;
    let reach = furthest.reach();
    let _ = eprintln!(rt; "zy_bench: {end} after {states}: {takes} {reach}");
    furthest.tell(rt, file, input);
    furthest.discard();
    Ok(status)
}
