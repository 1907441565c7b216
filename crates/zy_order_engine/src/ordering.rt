//! The engine that looks for an order of logs.
ghost use Rattle.std.specs.Prelude.{◌≡◌, ◌<◌, ◌≤◌, None, length, IfErr, IfOk};
ghost use Rattle.zy_io.specs.Streams.{max_input};
ghost use Rattle.zy_io.specs.Inputs.{ReadsInput, streams};
ghost use Rattle.zy_engine.specs.Searching.{history_of, WroteSome};
ghost use Rattle.zy_engine.specs.declared.faults.BenchFault.TheVariants.{Memory};
ghost use Rattle.zy_order_engine.specs.Faults.{of_reading};
ghost use Rattle.zy_order_engine.specs.Ordering.{Answers, CanFollow, HasRun, IsAnswerOf, IsTextOf, WroteOrder};

use crate::faults::OrderFault;
use crate::logs_below::{read_below, steps};
use crate::missing::gaps;
use crate::options::OrderOptions;
use std::alloc::Global;
use zy_engine::format::{accept, split_scenario};
use zy_engine::searching::write_found;
use zy_engine::{BenchFault, Format, Wording};
use zy_io::reading::read_all;
use zy_io::{Sink, Source, TextFault};
use zy_isa::Scenario;
use zy_logs::NumberedLine;
use zy_machine::Machine;
use zy_order::order::order;
use zy_order::{OrderAnswer, OrderReport, Watch};

/// Writes what goes out of an answer: of a machine that has made all choices of its scenario, whose text is at hand.
fn write_answer<K: Sink>(
    alloc: Global,
    wording: Wording,
    text: &[u8],
    machine: &Machine,
    answer: &OrderAnswer,
    sink: &mut K,
) -> Result<(), TextFault>
    requires ran { machine.now ≡ history_of None machine.now.scenario }
    requires calls { (K.sent sink.old).failures < u64.MAX }
    ensures { WroteSome (IsTextOf wording machine.now.scenario answer.now)
        (K.sent sink.old) (K.sent sink.new) result }
{
    match answer {
        OrderAnswer::Found(path) => write_found(alloc, wording, text, machine, path, sink),
        OrderAnswer::OtherEnd(_) => Ok(()),
        OrderAnswer::Nowhere(_) => Ok(()),
        OrderAnswer::Spent(_) => Ok(()),
    }
}

/// What came of a search for an order, and what it was made of.
#[derive(Drop)]
pub struct OrderedLogs {
    /// What came of it.
    pub report: OrderReport,
    /// A machine that has made all choices of the scenario.
    pub machine: Machine,
    /// The lines of the logs, each with its number in the whole input.
    pub lines: Vec<NumberedLine>,
}

/// A machine that has made all choices of its scenario, with the scenario's own text and the lines of logs below it.
#[derive(Clone, Copy)]
struct LoggedRun<'a> {
    text: &'a [u8],
    machine: &'a Machine,
    lines: &'a [NumberedLine],
}

/// Looks for an order of the lines of logs behind the choices of a machine, and writes what goes out of the answer.
fn order_from<K: Sink, W: Watch>(
    alloc: Global,
    options: OrderOptions,
    run: LoggedRun<'_>,
    sink: &mut K,
    watch: &mut W,
) -> Result<OrderReport, TextFault>
    requires ran { run.machine.now ≡ history_of None run.machine.now.scenario }
    requires input { CanFollow run.machine.now options.gap run.lines.now }
    requires calls { (K.sent sink.old).failures < u64.MAX }
    ensures { WroteOrder (IsAnswerOf options run.entry.machine.now.scenario run.entry.lines.now)
        (K.sent sink.old) (K.sent sink.new) result }
{
    let steps = steps(alloc, run.lines)?;
    let gaps = gaps(alloc, options.gap, run.lines)?;
    let report = order(
        alloc,
        run.machine,
        &steps,
        gaps,
        options.end,
        options.most,
        watch,
    )?;
    write_answer(
        alloc,
        options.wording,
        run.text,
        run.machine,
        &report.answer,
        sink,
    )?;
    Ok(report)
}

/// A machine that has made all choices of a scenario.
fn run(alloc: Global, scenario: Scenario) -> Result<Machine, BenchFault>
    ensures run { IfOk result (λ m. m ≡ history_of None scenario) }
    ensures fault { IfErr result (λ f. f ≡ Memory) }
{
    let machine = Machine::run_all(alloc, scenario)?;
    Ok(machine)
}

/// Answers an input: a scenario text through its first line whose only word is `end`, and below it lines of three logs, mixed in
/// any way. The scenario's own choices are steps already taken. Looks for an order of the logs behind them, and where there is
/// one, the scenario goes out with its choices and those of the order behind them; else nothing does. The watch learns how far
/// the search is.
pub fn order_input<K: Sink, W: Watch>(
    alloc: Global,
    options: OrderOptions,
    input: &[u8],
    sink: &mut K,
    watch: &mut W,
) -> Result<OrderedLogs, OrderFault>
    requires few { length input.now ≤ max_input }
    requires calls { (K.sent sink.old).failures < u64.MAX }
    ensures answers { Answers options input.now (K.sent sink.old) (K.sent sink.new) result }
    ensures run { IfOk result (λ r. HasRun input.now r.machine) }
{
    let (text, below) = split_scenario(input);
    let scenario = accept(alloc, Format::Text, text)?;
    let lines = read_below(alloc, options.logs, options.gap, &scenario, text, below)?;
    let machine = run(alloc, scenario)?;
    let run = LoggedRun {
        text,
        machine: &machine,
        lines: &lines,
    };
    match order_from(alloc, options, run, sink, watch) {
        Ok(report) => Ok(OrderedLogs {
            report,
            machine,
            lines,
        }),
        Err(fault) => {
            machine.discard();
            Err(OrderFault::from(fault))
        }
    }
}

/// Reads an input whole, and then does what `order_input` does. The bytes that were read are left in `input`.
pub fn order_bytes<S: Source, K: Sink, W: Watch>(
    alloc: Global,
    options: OrderOptions,
    source: &mut S,
    sink: &mut K,
    input: &mut Vec<u8>,
    watch: &mut W,
) -> Result<OrderedLogs, OrderFault>
    requires { ((S.pulled source.old).failures < u64.MAX) × ((K.sent sink.old).failures < u64.MAX) }
    ensures answers { let at = streams S.pulled K.sent in
        ReadsInput of_reading (Answers options) (at source.old sink.old) (at source.new sink.new) result }
    ensures run { IfOk result (λ r. HasRun input.new.items r.machine) }
{
    *input = read_all(alloc, source)?;
    order_input(alloc, options, input.as_slice(), sink, watch)
}
