//! The commands `search` and `find`: a goal is read, and answered.
ghost use Rattle.std.specs.Prelude.{◌<◌};

use crate::output::{Output, pass};
use std::alloc::{AllocError, Global};
use std::fmt;
use std::io::{Read, Write};
use std::thread::Threads;
use std::time::Clock;
use zy_asm::names::names_of;
use zy_cli::exit_status::{COMMAND_LINE, DONE, NOWHERE, SPENT};
use zy_cli::request::SearchRequest;
use zy_engine::finding::find_input;
use zy_engine::searching::{run_taken, search_input};
use zy_engine::{AcceptedInput, BenchFault, Format, Question, SearchOptions};
use zy_goals::footprint::takes_steps;
use zy_goals::named::{Named, named_by};
use zy_io::CountingReader;
use zy_io::reading::read_all;
use zy_isa::{Choice, Scenario};
use zy_machine::Machine;
use zy_queries::reading::{read_always, read_goal};
use zy_queries::{GoalFault, Names};
use zy_report::explained::{explain, went_from};
use zy_report::progress::Progress;
use zy_report::refused_goal::RefusedGoal;
use zy_report::summary::{Count, Summary};
use zy_report::way_out::tell_way_out;
use zy_search::{SearchAnswer, SearchReport, Sought};

/// What a search is to look for, in a scenario whose transactions have these names.
fn sought_of(
    alloc: Global,
    request: SearchRequest<'_>,
    names: Names<'_>,
) -> Result<Sought, GoalFault> {
    let text = request.text.as_bytes();
    let read = if request.is_always {
        read_always(alloc, text, names)
    } else {
        read_goal(alloc, text, names)
    };
    let query = read?;
    Ok(Sought {
        goal: query.goal,
        then: query.then,
        kinds: request.kinds,
    })
}

/// Reports on standard error why a goal was not read, and returns the exit status.
fn no_goal(
    rt: &impl Eprint,
    request: SearchRequest<'_>,
    fault: GoalFault,
) -> Result<u8, BenchFault> {
    match fault {
        GoalFault::Memory => Err(BenchFault::Memory),
        GoalFault::Refused(refusal) => {
            let refused = RefusedGoal::of(request.text, request.is_always, refusal);
            let _ = eprintln!(rt; "zy_bench: {refused}");
            Ok(COMMAND_LINE)
        }
    }
}

/// What to answer about the states that meet a goal.
#[derive(Clone, Copy)]
pub enum AnswerKind {
    /// A schedule to one of them. Standard error may be a terminal, which sees how far the search is.
    Schedule { is_terminal: bool },
    /// Where they are in a run.
    Positions,
}

/// Reads a goal, answers what is asked, and returns the exit status. Where the goal is rejected, nothing is read, but for the
/// names of transactions, which the scenario has.
pub fn answer<R: Eprint + AllocGlobal + Clock + Threads + Sync, G: Read, W: Write>(
    rt: &R,
    kind: AnswerKind,
    request: SearchRequest<'_>,
    given: &mut G,
    input: &mut Vec<u8>,
    output: &mut Output<W>,
) -> Result<u8, BenchFault>
    requires { output.old.sink.1 < u64.MAX }
{
    if let Some(fault) = sought_of(rt.alloc(), request, Names::Unknown).err() {
        return no_goal(rt, request, fault);
    }
    *input = read_all(rt.alloc(), &mut CountingReader::new(given))?;
    answer_read(rt, kind, request, input.as_slice(), output)
}

/// Answers what is asked of an input that was read, and returns the exit status.
fn answer_read<R: Eprint + AllocGlobal + Clock + Threads + Sync, W: Write>(
    rt: &R,
    kind: AnswerKind,
    request: SearchRequest<'_>,
    bytes: &[u8],
    output: &mut Output<W>,
) -> Result<u8, BenchFault>
    requires { output.old.sink.1 < u64.MAX }
{
    let input = AcceptedInput::of(rt.alloc(), request.format, bytes)?;
    let sought = match sought_in(rt.alloc(), request, &input)? {
        Ok(sought) => sought,
        Err(fault) => return no_goal(rt, request, fault),
    };
    warn(rt, &input.scenario, named_by(&sought.goal, sought.then));
    match kind {
        AnswerKind::Schedule { is_terminal } => {
            search(rt, request, sought, &input, output, is_terminal)
        }
        AnswerKind::Positions => find(rt, sought, &input, output),
    }
}

/// What is looked for in a scenario, or why its goal is not read. The transactions of an image have no names.
fn sought_in(
    alloc: Global,
    request: SearchRequest<'_>,
    input: &AcceptedInput<'_>,
) -> Result<Result<Sought, GoalFault>, AllocError> {
    let names = match input.format {
        Format::Text => names_of(alloc, input.bytes)?,
        Format::Image => Vec::new(alloc),
    };
    Ok(sought_of(alloc, request, Names::Known(&names)))
}

/// How many choices a scenario has, where there are fewer than those that a search is to take as steps already taken.
fn lacking(options: SearchOptions, scenario: &Scenario) -> Option<Count> {
    let count = scenario.choices().len();
    if count < options.from? {
        return Some(Count::of(count, "choice"));
    }
    None
}

/// Searches the schedules of a scenario, if it has the steps that are to be taken, and returns the exit status. It says how far it is
/// where standard error is a terminal.
fn search<R: Eprint + AllocGlobal + Clock + Threads + Sync, W: Write>(
    rt: &R,
    request: SearchRequest<'_>,
    sought: Sought,
    input: &AcceptedInput<'_>,
    output: &mut Output<W>,
    is_terminal: bool,
) -> Result<u8, BenchFault>
    requires { output.old.sink.1 < u64.MAX }
{
    let options = request.options;
    if let Some(count) = lacking(options, &input.scenario) {
        let _ = eprintln!(rt; "zy_bench: --from: the scenario has {count}");
        return Ok(COMMAND_LINE);
    }
    let machine = run_taken(rt.alloc(), input, options.from)?;
    let mut progress = Progress::new(rt, is_terminal);
    let is_of_waits = takes_steps(&sought.goal);
    let question = Question { options, sought };
    let watch = &mut progress;
    let searched = search_input(rt, rt.alloc(), input, question, &machine, output, watch);
    progress.clear();
    let told = match searched {
        Ok(report) => tell_answer(rt, request, is_of_waits, &machine, &report, output),
        Err(fault) => Err(BenchFault::from(fault)),
    };
    machine.discard();
    told
}

/// Ends the output of a search from a machine, reports on standard error what came of it, and returns the exit status.
/// `is_of_waits` says that its goal has `stuck` or `deadlock`.
fn tell_answer<R: Eprint + AllocGlobal, W: Write>(
    rt: &R,
    request: SearchRequest<'_>,
    is_of_waits: bool,
    machine: &Machine,
    report: &SearchReport,
    output: &mut Output<W>,
) -> Result<u8, BenchFault>
    requires { output.old.sink.1 < u64.MAX }
{
    pass(output)?;
    let summary = Summary::of(report, request.kinds, request.is_always);
    let _ = eprintln!(rt; "zy_bench: {summary}");
    Ok(match &report.answer {
        SearchAnswer::Found(path) => {
            comment_found(rt, is_of_waits, machine, path);
            DONE
        }
        SearchAnswer::Nowhere => NOWHERE,
        SearchAnswer::Spent(_) => SPENT,
    })
}

/// Makes the choices that a search has found from a machine, and says on standard error which order explains the rows where that
/// of the commits does not, and of a goal with `stuck` or `deadlock` how the migration ends from there. Out of memory it says
/// nothing.
fn comment_found<R: Eprint + AllocGlobal>(
    rt: &R,
    is_of_waits: bool,
    machine: &Machine,
    found: &[Choice],
) {
    if let Ok(machine) = went_from(rt.alloc(), machine, found) {
        explain(rt, &machine);
        if is_of_waits {
            tell_way_out(rt, &machine);
        }
        machine.discard();
    }
}

/// Writes the positions of a scenario's run at which its state shows what is looked for, and returns the exit status.
fn find<R: AllocGlobal, W: Write>(
    rt: &R,
    sought: Sought,
    input: &AcceptedInput<'_>,
    output: &mut Output<W>,
) -> Result<u8, BenchFault>
    requires { output.old.sink.1 < u64.MAX }
{
    let count = find_input(rt.alloc(), input, &sought, output)?;
    pass(output)?;
    Ok(if count == 0 { NOWHERE } else { DONE })
}

/// Warns on standard error where a goal names a transaction or a page that a scenario does not have.
fn warn(rt: &impl Eprint, scenario: &Scenario, named: Named) {
    warn_of(rt, "transaction", named.txns, scenario.programs().len());
    warn_of(rt, "page", named.pages, usize::from(scenario.pages()));
}

/// Warns of one of these, of which there are `count`, where it takes `named` of them for the goal to name no others.
fn warn_of(rt: &impl Eprint, word: &str, named: usize, count: usize) {
    if count < named {
        let last = named.saturating_sub(1);
        let has = Has(count);
        let _ = eprintln!(rt; "zy_bench: the goal names {word} {last}, and the scenario has {has}");
    }
}

/// How many transactions or pages a scenario has, and so which numbers are valid.
#[derive(Clone, Copy)]
struct Has(usize);

impl fmt::Display for Has {
    fn fmt<W: fmt::Write>(&self, f: &mut fmt::Formatter<W>) -> fmt::Result {
        match self.0 {
            0 => f.write_str("none"),
            count => write!(f, "only those below {count}"),
        }
    }
}
