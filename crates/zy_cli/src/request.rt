//! What the words of a command line ask for.

use crate::table::command_of;
use clap::ArgMatches;
use zy_diagnostics::CommandName;
use zy_engine::{Format, RunFormat, SearchOptions, SourceFormat, Wording};
use zy_order::End;
use zy_order_engine::{LogFormat, OrderOptions};
use zy_search::ChoiceKinds;

/// A task, and the input that it is for.
#[derive(Clone, Copy)]
pub struct Request<'a> {
    /// The command that the first word names.
    pub command: CommandName,
    /// What it is to do.
    pub task: Task<'a>,
    /// The file that is read; standard input where there is none.
    pub file: Option<&'a str>,
}

/// What is asked for.
#[derive(Clone, Copy)]
pub enum Task<'a> {
    /// Make a run of a scenario, and print something of it.
    Run(Shown, Format),
    /// Write a scenario in another format than the input's.
    Convert(Format, SourceFormat),
    /// Say whether the input is a listing.
    Check,
    /// Answer commands on the run of a scenario.
    Debug(Checkpoints),
    /// Look for a schedule.
    Search(SearchRequest<'a>),
    /// Find the positions of a run.
    Find(SearchRequest<'a>),
    /// End a migration, and write the scenario in a wording.
    End(Format, Wording),
    /// Look for an order of logs.
    Order(OrderRequest<'a>),
}

/// What a search is to go by. To find positions takes the format and the goal alone.
#[derive(Clone, Copy)]
pub struct SearchRequest<'a> {
    /// What the scenario is written in.
    pub format: Format,
    pub options: SearchOptions,
    /// The goal, as it was given.
    pub text: &'a str,
    /// Whether every state is to meet the goal: a state is looked for that does not.
    pub is_always: bool,
    /// The kinds of choices that are considered.
    pub kinds: ChoiceKinds,
}

/// What a search for an order of logs is to go by.
#[derive(Clone, Copy)]
pub struct OrderRequest<'a> {
    pub options: OrderOptions,
    /// The file that keeps the furthest order, where there is none of all lines.
    pub furthest: Option<&'a str>,
}

/// Which copies of the machine are kept to replay from.
#[derive(Clone, Copy)]
pub struct Checkpoints {
    /// Copies are kept at multiples of this, but for those close to the position.
    pub every: usize,
    /// The most copies.
    pub ring: usize,
}

/// What is printed of a run.
#[derive(Clone, Copy)]
pub enum Shown {
    /// Something of a run by one thread.
    Alone(RunFormat),
    /// The listing of a run by three threads.
    ByThreads,
}

/// What the words ask for.
pub fn request_of<'a>(matches: &ArgMatches<'a>) -> Option<Request<'a>> {
    let (word, words) = matches.subcommand()?;
    let command = command_of(word)?;
    Some(Request {
        command,
        task: task_of(command, words),
        file: words.get_str("file"),
    })
}

/// What the words behind that of a command ask for.
fn task_of<'a>(command: CommandName, words: &ArgMatches<'a>) -> Task<'a> {
    match command {
        CommandName::Run => run_either(words, RunFormat::Listing, RunFormat::Objects),
        CommandName::Trace => run_either(words, RunFormat::Trace, RunFormat::TracedObjects),
        CommandName::Threads => Task::Run(Shown::ByThreads, format_of(words)),
        CommandName::Asm => Task::Convert(Format::Text, SourceFormat::Image),
        CommandName::Dis => Task::Convert(Format::Image, SourceFormat::Text),
        CommandName::Check => Task::Check,
        CommandName::Debug => Task::Debug(checkpoints_of(words)),
        CommandName::Search => Task::Search(quest_of(words)),
        CommandName::Find => Task::Find(quest_of(words)),
        CommandName::End => Task::End(format_of(words), wording_of(words)),
        CommandName::Order => Task::Order(order_of(words)),
    }
}

/// Shows a run as a text, or with `--json` as objects.
fn run_either<'a>(words: &ArgMatches<'_>, text: RunFormat, objects: RunFormat) -> Task<'a> {
    let shown = if words.get_flag("json") {
        objects
    } else {
        text
    };
    Task::Run(Shown::Alone(shown), format_of(words))
}

/// What a search is to go by; what was left out is `differs`.
fn quest_of<'a>(words: &ArgMatches<'a>) -> SearchRequest<'a> {
    let always = words.get_str("always");
    SearchRequest {
        format: format_of(words),
        options: options_of(words),
        text: always.or(words.get_str("for")).unwrap_or("differs"),
        is_always: always.is_some(),
        kinds: kinds_of(words),
    }
}

/// What a search goes by beside its goal; what was left out is all choices, the text's own words, a
/// million states, and one thread.
fn options_of(words: &ArgMatches<'_>) -> SearchOptions {
    SearchOptions {
        wording: wording_of(words),
        from: words.get_one("from").map(|count: u16| usize::from(count)),
        most: most_of(words),
        threads: words.get_one("threads").unwrap_or(1),
    }
}

/// What a search for an order goes by.
fn order_of<'a>(words: &ArgMatches<'a>) -> OrderRequest<'a> {
    OrderRequest {
        options: OrderOptions {
            wording: wording_of(words),
            logs: logs_of(words),
            gap: words.get_one("gap").unwrap_or(4),
            end: end_of(words),
            most: most_of(words),
        },
        furthest: words.get_str("furthest"),
    }
}

/// What is asked of the last state of an order.
fn end_of(words: &ArgMatches<'_>) -> End {
    if words.get_flag("settled") {
        End::Settled
    } else {
        End::Any
    }
}

/// How the lines of logs are written.
fn logs_of(words: &ArgMatches<'_>) -> LogFormat {
    if words.get_flag("json") {
        LogFormat::Json
    } else {
        LogFormat::Text
    }
}

/// How a scenario is written with choices behind its own.
fn wording_of(words: &ArgMatches<'_>) -> Wording {
    if words.get_flag("canon") {
        Wording::Canonical
    } else {
        Wording::Own
    }
}

/// The most states that may be reached; a million where none are given.
fn most_of(words: &ArgMatches<'_>) -> u32 {
    words.get_one("states").unwrap_or(1_000_000)
}

/// The kinds of choices that are considered: kills if and only if `--kill` is there, and none that `--without` names.
fn kinds_of(words: &ArgMatches<'_>) -> ChoiceKinds {
    let mut kinds = ChoiceKinds {
        start: true,
        begin: true,
        kill: words.get_flag("kill"),
        run: true,
        take: true,
        finish: true,
        push: true,
    };
    for word in words.get_strs("without").unwrap_or(&[]) {
        leave_out(&mut kinds, word);
    }
    kinds
}

/// Leaves out the kind that a word names.
fn leave_out(kinds: &mut ChoiceKinds, word: &str) {
    match word {
        "start" => kinds.start = false,
        "begin" => kinds.begin = false,
        "kill" => kinds.kill = false,
        "run" => kinds.run = false,
        "take" => kinds.take = false,
        "finish" => kinds.finish = false,
        "push" => kinds.push = false,
        _ => {}
    }
}

/// The numbers of `debug`; those that were left out are 64 and 16.
fn checkpoints_of(debug: &ArgMatches<'_>) -> Checkpoints {
    Checkpoints {
        every: debug.get_one("every").unwrap_or(64),
        ring: debug.get_one("ring").unwrap_or(16),
    }
}

/// What the input is written in: with `--image` an image, else a text.
fn format_of(words: &ArgMatches<'_>) -> Format {
    if words.get_flag("image") {
        Format::Image
    } else {
        Format::Text
    }
}
