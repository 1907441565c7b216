//! The engine that searches the schedules of a scenario.
ghost use Rattle.std.specs.Prelude.{◌≡◌, ◌≤◌, ◌<◌, ◌++◌, Some, take, length, IfOk, IfSome};
ghost use Rattle.zy_io.specs.Writing.{Wrote};
ghost use Rattle.zy_text.specs.Canon.{canon};
ghost use Rattle.zy_text.specs.Text.{Means};
ghost use Rattle.zy_threads.specs.Orders.{reordered};
ghost use Rattle.zy_engine.specs.declared.wording.Wording.TheVariants.{Own};
ghost use Rattle.zy_engine.specs.Searching.{history_of, IsTextOf, IsWorded, WroteAnswer, WroteSome};

use crate::accepted::AcceptedInput;
use crate::faults::BenchFault;
use crate::same::same_scenario;
use crate::wording::{Wording, reworded};
use std::alloc::{AllocError, Global};
use std::thread::Threads;
use zy_asm::assembling::assemble_bytes;
use zy_disasm::ScenarioHead;
use zy_io::{AllPieces, LineBuffer, MAX_INPUT, One, Section, Sink, TextFault, sections};
use zy_isa::{Choice, Scenario};
use zy_machine::replay::{advance_to, start};
use zy_machine::{Fault, Machine};
use zy_search::search::search;
use zy_search::{Limits, SearchAnswer, SearchReport, Sought, Watch};
use zy_text::Each;

/// What a search goes by, beside what it looks for.
#[derive(Clone, Copy)]
pub struct SearchOptions {
    /// How what is found is written. Of an image there is canonical text alone.
    pub wording: Wording,
    /// How many of the scenario's choices are steps already taken; all, where it is none or more than there are.
    pub from: Option<usize>,
    /// The most states that are kept, that of the start included. The one that is found is none of them.
    pub most: u32,
    /// How many threads look ahead. What comes of the search does not depend on it.
    pub threads: u32,
}

/// What a search is asked of a scenario.
#[derive(Drop)]
pub struct Question {
    /// What the search goes by.
    pub options: SearchOptions,
    /// What it looks for.
    pub sought: Sought,
}

/// The machine of a scenario that has made its first choices, or all where there are fewer.
fn run_first(alloc: Global, scenario: Scenario, count: usize) -> Result<Machine, Fault>
    ensures { IfOk result (λ m. m ≡ history_of (Some count) scenario) }
{
    let mut machine = start(alloc, scenario)?;
    let target = count.min(machine.scenario().choices().len());
    match advance_to(&mut machine, target) {
        Ok(()) => Ok(machine),
        Err(fault) => {
            machine.discard();
            Err(fault)
        }
    }
}

/// A machine of the scenario of an input that has made the choices which are steps already taken.
pub fn run_taken(
    alloc: Global,
    input: &AcceptedInput<'_>,
    from: Option<usize>,
) -> Result<Machine, Fault>
    ensures { IfOk result (λ m. m ≡ history_of from input.now.scenario) }
{
    let scenario = input.scenario.copy(alloc)?;
    match from {
        None => Machine::run_all(alloc, scenario),
        Some(count) => run_first(alloc, scenario, count),
    }
}

/// Choices, and more behind them.
fn joined(alloc: Global, choices: &[Choice], more: &[Choice]) -> Result<Vec<Choice>, AllocError>
    ensures { IfOk result (λ v. v.items ≡ choices.now ++ more.now) }
{
    let mut joined = choices.to_vec(alloc)?;
    joined.extend_from_slice(more)?;
    Ok(joined)
}

/// A text, if it means a scenario.
fn verified(
    alloc: Global,
    text: LineBuffer,
    wanted: &Scenario,
) -> Result<Option<LineBuffer>, AllocError>
    ensures { IfOk result (λ found. IfSome found (λ t. Means t wanted.now)) }
{
    if MAX_INPUT < text.len() {
        return Ok(None);
    }
    match assemble_bytes(alloc, text.as_bytes()) {
        Ok(read) => {
            if same_scenario(alloc, &read, wanted)? {
                Ok(Some(text))
            } else {
                Ok(None)
            }
        }
        Err(refusal) => match BenchFault::from(refusal) {
            BenchFault::Memory => Err(AllocError),
            _ => Ok(None),
        },
    }
}

/// The text of a scenario with its first choices and more behind them, in its own words, if that is what these mean.
fn own_text(
    alloc: Global,
    text: &[u8],
    scenario: &Scenario,
    kept: usize,
    more: &[Choice],
) -> Result<Option<LineBuffer>, AllocError>
    requires { kept ≤ length scenario.now.choices }
    ensures { IfOk result (λ found. IfSome found (λ t.
        Means t (reordered scenario.now (take kept scenario.now.choices ++ more.now)))) }
{
    let choices = joined(alloc, &scenario.choices()[..kept], more)?;
    let text = reworded(alloc, text, kept, &choices)?;
    match scenario.copy(alloc)?.with_choices(choices) {
        Ok(wanted) => verified(alloc, text, &wanted),
        Err(_) => Ok(None),
    }
}

/// Writes the canonical text of a scenario with its first choices and more behind them.
fn write_canonical<K: Sink>(
    alloc: Global,
    scenario: &Scenario,
    kept: usize,
    more: &[Choice],
    sink: &mut K,
) -> Result<(), TextFault>
    requires { (kept ≤ length scenario.now.choices) × ((K.sent sink.old).failures < u64.MAX) }
    ensures { Wrote (K.sent sink.old) (K.sent sink.new) result
        (canon (reordered scenario.now (take kept scenario.now.choices ++ more.now))) }
{
    let mut line = LineBuffer::new(alloc);
    sections!(
        ScenarioHead(scenario),
        AllPieces(Each(&scenario.choices()[..kept])),
        AllPieces(Each(more)),
        One("end"),
    )
    .write(sink, &mut line)
}

/// Writes the text of a scenario with its first choices and more behind them in the words of its own text, if that is
/// what these mean; else as canonical text.
fn write_own<K: Sink>(
    alloc: Global,
    text: &[u8],
    scenario: &Scenario,
    kept: usize,
    more: &[Choice],
    sink: &mut K,
) -> Result<(), TextFault>
    requires { (kept ≤ length scenario.now.choices) × ((K.sent sink.old).failures < u64.MAX) }
    ensures { WroteSome (IsWorded Own (reordered scenario.now (take kept scenario.now.choices ++ more.now)))
        (K.sent sink.old) (K.sent sink.new) result }
{
    match own_text(alloc, text, scenario, kept, more)? {
        Some(found) => {
            sink.put_all(found.as_bytes())?;
            Ok(())
        }
        None => write_canonical(alloc, scenario, kept, more, sink),
    }
}

/// Writes a text of a scenario with the choices that its machine has made, which are its first ones, and more behind them.
/// The scenario's own text is at hand.
pub fn write_found<K: Sink>(
    alloc: Global,
    wording: Wording,
    text: &[u8],
    machine: &Machine,
    more: &[Choice],
    sink: &mut K,
) -> Result<(), TextFault>
    requires taken { length machine.now.entries ≤ length machine.now.scenario.choices }
    requires calls { (K.sent sink.old).failures < u64.MAX }
    ensures { WroteSome (IsWorded wording (reordered machine.now.scenario
        (take (length machine.now.entries) machine.now.scenario.choices ++ more.now)))
        (K.sent sink.old) (K.sent sink.new) result }
{
    let (scenario, kept) = (machine.scenario(), machine.len());
    match wording {
        Wording::Own => write_own(alloc, text, scenario, kept, more, sink),
        Wording::Canonical => write_canonical(alloc, scenario, kept, more, sink),
    }
}

/// Writes what goes out of an answer.
fn write_answer<K: Sink>(
    alloc: Global,
    wording: Wording,
    text: &[u8],
    machine: &Machine,
    answer: &SearchAnswer,
    sink: &mut K,
) -> Result<(), TextFault>
    requires taken { length machine.now.entries ≤ length machine.now.scenario.choices }
    requires calls { (K.sent sink.old).failures < u64.MAX }
    ensures { WroteSome (IsTextOf wording machine.now.scenario
        (take (length machine.now.entries) machine.now.scenario.choices) answer.now)
        (K.sent sink.old) (K.sent sink.new) result }
{
    match answer {
        SearchAnswer::Found(path) => write_found(alloc, wording, text, machine, path, sink),
        SearchAnswer::Nowhere => Ok(()),
        SearchAnswer::Spent(_) => Ok(()),
    }
}

/// Looks for a state that shows what is sought among those that further choices lead to from a machine of the input's scenario,
/// which has made the choices that are steps already taken. Where there is one, the scenario goes out with these choices and a
/// shortest list of further ones behind them; else nothing does. The watch learns how far the search is.
pub fn search_input<R: Threads + Sync, K: Sink, W: Watch>(
    rt: &R,
    alloc: Global,
    input: &AcceptedInput<'_>,
    question: Question,
    machine: &Machine,
    sink: &mut K,
    watch: &mut W,
) -> Result<SearchReport, TextFault>
    requires taken { machine.now ≡ history_of question.options.from input.now.scenario }
    requires calls { (K.sent sink.old).failures < u64.MAX }
    ensures { WroteAnswer question.options question.sought input.now.scenario (K.sent sink.old) (K.sent sink.new) result }
{
    let Question { options, sought } = question;
    let limits = Limits {
        states: options.most,
        threads: options.threads,
    };
    let report = search(rt, alloc, machine, sought, limits, watch)?;
    write_answer(
        alloc,
        options.wording,
        input.bytes,
        machine,
        &report.answer,
        sink,
    )?;
    Ok(report)
}
