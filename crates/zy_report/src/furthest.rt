//! How far an order of logs comes, and what the table gives where the next lines do not fit.

use crate::excerpt::Excerpt;
use crate::explained::went_from;
use crate::origin::Origin;
use crate::summary::Count;
use std::alloc::{AllocError, Global};
use std::fmt::{self, Formatter, Write};
use zy_io::{Decimal, Line, LineBuffer, joined};
use zy_isa::{Actor, Choice, MAX_CHOICES, Version};
use zy_listing::{Rows, StepLine};
use zy_logs::{LogLine, Logged, NumberedLine};
use zy_machine::{Fault, Machine};
use zy_order::{Taken, are_twins};
use zy_order_engine::{LogFormat, OrderedLogs};
use zy_source_words::{Position, SourceLine};
use zy_table::{Entry, Observation, Outcome};

/// How many lines of an actor an order takes.
fn taken_of(taken: Taken, actor: Actor) -> usize {
    match actor {
        Actor::C => taken.c,
        Actor::A => taken.a,
        Actor::B => taken.b,
    }
}

/// What was logged of a step, and the number of its line.
#[derive(Clone, Copy)]
struct NumberedStep {
    number: usize,
    step: LogLine,
}

/// The step that a line tells, if it stands in the log of an actor.
fn step_by(line: &NumberedLine, actor: Actor) -> Option<NumberedStep> {
    match line.logged {
        Logged::Step(step) if step.log == actor => Some(NumberedStep {
            number: line.number,
            step,
        }),
        _ => None,
    }
}

/// How many lines of each actor an order of all these takes.
fn all_of(lines: &[NumberedLine]) -> Taken {
    let mut all = Taken { c: 0, a: 0, b: 0 };
    for line in lines {
        if let Logged::Step(step) = line.logged {
            let count = match step.log {
                Actor::C => &mut all.c,
                Actor::A => &mut all.a,
                Actor::B => &mut all.b,
            };
            *count = count.saturating_add(1);
        }
    }
    all
}

/// The end of an order of prefixes of logs.
#[derive(Drop)]
pub struct Furthest<'a> {
    /// The machine that has made its choices.
    machine: Machine,
    /// How the lines of the logs are written.
    logs: LogFormat,
    /// The lines of the logs.
    lines: &'a [NumberedLine],
    /// How many lines of each actor it takes.
    taken: Taken,
}

impl<'a> Furthest<'a> {
    /// The end of the order of logs that makes these choices behind those of the scenario.
    pub fn of(
        alloc: Global,
        logs: LogFormat,
        ordered: &'a OrderedLogs,
        order: &[Choice],
    ) -> Result<Furthest<'a>, Fault> {
        let machine = went_from(alloc, &ordered.machine, order)?;
        Ok(Furthest {
            machine,
            logs,
            lines: &ordered.lines,
            taken: ordered.report.taken,
        })
    }

    /// Drops it.
    pub fn discard(self) {
        let Furthest { machine, .. } = self;
        machine.discard();
    }

    /// How many lines of each actor it takes, of how many.
    pub fn reach(&self) -> Reach {
        Reach {
            taken: self.taken,
            all: all_of(self.lines),
        }
    }

    /// The first line of an actor that it does not take.
    fn next(&self, actor: Actor) -> Option<NumberedStep> {
        let mut passed = 0usize;
        for line in self.lines {
            if let Some(step) = step_by(line, actor) {
                if passed == taken_of(self.taken, actor) {
                    return Some(step);
                }
                passed = passed.saturating_add(1);
            }
        }
        None
    }

    /// What the table gives in place of a line that does not fit. If the line tells a wrong value and only lacks the begin of its
    /// transaction, this is the step after the begin; otherwise it is the step at the end of the order.
    fn instead(&self, alloc: Global, line: LogLine) -> Result<Option<Observation>, Fault> {
        let value = self.other_value(alloc, line)?;
        if value.is_some() {
            return Ok(value);
        }
        let mut machine = self.machine.copy(alloc)?;
        let shown = disagreeing(&mut machine, line);
        machine.discard();
        shown
    }

    /// The step of a line that tells a wrong value, once the client's remaining lines have begun its transaction. None if they do not
    /// begin it, if the value is right then, or if a gap may stand for the begin.
    fn other_value(&self, alloc: Global, line: LogLine) -> Result<Option<Observation>, Fault> {
        let Choice::Run(_, t) = line.choice else {
            return Ok(None);
        };
        if line.value.is_none() || !self.is_new(t) || self.has_gap() {
            return Ok(None);
        }
        let mut machine = self.machine.copy(alloc)?;
        let shown = self.once_begun(&mut machine, t, line);
        machine.discard();
        shown
    }

    /// Whether a log has a gap.
    fn has_gap(&self) -> bool {
        self.lines
            .iter()
            .any(|line| matches!(line.logged, Logged::Gap(_)))
    }

    /// The same on a machine at the end of the order. A furthest order takes as few lines of the client as it can, so the begin may be
    /// among those that remain.
    fn once_begun(
        &self,
        machine: &mut Machine,
        t: u8,
        line: LogLine,
    ) -> Result<Option<Observation>, Fault> {
        let mut passed = 0usize;
        for numbered in self.lines {
            let Some(next) = step_by(numbered, Actor::C) else {
                continue;
            };
            if passed < self.taken.c {
                passed = passed.saturating_add(1);
            } else if disagreeing(machine, next.step)?.is_some() {
                return Ok(None);
            } else if next.step.choice == Choice::Begin(t) {
                return did_otherwise(machine, line);
            }
        }
        Ok(None)
    }

    /// The first line of the client that does not fit where those before it are made behind its end, on a machine that is there,
    /// and what the step shows that comes in its place.
    fn later(&self, machine: &mut Machine) -> Result<Option<(NumberedStep, Observation)>, Fault> {
        let mut passed = 0usize;
        for line in self.lines {
            if let Some(next) = step_by(line, Actor::C) {
                if passed < self.taken.c {
                    passed = passed.saturating_add(1);
                } else if let Some(shown) = disagreeing(machine, next.step)? {
                    return Ok(Some((next, shown)));
                }
            }
        }
        Ok(None)
    }

    /// Says on standard error which next lines do not fit, and what the table gives. Behind them come lines of nodes whose twin does not
    /// come next, and last those that may only come too early. If none is named, only lines of the client are left, and the first of
    /// them that does not fit behind the others is named.
    pub fn tell<R: Eprint + AllocGlobal>(&self, rt: &R, file: Option<&str>, input: &[u8]) {
        let alloc = rt.alloc();
        let unfit = [
            self.unfit(alloc, Actor::C),
            self.unfit(alloc, Actor::A),
            self.unfit(alloc, Actor::B),
        ];
        for next in &unfit {
            self.tell_if(rt, file, input, next, false);
        }
        let mut is_named = self.tell_apart(rt, file, input, Actor::A);
        is_named |= self.tell_apart(rt, file, input, Actor::B);
        for next in &unfit {
            is_named |= next.is_some();
            self.tell_if(rt, file, input, next, true);
        }
        if !is_named {
            self.tell_later(rt, file, input);
        }
    }

    /// Whether a line is the next one of its log.
    fn comes_next(&self, line: NumberedStep) -> bool {
        match self.next(line.step.log) {
            Some(next) => next.number == line.number,
            None => false,
        }
    }

    /// Says that the next line of a node tells the step of a line of the client that does not come next, if it fits and does. Whether it
    /// said so.
    fn tell_apart<R: Eprint + AllocGlobal>(
        &self,
        rt: &R,
        file: Option<&str>,
        input: &[u8],
        actor: Actor,
    ) -> bool {
        let Some(line) = self.next(actor) else {
            return false;
        };
        let version = self.machine.scenario().version();
        let Some(twin) = twin_of(version, self.lines, &line.step) else {
            return false;
        };
        if self.comes_next(twin) || self.unfit(rt.alloc(), actor).is_some() {
            return false;
        }
        let apart = Apart {
            told: ToldLine::of(self.logs, file, input, line.number),
            twin: ToldLine::of(self.logs, None, input, twin.number),
        };
        let _ = eprintln!(rt; "{apart}");
        true
    }

    /// Says what the table gives in the place of a line, if there is one, and it may only come too early or may not.
    fn tell_if<R: Eprint + AllocGlobal>(
        &self,
        rt: &R,
        file: Option<&str>,
        input: &[u8],
        next: &Option<(NumberedStep, Observation)>,
        may_be_early: bool,
    ) {
        if let Some((line, shown)) = next {
            if self.may_be_early(&shown.entry) == may_be_early {
                self.tell_line(rt, file, input, *line, shown);
            }
        }
    }

    /// The next line of an actor, if it does not fit, and what the step shows that comes in its place. Out of memory it is none.
    fn unfit(&self, alloc: Global, actor: Actor) -> Option<(NumberedStep, Observation)> {
        let next = self.next(actor)?;
        match self.instead(alloc, next.step) {
            Ok(Some(shown)) => Some((next, shown)),
            _ => None,
        }
    }

    /// Whether a step comes of a choice that may only be made too early: before a message is sent, or a transaction begins.
    fn may_be_early(&self, entry: &Entry) -> bool {
        match (entry.outcome, entry.choice) {
            (Outcome::NoMessage, _) => true,
            (Outcome::NotYet, _) => true,
            (Outcome::Idle, Choice::Run(_, t)) => self.is_new(t),
            (Outcome::Idle, Choice::Kill(t)) => self.is_new(t),
            _ => false,
        }
    }

    /// Whether a transaction has not begun at its end.
    fn is_new(&self, t: u8) -> bool {
        usize::from(t) < self.machine.txn_count() && self.machine.txn(t).is_new()
    }

    /// Says what the table gives in the place of the first line of the client that does not fit behind the others.
    fn tell_later<R: Eprint + AllocGlobal>(&self, rt: &R, file: Option<&str>, input: &[u8]) {
        if let Ok(mut machine) = self.machine.copy(rt.alloc()) {
            let later = self.later(&mut machine);
            machine.discard();
            if let Ok(Some((line, shown))) = later {
                self.tell_line(rt, file, input, line, &shown);
            }
        }
    }

    /// Says what the table gives in the place of a line that does not fit. Out of memory it says nothing.
    fn tell_line<'x, R: Eprint + AllocGlobal>(
        &self,
        rt: &R,
        file: Option<&'x str>,
        input: &'x [u8],
        line: NumberedStep,
        shown: &Observation,
    ) {
        if let Ok(step) = step_line(rt.alloc(), &line.step, shown) {
            let unfit = Unfit {
                told: ToldLine::of(self.logs, file, input, line.number),
                came: behind_arrow(step.as_bytes()),
                may_be_early: self.may_be_early(&shown.entry),
            };
            let _ = eprintln!(rt; "{unfit}");
        }
    }
}

/// Makes the choice of a line on a machine, if it may be made there. Returns the step if it does not agree with the line.
fn disagreeing(machine: &mut Machine, line: LogLine) -> Result<Option<Observation>, Fault> {
    let count = machine.scenario().programs().len();
    if !line.choice.names_below(count) || MAX_CHOICES <= machine.len() {
        return Ok(None);
    }
    let shown = machine.observe(line.choice)?;
    if line.agrees(&shown) {
        return Ok(None);
    }
    Ok(Some(shown))
}

/// Makes the choice of a line on a machine. Returns the step if it did its instruction and does not agree with the line.
fn did_otherwise(machine: &mut Machine, line: LogLine) -> Result<Option<Observation>, Fault> {
    match disagreeing(machine, line)? {
        Some(shown) => match shown.entry.outcome {
            Outcome::Did => Ok(Some(shown)),
            _ => Ok(None),
        },
        None => Ok(None),
    }
}

/// A step as a listing has it. Behind it come the value and the rows that it shows, if the line of a log tells any.
fn step_line(alloc: Global, told: &LogLine, shown: &Observation) -> Result<LineBuffer, AllocError> {
    let mut line = LineBuffer::new(alloc);
    let entry = &shown.entry;
    StepLine { number: 1, entry }.append(&mut line)?;
    // A step that shows a value sends no message.
    if let (Some(_), Some(value)) = (told.value, shown.value) {
        joined!(" ", Decimal(value)).append(&mut line)?;
    }
    if let (Some(_), Some(rows)) = (&told.rows, &shown.rows) {
        joined!(" rows", Rows(rows.as_slice())).append(&mut line)?;
    }
    Ok(line)
}

/// What a step's line has behind its arrow.
fn behind_arrow(line: &[u8]) -> &[u8] {
    let arrow = line.iter().position(|byte| *byte == b'>');
    let behind = arrow.and_then(|arrow| line.get(arrow.saturating_add(2)..));
    behind.unwrap_or(line)
}

/// The line of another log that tells the step of this one, too, where both come only once.
fn twin_of(version: Version, lines: &[NumberedLine], line: &LogLine) -> Option<NumberedStep> {
    for other in lines {
        if let Logged::Step(step) = &other.logged {
            if are_twins(version, line, step) {
                return Some(NumberedStep {
                    number: other.number,
                    step: *step,
                });
            }
        }
    }
    None
}

/// Whether a line of a node's log tells a choice of the client.
fn is_shared(line: &LogLine) -> bool {
    line.log != Actor::C && line.choice.actor() == Actor::C
}

/// How many lines of nodes tell a step that a line of the client tells, too.
fn second_lines(ordered: &OrderedLogs) -> usize {
    let version = ordered.machine.scenario().version();
    let mut count = 0usize;
    for line in &ordered.lines {
        if let Logged::Step(step) = &line.logged {
            if is_shared(step) && twin_of(version, &ordered.lines, step).is_some() {
                count = count.saturating_add(1);
            }
        }
    }
    count
}

/// The lines that an order has, and the steps that are missing from the logs.
#[derive(Clone, Copy)]
pub struct Steps {
    lines: usize,
    missing: usize,
}

impl Steps {
    /// Those of an order of all lines of logs that has `choices` choices.
    pub fn of(ordered: &OrderedLogs, choices: usize) -> Steps {
        let Taken { c, a, b } = ordered.report.taken;
        let lines = c.saturating_add(a).saturating_add(b);
        let steps = lines.saturating_sub(second_lines(ordered));
        Steps {
            lines,
            missing: choices.saturating_sub(steps),
        }
    }
}

impl fmt::Display for Steps {
    fn fmt<W: Write>(&self, f: &mut Formatter<W>) -> fmt::Result {
        write!(f, "{}", Count::of(self.lines, "line"))?;
        if self.missing == 0 {
            return Ok(());
        }
        write!(f, " and {}", Count::of(self.missing, "missing step"))
    }
}

/// How many lines of each actor an order takes, of how many.
#[derive(Clone, Copy)]
pub struct Reach {
    taken: Taken,
    all: Taken,
}

impl fmt::Display for Reach {
    fn fmt<W: Write>(&self, f: &mut Formatter<W>) -> fmt::Result {
        let Reach { taken, all } = *self;
        write!(
            f,
            "{} of {} lines of C, {} of {} of A and {} of {} of B",
            taken.c, all.c, taken.a, all.a, taken.b, all.b
        )
    }
}

/// A line of a log, as standard error names it.
#[derive(Clone, Copy)]
struct ToldLine<'a> {
    file: Option<&'a str>,
    number: usize,
    /// The line, of a text without its comment.
    bytes: &'a [u8],
}

impl<'a> ToldLine<'a> {
    /// Line `number` of an input.
    fn of(logs: LogFormat, file: Option<&'a str>, input: &'a [u8], number: usize) -> ToldLine<'a> {
        let source = SourceLine::of(input, number);
        let bytes = match logs {
            LogFormat::Text => source.statement().bytes,
            LogFormat::Json => source.bytes,
        };
        ToldLine {
            file,
            number,
            bytes,
        }
    }

    /// What the line says.
    fn excerpt(&self) -> Excerpt<'a> {
        Excerpt::of(self.bytes.trim_ascii(), 0)
    }

    /// Where the line is: in a file the first byte of it that is no space.
    fn origin(&self) -> Origin<'a> {
        let Some(file) = self.file else {
            return Origin::Line(self.number);
        };
        let told = self.bytes.trim_ascii_start();
        let before = self.bytes.len().saturating_sub(told.len());
        Origin::Place(
            file,
            Position {
                line: self.number,
                column: before.saturating_add(1),
            },
        )
    }
}

impl fmt::Display for ToldLine<'_> {
    fn fmt<W: Write>(&self, f: &mut Formatter<W>) -> fmt::Result {
        let colon = if self.file.is_some() { ":" } else { "" };
        write!(f, "{}{colon} {}", self.origin(), self.excerpt())
    }
}

/// A line that does not fit, and what the table gives.
#[derive(Clone, Copy)]
struct Unfit<'a, 'b> {
    told: ToldLine<'a>,
    came: &'b [u8],
    /// Whether its step may only be made too early.
    may_be_early: bool,
}

impl fmt::Display for Unfit<'_, '_> {
    fn fmt<W: Write>(&self, f: &mut Formatter<W>) -> fmt::Result {
        let came = Excerpt::of(self.came, 0);
        write!(f, "{}: the table gives {came} there", self.told)?;
        f.write_str(if self.may_be_early {
            ", perhaps only for want of a line above"
        } else {
            ""
        })
    }
}

/// A line of a node whose twin does not come next.
#[derive(Clone, Copy)]
struct Apart<'a> {
    told: ToldLine<'a>,
    twin: ToldLine<'a>,
}

impl fmt::Display for Apart<'_> {
    fn fmt<W: Write>(&self, f: &mut Formatter<W>) -> fmt::Result {
        let number = self.twin.number;
        let twin = self.twin.excerpt();
        write!(
            f,
            "{}: it is the step of line {number} {twin}, which does not come next in its log",
            self.told
        )
    }
}
