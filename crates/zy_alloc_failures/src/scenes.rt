//! Subjects with a scenario: machines, boards, debuggers, lines and programs.
ghost use Rattle.std.specs.Prelude.{◌≡◌, ◌<◌};

use crate::sweeping::{Subject, Trouble};
use std::alloc::Global;
use zy_asm::assembling::assemble_bytes;
use zy_debug::{Command, DebugFault, Debugger, Reply};
use zy_debug_text::command::command_of;
use zy_io::LineBuffer;
use zy_isa::{Actor, Choice, Instr, Node, Program, Scenario};
use zy_listing::lines::link::link_line;
use zy_listing::lines::page::page_line;
use zy_listing::lines::txn::txn_line;
use zy_machine::Machine;
use zy_text::Words;
use zy_text::cut::cut_len;
use zy_text::line::take_line;
use zy_threads::Board;

/// Each actor.
pub const ACTORS: [Actor; 3] = [Actor::C, Actor::A, Actor::B];

/// The scenario of a text.
pub fn scenario(alloc: Global, text: &[u8]) -> Result<Scenario, Trouble> {
    Ok(assemble_bytes(alloc, text)?)
}

/// The machine that has made all choices of a text.
fn machine(alloc: Global, text: &[u8]) -> Result<Machine, Trouble> {
    Ok(Machine::run_all(alloc, scenario(alloc, text)?)?)
}

/// Whether two machines have the same state and history.
fn is_same_machine(one: &Machine, other: &Machine) -> bool {
    one.is_same(other) && one.entries() == other.entries()
}

/// `Board::step_next` for the actor of each choice.
impl Subject for Board {
    fn make(alloc: Global, input: &[u8]) -> Result<Board, Trouble> {
        Ok(Board::new(alloc, scenario(alloc, input)?)?)
    }

    fn len(&self) -> usize {
        self.machine().scenario().choices().len()
    }

    fn call(&mut self, place: usize) -> Result<(), Trouble> {
        let choice = choice_at(self.machine(), place)?;
        self.step_next(choice.actor())?;
        Ok(())
    }

    fn is_same(&self, other: &Board) -> bool {
        let mut actors = ACTORS.iter();
        is_same_machine(self.machine(), other.machine())
            && actors.all(|actor| self.cursor(*actor) == other.cursor(*actor))
    }
}

/// The choice at a place of a machine's scenario.
fn choice_at(machine: &Machine, place: usize) -> Result<Choice, Trouble> {
    let choice = machine.scenario().choices().get(place).copied();
    choice.ok_or(Trouble::Fault)
}

/// The choice that the machine skips, so that it leaves the shared history there.
const LEFT_OUT: usize = 3;

/// `Machine::step` for all choices but one, on a machine that shares a history of all choices until then.
#[derive(Drop)]
pub struct Apart {
    machine: Machine,
}

impl Subject for Apart {
    fn make(alloc: Global, input: &[u8]) -> Result<Apart, Trouble> {
        let whole = machine(alloc, input)?.share(alloc)?;
        let machine = whole.reopen(alloc);
        whole.discard();
        Ok(Apart { machine: machine? })
    }

    fn len(&self) -> usize {
        self.machine.scenario().choices().len().saturating_sub(1)
    }

    fn call(&mut self, place: usize) -> Result<(), Trouble> {
        let skipped = usize::from(place >= LEFT_OUT);
        let choice = choice_at(&self.machine, place.saturating_add(skipped))?;
        let count = self.machine.scenario().programs().len();
        if !choice.names_below(count) || self.machine.len() >= 4096 {
            return Err(Trouble::Fault);
        }
        self.machine.step(choice)?;
        Ok(())
    }

    fn is_same(&self, other: &Apart) -> bool {
        is_same_machine(&self.machine, &other.machine)
    }
}

/// `Machine::set_to` a machine that has made all choices.
#[derive(Drop)]
pub struct Setting {
    alloc: Global,
    whole: Machine,
    machine: Machine,
    ghost alike: { machine.scenario ≡ whole.scenario },
}

impl Subject for Setting {
    fn make(alloc: Global, input: &[u8]) -> Result<Setting, Trouble> {
        let whole = machine(alloc, input)?;
        match whole.reopen(alloc) {
            Ok(machine) => Ok(Setting {
                alloc,
                whole,
                machine,
            }),
            Err(fault) => {
                whole.discard();
                Err(Trouble::from(fault))
            }
        }
    }

    fn len(&self) -> usize {
        1
    }

    fn call(&mut self, _place: usize) -> Result<(), Trouble> {
        Ok(self.machine.set_to(self.alloc, &self.whole)?)
    }

    fn is_same(&self, other: &Setting) -> bool {
        is_same_machine(&self.machine, &other.machine)
    }
}

/// The commands of a text, one a line.
fn commands_of(alloc: Global, text: &[u8]) -> Result<Vec<Command>, Trouble> {
    let mut commands = Vec::new(alloc);
    let mut words = Words::new();
    let mut rest = text;
    while !rest.is_empty() {
        rest = take_line(&mut words, rest);
        if let Some(command) = command_of(words.as_slice()) {
            commands.reserve(1)?;
            commands.push_reserved(command);
        }
    }
    Ok(commands)
}

/// The answer to a command, as numbers.
fn numbers_of(answer: Result<Reply, DebugFault>) -> [usize; 3] {
    match answer {
        Ok(Reply::At(at)) => [0, at, 0],
        Ok(Reply::Stop(number, at)) => [1, number, at],
        Ok(Reply::Set(number)) => [2, number, 0],
        Ok(Reply::Deleted(number)) => [3, number as usize, 0],
        Ok(Reply::Shown(_)) => [4, 0, 0],
        Err(fault) => [5, fault as usize, 0],
    }
}

/// A debugger keeps a copy of the machine each time it has made this many choices.
const EVERY: usize = 2;

/// How many copies it keeps.
const RING: usize = 1;

/// `Debugger::command` for each command below a scenario. The answers show the stops.
#[derive(Drop)]
pub struct Session {
    debugger: Debugger,
    commands: Vec<Command>,
    answer: [usize; 3],
}

impl Subject for Session {
    fn make(alloc: Global, input: &[u8]) -> Result<Session, Trouble> {
        let (part, below) = input.split_at(cut_len(input));
        let commands = commands_of(alloc, below)?;
        let debugger = Debugger::open(alloc, scenario(alloc, part)?, EVERY, RING)?;
        Ok(Session {
            debugger,
            commands,
            answer: [0; 3],
        })
    }

    fn len(&self) -> usize {
        self.commands.len()
    }

    fn call(&mut self, place: usize) -> Result<(), Trouble> {
        let Some(command) = self.commands.get(place).copied() else {
            return Err(Trouble::Fault);
        };
        match self.debugger.command(command) {
            Err(DebugFault::Memory) => Err(Trouble::Memory),
            answer => {
                self.answer = numbers_of(answer);
                Ok(())
            }
        }
    }

    fn is_same(&self, other: &Session) -> bool {
        self.answer == other.answer
            && self.debugger.position() == other.debugger.position()
            && is_same_machine(self.debugger.machine(), other.debugger.machine())
    }
}

/// `page_line`, `txn_line` and `link_line` for each page, transaction and link, into a new buffer for each call.
#[derive(Drop)]
pub struct Lines {
    alloc: Global,
    machine: Machine,
    /// The last line.
    whole: LineBuffer,
    /// The part of the next line that a call appended before it ran out of memory.
    cut: LineBuffer,
}

impl Lines {
    /// Appends the line at a place.
    fn append(&self, place: usize, line: &mut LineBuffer) -> Result<(), Trouble> {
        let machine = &self.machine;
        let pages = usize::from(machine.page_count());
        if place < pages {
            return Ok(page_line(machine, place as u16, line)?);
        }
        let below = place - pages;
        if below < machine.txn_count() {
            return Ok(txn_line(machine, below as u8, line)?);
        }
        let is_first = below == machine.txn_count();
        let node = if is_first { Node::A } else { Node::B };
        Ok(link_line(machine, node, line)?)
    }
}

impl Subject for Lines {
    fn make(alloc: Global, input: &[u8]) -> Result<Lines, Trouble> {
        Ok(Lines {
            alloc,
            machine: machine(alloc, input)?,
            whole: LineBuffer::new(alloc),
            cut: LineBuffer::new(alloc),
        })
    }

    fn len(&self) -> usize {
        usize::from(self.machine.page_count()) + self.machine.txn_count() + 2
    }

    /// If the call runs out of memory, what it appended must be a prefix of the line.
    fn call(&mut self, place: usize) -> Result<(), Trouble> {
        let mut line = LineBuffer::new(self.alloc);
        let outcome = self.append(place, &mut line);
        if outcome.is_err() {
            self.cut = line;
            return outcome;
        }
        if !line.as_bytes().starts_with(self.cut.as_bytes()) {
            return Err(Trouble::Different);
        }
        self.whole = line;
        self.cut = LineBuffer::new(self.alloc);
        Ok(())
    }

    fn is_same(&self, other: &Lines) -> bool {
        self.whole.as_bytes() == other.whole.as_bytes()
    }
}

/// `Program::verify` of the instructions of a text's first program.
#[derive(Drop)]
pub struct Verifying {
    alloc: Global,
    instrs: Vec<Instr>,
}

impl Subject for Verifying {
    fn make(alloc: Global, input: &[u8]) -> Result<Verifying, Trouble> {
        let scenario = scenario(alloc, input)?;
        let Some(program) = scenario.programs().first() else {
            return Err(Trouble::Fault);
        };
        let mut instrs = Vec::new(alloc);
        for i in 0..program.len() {
            instrs.reserve(1)?;
            instrs.push_reserved(program.instr(i));
        }
        Ok(Verifying { alloc, instrs })
    }

    fn len(&self) -> usize {
        1
    }

    fn call(&mut self, _place: usize) -> Result<(), Trouble> {
        Program::verify(self.alloc, self.instrs.as_slice())?;
        Ok(())
    }

    fn is_same(&self, _other: &Verifying) -> bool {
        true
    }
}
