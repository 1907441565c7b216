//! The arguments of the commands.

use clap::{Arg, ArgAction, value_parser};
use std::alloc::{AllocError, Global};
use zy_engine::debugging::{MAX_EVERY, MAX_RING};
use zy_isa::MAX_CHOICES;
use zy_search::MOST_THREADS;

/// An argument of a command: a flag of this name, or the file.
#[derive(Clone, Copy)]
pub enum Argument {
    /// `--image`: the input is an image.
    Image,
    /// `--json`, and what it means.
    Json(&'static str),
    /// `--every N`: how often `debug` keeps a copy of the state.
    Every,
    /// `--ring N`: how many copies it keeps.
    Ring,
    /// `--for GOAL`: what is looked for.
    For,
    /// `--always GOAL`: what is to hold in every state.
    Always,
    /// `--from N`: how many of the choices are already taken.
    From,
    /// `--kill`: kills are considered.
    Kill,
    /// `--without KIND`: choices of this kind are not considered.
    Without,
    /// `--states N`: how many states are kept at most.
    States,
    /// `--threads N`: how many threads search.
    Threads,
    /// `--canon`: the canonical text is written.
    Canon,
    /// `--gap N`: how many steps a gap may stand for.
    Gap,
    /// `--settled`: the order has to end with no migration under way.
    Settled,
    /// `--furthest PATH`: where the furthest order is kept.
    Furthest,
    /// The file that is read, and what is read without it.
    File(&'static str),
}

/// A flag that takes a number.
#[derive(Clone, Copy)]
pub struct Counted {
    /// Its name, without the dashes.
    pub name: &'static str,
    /// The least number that it takes.
    pub least: u32,
    /// The greatest number that it takes.
    pub most: u32,
    help: &'static str,
}

const EVERY: Counted = Counted {
    name: "every",
    least: 1,
    most: MAX_EVERY as u32,
    help: "Keeps copies of the state at multiples of N: 1 to 4096, default 64",
};

const RING: Counted = Counted {
    name: "ring",
    least: 1,
    most: MAX_RING as u32,
    help: "Keeps at most N copies: 1 to 64, default 16",
};

const FROM: Counted = Counted {
    name: "from",
    least: 0,
    most: MAX_CHOICES as u32,
    help: "Takes the first N choices as steps already taken: 0 to 4096, default all",
};

const STATES: Counted = Counted {
    name: "states",
    least: 1,
    most: 4_294_967_295,
    help: "Gives up after N states: 1 to 4294967295, default 1000000",
};

const THREADS: Counted = Counted {
    name: "threads",
    least: 1,
    most: MOST_THREADS as u32,
    help: "Searches by N threads: 1 to 64, default 1",
};

const GAP: Counted = Counted {
    name: "gap",
    least: 1,
    most: 64,
    help: "Lets a line ... stand for at most N missing steps: 1 to 64, default 4",
};

/// The flags that take a number.
pub const COUNTED: [Counted; 6] = [EVERY, RING, FROM, STATES, THREADS, GAP];

/// The kinds of choices, as `--without` names them.
const KINDS: &'static [&'static str] = &["start", "begin", "kill", "run", "take", "finish", "push"];

impl Argument {
    /// The argument, as `clap` reads it.
    pub fn build<'a>(self, alloc: Global) -> Result<Arg<'a>, AllocError> {
        match self {
            Argument::Always => self.alone(alloc).conflicts_with("for"),
            _ => Ok(self.alone(alloc)),
        }
    }

    /// The argument without what it conflicts with.
    fn alone<'a>(self, alloc: Global) -> Arg<'a> {
        match self {
            Argument::Image => flag(
                alloc,
                "image",
                "The input is an image, as asm writes it, and not a text",
            ),
            Argument::Json(help) => flag(alloc, "json", help),
            Argument::Every => numbered(alloc, EVERY),
            Argument::Ring => numbered(alloc, RING),
            Argument::For => valued(
                alloc,
                "for",
                "GOAL",
                "The goal that a state is to meet, default differs",
            ),
            Argument::Always => valued(
                alloc,
                "always",
                "GOAL",
                "A goal that every state is to meet: looks for states that do not",
            ),
            Argument::From => numbered(alloc, FROM),
            Argument::Kill => flag(
                alloc,
                "kill",
                "Considers that the client kills transactions too",
            ),
            Argument::Without => {
                valued(alloc, "without", "KIND", "Leaves out choices of this kind")
                    .action(ArgAction::Append)
                    .value_parser(KINDS)
            }
            Argument::States => numbered(alloc, STATES),
            Argument::Threads => numbered(alloc, THREADS),
            Argument::Canon => flag(
                alloc,
                "canon",
                "Writes canonical text, without names and comments",
            ),
            Argument::Gap => numbered(alloc, GAP),
            Argument::Settled => flag(
                alloc,
                "settled",
                "Looks for an order that ends with no migration, message or active transaction",
            ),
            Argument::Furthest => valued(
                alloc,
                "furthest",
                "PATH",
                "Where no such order is found, writes the scenario with the furthest one to PATH",
            ),
            Argument::File(help) => Arg::new(alloc, "file").value_name("FILE").help(help),
        }
    }
}

/// A flag that has no value.
fn flag<'a>(alloc: Global, name: &'static str, help: &'static str) -> Arg<'a> {
    Arg::new(alloc, name)
        .long(name)
        .action(ArgAction::SetTrue)
        .help(help)
}

/// A flag that has a value, which the help calls `value`.
fn valued<'a>(
    alloc: Global,
    name: &'static str,
    value: &'static str,
    help: &'static str,
) -> Arg<'a> {
    Arg::new(alloc, name)
        .long(name)
        .value_name(value)
        .help(help)
}

/// A flag that takes a number.
fn numbered<'a>(alloc: Global, counted: Counted) -> Arg<'a> {
    let range = i64::from(counted.least)..=i64::from(counted.most);
    valued(alloc, counted.name, "N", counted.help).value_parser(value_parser!(u32).range(range))
}
