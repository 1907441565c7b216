//! The commands that read an input.

use std::fmt::{self, Formatter, Write};

/// A command that reads a scenario, an image or a listing.
#[derive(Clone, Copy, PartialEq, Eq)]
pub enum CommandName {
    Run,
    Trace,
    Threads,
    Search,
    Find,
    End,
    Order,
    Asm,
    Dis,
    Check,
    Debug,
}

impl CommandName {
    /// Its word on the command line.
    pub fn word(self) -> &'static str {
        match self {
            CommandName::Run => "run",
            CommandName::Trace => "trace",
            CommandName::Threads => "threads",
            CommandName::Search => "search",
            CommandName::Find => "find",
            CommandName::End => "end",
            CommandName::Order => "order",
            CommandName::Asm => "asm",
            CommandName::Dis => "dis",
            CommandName::Check => "check",
            CommandName::Debug => "debug",
        }
    }
}

/// Its word.
impl fmt::Display for CommandName {
    fn fmt<W: Write>(&self, f: &mut Formatter<W>) -> fmt::Result {
        f.write_str(self.word())
    }
}

/// What to do with an image where a command reads a text.
#[derive(Clone, Copy)]
pub struct ForImage(pub CommandName);

impl fmt::Display for ForImage {
    fn fmt<W: Write>(&self, f: &mut Formatter<W>) -> fmt::Result {
        match self.0 {
            CommandName::Asm => f.write_str(
                "this is an image already: zy_bench dis writes its text",
            ),
            CommandName::Check => f.write_str(
                "this is an image: check reads a listing, as zy_bench run --image writes it",
            ),
            command @ (CommandName::Debug | CommandName::Order) => write!(
                f,
                "this is an image: {command} reads a text, as zy_bench dis writes it"
            ),
            command => write!(
                f,
                "this is an image: use zy_bench {command} --image, or zy_bench dis for its text"
            ),
        }
    }
}

/// What to do with a text where a command reads an image.
#[derive(Clone, Copy)]
pub struct ForText(pub CommandName);

impl fmt::Display for ForText {
    fn fmt<W: Write>(&self, f: &mut Formatter<W>) -> fmt::Result {
        match self.0 {
            CommandName::Dis => {
                f.write_str("this is a text: dis reads an image, as zy_bench asm writes it")
            }
            command => write!(f, "this is a text: use zy_bench {command} without --image"),
        }
    }
}
