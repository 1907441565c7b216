//! Advice on a line that is not a command of the debugger.

use std::fmt::{self, Formatter, Write};
use zy_source_words::nearest_word::show_nearest;
use zy_source_words::{Bytes, NearestWord, Quoted, Statement};
use zy_text::numbers::number_of;

/// The first words of the commands.
const COMMANDS: [&'static str; 13] = [
    "step", "back", "goto", "cont", "rcont", "break", "watch", "delete", "page", "txn", "node",
    "links", "where",
];

/// The first words behind `break`.
const STOPS: [&'static str; 3] = ["page", "mode", "abort"];

/// What a command takes.
#[derive(Clone, Copy)]
enum Takes {
    /// Nothing.
    Lone,
    /// A number, for which advice writes this letter.
    Number(&'static str),
    /// What stops the run: a page, the mode or an abort.
    Break,
    /// A node.
    Node,
}

impl Takes {
    /// What the command with this first word takes.
    fn of(word: &[u8]) -> Option<Takes> {
        match word {
            b"cont" | b"rcont" | b"links" | b"where" => Some(Takes::Lone),
            b"step" | b"back" | b"goto" => Some(Takes::Number("N")),
            b"watch" => Some(Takes::Number("K")),
            b"delete" => Some(Takes::Number("I")),
            b"page" => Some(Takes::Number("P")),
            b"txn" => Some(Takes::Number("T")),
            b"break" => Some(Takes::Break),
            b"node" => Some(Takes::Node),
            _ => None,
        }
    }
}

/// A line that is not a command.
#[derive(Clone, Copy)]
pub struct BadCommand<'a> {
    line: Statement<'a>,
}

impl<'a> BadCommand<'a> {
    /// This line.
    pub fn of(line: &'a [u8]) -> BadCommand<'a> {
        BadCommand {
            line: Statement::of(line),
        }
    }

    /// Says that no command begins with the first word, and which ones there are.
    fn tell_unknown<W: Write>(&self, f: &mut Formatter<W>) -> fmt::Result {
        let word = self.line.text(0);
        write!(f, "there is no command {}: ", Quoted(word))?;
        show_nearest(
            f,
            NearestWord::of(word, &COMMANDS),
            "there are step, back, goto, cont, rcont, break, watch, delete, page, txn, node, links and where",
        )
    }

    /// Says that a command takes a number, as its word of this number and its last one.
    fn tell_number<W: Write>(
        &self,
        f: &mut Formatter<W>,
        command: Bytes<'_>,
        letter: &'static str,
        at: usize,
    ) -> fmt::Result {
        if self.line.count() != at.saturating_add(1) {
            write!(f, "{command} takes one number")?;
        } else {
            tell_bad_number(f, self.line.text(at))?;
        }
        write!(f, ": {command} {letter}")
    }

    /// Says what `break` takes.
    fn tell_break<W: Write>(&self, f: &mut Formatter<W>) -> fmt::Result {
        match self.line.text(1) {
            b"page" => self.tell_number(f, Bytes(b"break page"), "P", 2),
            b"mode" | b"abort" => f.write_str("nothing comes behind break mode and break abort"),
            word => match NearestWord::of(word, &STOPS) {
                Some(meant) => write!(f, "break has no {}: {meant}", Quoted(word)),
                None => f.write_str("it is break page P, break mode or break abort"),
            },
        }
    }
}

/// Says why a command does not take a word as its number.
fn tell_bad_number<W: Write>(f: &mut Formatter<W>, word: &[u8]) -> fmt::Result {
    let why = if number_of(word).is_some() {
        "is above 4294967295"
    } else {
        "is no number of 1 to 10 digits"
    };
    write!(f, "{} {why}", Quoted(word))
}

/// What is wrong, and what to write.
impl fmt::Display for BadCommand<'_> {
    fn fmt<W: Write>(&self, f: &mut Formatter<W>) -> fmt::Result {
        let word = self.line.text(0);
        match Takes::of(word) {
            None => self.tell_unknown(f),
            Some(Takes::Break) => self.tell_break(f),
            Some(Takes::Node) => f.write_str("it is node A or node B"),
            Some(Takes::Lone) => write!(f, "nothing comes behind {}", Quoted(word)),
            Some(Takes::Number(letter)) => self.tell_number(f, Bytes(word), letter, 1),
        }
    }
}
