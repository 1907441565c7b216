//! Where a fault is, as the beginning of its line says.

use std::fmt::{self, Formatter, Write};
use zy_source_words::Position;

/// Where a fault is.
#[derive(Clone, Copy)]
pub enum Origin<'a> {
    /// In no file.
    Program,
    /// In the file of this name.
    File(&'a str),
    /// At a place of the file of this name.
    Place(&'a str, Position),
    /// In this line of an input that is standard input alone.
    Line(usize),
    /// In this line of standard input, which is below a file.
    LineBelow(usize),
    /// In this line of standard input, where the scenario of the file of this name goes on.
    LineUnended(&'a str, usize),
}

impl<'a> Origin<'a> {
    /// A file, where there is one.
    pub fn of(file: Option<&'a str>) -> Origin<'a> {
        match file {
            Some(file) => Origin::File(file),
            None => Origin::Program,
        }
    }

    /// A place of a file, where there is one.
    pub fn at(file: Option<&'a str>, position: Position) -> Origin<'a> {
        match file {
            Some(file) => Origin::Place(file, position),
            None => Origin::Program,
        }
    }
}

/// `zy_bench`, with the line of standard input where that is known; or the file and in it the line and the column, as
/// editors read it.
impl fmt::Display for Origin<'_> {
    fn fmt<W: Write>(&self, f: &mut Formatter<W>) -> fmt::Result {
        match *self {
            Origin::Program => f.write_str("zy_bench"),
            Origin::File(file) => tell_name(f, file),
            Origin::Place(file, Position { line, column }) => {
                tell_name(f, file)?;
                write!(f, ":{line}:{column}")
            }
            Origin::Line(line) => write!(f, "zy_bench: line {line}"),
            Origin::LineBelow(line) => write!(f, "zy_bench: line {line} of standard input"),
            Origin::LineUnended(file, line) => {
                write!(f, "zy_bench: line {line} of standard input (")?;
                tell_name(f, file)?;
                f.write_str(" has no line end)")
            }
        }
    }
}

/// Writes the name of a file; a control character of it is shown as `\xNN`.
fn tell_name<W: Write>(f: &mut Formatter<W>, name: &str) -> fmt::Result {
    for letter in name.chars() {
        if letter.is_control() {
            write!(f, "\\x{:02x}", u32::from(letter))?;
        } else {
            f.write_char(letter)?;
        }
    }
    Ok(())
}
