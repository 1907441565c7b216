//! Why an input could not be opened or read.

use std::fmt::{self, Formatter, Write};
use std::io;
use std::io::ErrorKind;

/// The system's error number for a stream that is not open for reading.
const NOT_OPEN: i32 = 9;

/// Why an input could not be opened or read.
#[derive(Clone, Copy)]
pub struct Failure {
    obstacle: Obstacle,
    /// Whether it is of a file, and not of standard input.
    pub is_file: bool,
}

/// What is the matter with an input.
#[derive(Clone, Copy)]
enum Obstacle {
    /// There is no such file.
    Missing,
    /// It may not be read.
    Forbidden,
    /// It is a directory.
    Directory,
    /// It is not open for reading.
    NotOpen,
    /// Something else.
    Other,
}

impl Failure {
    /// What an error of a file, or else of standard input, says.
    pub fn of(error: &io::Error, is_file: bool) -> Failure {
        let obstacle = match error.kind() {
            ErrorKind::NotFound | ErrorKind::NotADirectory => Obstacle::Missing,
            ErrorKind::PermissionDenied => Obstacle::Forbidden,
            ErrorKind::IsADirectory => Obstacle::Directory,
            _ if error.raw_os_error() == Some(NOT_OPEN) => Obstacle::NotOpen,
            _ => Obstacle::Other,
        };
        Failure { obstacle, is_file }
    }
}

impl fmt::Display for Failure {
    fn fmt<W: Write>(&self, f: &mut Formatter<W>) -> fmt::Result {
        let input = if self.is_file {
            "the file"
        } else {
            "standard input"
        };
        match self.obstacle {
            Obstacle::Missing => f.write_str("there is no such file"),
            Obstacle::Forbidden => write!(f, "there is no permission to read {input}"),
            Obstacle::Directory => write!(f, "{input} is a directory"),
            Obstacle::NotOpen => write!(f, "{input} is closed, or open for writing alone"),
            Obstacle::Other if self.is_file => {
                f.write_str("the file could not be opened, or not be read to its end")
            }
            Obstacle::Other => f.write_str("standard input could not be read to its end"),
        }
    }
}
