//! What to write in place of a command line that is not understood.

use crate::arguments::{COUNTED, Counted};
use crate::table::command_of;
use clap::error::ErrorKind;
use std::fmt::{self, Formatter, Write};
use zy_diagnostics::CommandName;
use zy_source_words::Bytes;

/// What was meant by a command line.
#[derive(Clone, Copy)]
pub enum Hint<'a> {
    /// A file comes first, where a command is due.
    NoCommand(&'a str),
    /// There are more files than the one that this command reads.
    OneFile(&'a str),
    /// There are several files, where a scenario and logs are read as one input.
    OneInput,
    /// The value of a flag is no whole number.
    NoNumber(NoNumber<'a>),
}

/// A value that is no whole number.
#[derive(Clone, Copy)]
pub struct NoNumber<'a> {
    counted: Counted,
    value: &'a str,
}

impl<'a> Hint<'a> {
    /// What was meant by these words, the first of which is the program's name.
    pub fn of(kind: ErrorKind, words: &'a [String]) -> Option<Hint<'a>> {
        let (_, words) = words.split_first()?;
        match (kind, words) {
            (ErrorKind::InvalidSubcommand, [file]) if is_path(file) => Some(Hint::NoCommand(file)),
            (ErrorKind::UnknownArgument, [command, _, _, ..]) if !words.iter().any(is_flag) => {
                Some(match command_of(command) {
                    Some(CommandName::Order) => Hint::OneInput,
                    _ => Hint::OneFile(command),
                })
            }
            (ErrorKind::ValueValidation, _) => NoNumber::of(words).map(Hint::NoNumber),
            _ => None,
        }
    }
}

/// Whether a word names a file rather than a command.
fn is_path(word: &String) -> bool {
    word.as_bytes().contains(&b'.') || word.as_bytes().contains(&b'/')
}

/// Whether a word is a flag.
fn is_flag(word: &String) -> bool {
    word.as_bytes().starts_with(b"-")
}

impl<'a> NoNumber<'a> {
    /// The first value of a flag among these words that is no whole number.
    fn of(words: &'a [String]) -> Option<NoNumber<'a>> {
        for (index, word) in words.iter().enumerate() {
            let (flag, value) = match word.as_str().split_once('=') {
                Some((flag, value)) => (flag, value),
                None => (word.as_str(), words.get(index + 1)?.as_str()),
            };
            if let Some(counted) = counted_of(flag) {
                if !is_whole(value.as_bytes()) {
                    return Some(NoNumber { counted, value });
                }
            }
        }
        None
    }

    /// The number that was meant, where the flag takes it and it is not 0.
    fn meant(self) -> Option<u64> {
        let number = spelled(self.value.as_bytes())?;
        (1..=u64::from(self.counted.most))
            .contains(&number)
            .then_some(number)
    }
}

/// The flag of this name, if it takes a number.
fn counted_of(flag: &str) -> Option<Counted> {
    let name = flag.strip_prefix("--")?;
    COUNTED.into_iter().find(|counted| counted.name == name)
}

/// Whether a word is digits alone.
fn is_whole(word: &[u8]) -> bool {
    !word.is_empty() && word.iter().all(|byte| byte.is_ascii_digit())
}

/// The number that a word spells: digits in groups, or digits with an exponent, as in `1_000_000` and `1e6`.
fn spelled(word: &[u8]) -> Option<u64> {
    let mut number = 0u64;
    for (index, byte) in word.iter().enumerate() {
        match *byte {
            b'0'..=b'9' => {
                number = number
                    .saturating_mul(10)
                    .saturating_add(u64::from(*byte - b'0'))
            }
            b'_' => {}
            b'e' | b'E' => return raised(number, word.get(index + 1..).unwrap_or(&[])),
            _ => return None,
        }
    }
    Some(number)
}

/// A number with as many noughts behind it as an exponent of one digit says.
fn raised(number: u64, exponent: &[u8]) -> Option<u64> {
    let [digit @ b'0'..=b'9'] = exponent else {
        return None;
    };
    let mut raised = number;
    for _ in 0..*digit - b'0' {
        raised = raised.saturating_mul(10);
    }
    Some(raised)
}

impl fmt::Display for Hint<'_> {
    fn fmt<W: Write>(&self, f: &mut Formatter<W>) -> fmt::Result {
        match self {
            Hint::NoCommand(file) => write!(
                f,
                "a command comes before the file: zy_bench run {}",
                Bytes(file.as_bytes())
            ),
            Hint::OneFile(command) => write!(f, "{} reads one file", Bytes(command.as_bytes())),
            Hint::OneInput => f.write_str(concat!(
                "order reads the scenario and the logs as one input: ",
                "cat scenario client.log a.log b.log | zy_bench order"
            )),
            Hint::NoNumber(value) => write!(f, "{value}"),
        }
    }
}

impl fmt::Display for NoNumber<'_> {
    fn fmt<W: Write>(&self, f: &mut Formatter<W>) -> fmt::Result {
        let Counted {
            name,
            least,
            most,
            ..
        } = self.counted;
        match self.meant() {
            Some(number) => write!(f, "--{name} takes a whole number: {number}"),
            None => write!(f, "--{name} takes a whole number from {least} to {most}"),
        }
    }
}
