//! Negative numbers. A register holds -n as 2^32 - n.

use crate::line::Statement;
use std::fmt::{self, Formatter, Write};
use zy_text::numbers::number_of;

/// How many values a register has.
const VALUES: u64 = 1 << 32;

/// A negative number, without its sign.
#[derive(Clone, Copy)]
pub struct Negative(u64);

impl Negative {
    /// The number that a word spells: `-` and digits.
    pub fn of(word: &[u8]) -> Option<Negative> {
        Negative::minus(number_of(word.strip_prefix(b"-")?)?)
    }

    /// Minus this number, if a register can hold it.
    pub fn minus(number: u64) -> Option<Negative> {
        (1..VALUES).contains(&number).then_some(Negative(number))
    }

    /// The first negative number behind the first word of a statement.
    pub fn among(statement: Statement<'_>) -> Option<Negative> {
        for at in 1..4 {
            if let Some(negative) = Negative::of(statement.text(at)) {
                return Some(negative);
            }
        }
        None
    }
}

/// The value that a register holds for it, and how to compute that value.
impl fmt::Display for Negative {
    fn fmt<W: Write>(&self, f: &mut Formatter<W>) -> fmt::Result {
        let Negative(number) = *self;
        write!(
            f,
            "{}, which is 2^32 - {number}",
            VALUES.saturating_sub(number)
        )
    }
}
