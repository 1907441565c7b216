//! The known word that is nearest to a mistyped one.

use crate::prefix::common_prefix;
use std::fmt::{self, Formatter, Write};
use zy_text::names::is;

/// The known word that is nearest to another one.
#[derive(Clone, Copy)]
pub enum NearestWord<'a> {
    /// The other one has capital letters.
    Lowercase(&'a str),
    /// The other one differs by one mistake.
    OneMistake(&'a str),
}

impl<'a> NearestWord<'a> {
    /// The nearest of these words, if any is near.
    pub fn of(word: &[u8], known: &[&'a str]) -> Option<NearestWord<'a>> {
        for name in known {
            if word.eq_ignore_ascii_case(name.as_bytes()) {
                return Some(NearestWord::Lowercase(*name));
            }
        }
        one_mistake_away(word, known).map(NearestWord::OneMistake)
    }

    /// The word itself.
    pub fn word(self) -> &'a str {
        match self {
            NearestWord::Lowercase(name) | NearestWord::OneMistake(name) => name,
        }
    }
}

/// The first of these words from which this one differs by one mistake.
fn one_mistake_away<'a>(word: &[u8], known: &[&'a str]) -> Option<&'a str> {
    let mut names = known.iter();
    names
        .find(|name| is_one_mistake_away(word, name.as_bytes()))
        .copied()
}

impl fmt::Display for NearestWord<'_> {
    fn fmt<W: Write>(&self, f: &mut Formatter<W>) -> fmt::Result {
        match self {
            NearestWord::Lowercase(name) => write!(f, "write it in small letters, {name}"),
            NearestWord::OneMistake(name) => write!(f, "did you mean {name}"),
        }
    }
}

/// Shows the nearest word, or else this text.
pub fn show_nearest<W: Write>(
    f: &mut Formatter<W>,
    nearest: Option<NearestWord<'_>>,
    otherwise: &str,
) -> fmt::Result {
    match nearest {
        Some(nearest) => write!(f, "{nearest}"),
        None => f.write_str(otherwise),
    }
}

/// Whether a word is one of these.
pub fn is_one_of(word: &[u8], known: &[&str]) -> bool {
    known.iter().any(|name| is(word, name.as_bytes()))
}

/// Whether a word may be a mistyped other one.
pub fn is_near(word: &[u8], other: &[u8]) -> bool {
    word.eq_ignore_ascii_case(other) || is_one_mistake_away(word, other)
}

/// Whether a word of two letters or more differs from another by one mistake: a letter is missing, is too many or is
/// another one, or two letters are swapped.
fn is_one_mistake_away(word: &[u8], other: &[u8]) -> bool {
    if word.len() < 2 || other.len() < 2 {
        return false;
    }
    let prefix = common_prefix(word, other);
    let word = word.get(prefix..).unwrap_or(&[]);
    let other = other.get(prefix..).unwrap_or(&[]);
    let suffix = common_suffix(word, other);
    let word = word.get(..word.len().saturating_sub(suffix));
    let other = other.get(..other.len().saturating_sub(suffix));
    is_one_mistake(word.unwrap_or(&[]), other.unwrap_or(&[]))
}

/// The length of the longest common suffix of two words.
fn common_suffix(word: &[u8], other: &[u8]) -> usize {
    let mut pairs = word.iter().rev().zip(other.iter().rev());
    let differing = pairs.position(|(byte, there)| byte != there);
    differing.unwrap_or(word.len().min(other.len()))
}

/// Whether the differing middles of two words are one mistake.
fn is_one_mistake(word: &[u8], other: &[u8]) -> bool {
    match (word, other) {
        ([_], []) | ([], [_]) | ([_], [_]) => true,
        ([a, b], [c, d]) => a == d && b == c,
        _ => false,
    }
}
