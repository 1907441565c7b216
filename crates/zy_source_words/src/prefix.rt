//! Prefixes of words: how long a common one is, and the number that follows a known one.

use zy_text::numbers::number_of;

/// The length of the longest common prefix of two texts.
pub fn common_prefix(text: &[u8], other: &[u8]) -> usize {
    let mut pairs = text.iter().zip(other.iter());
    let differing = pairs.position(|(byte, there)| byte != there);
    differing.unwrap_or(text.len().min(other.len()))
}

/// The rest of a word behind a prefix, if that rest is a number.
pub fn number_behind<'a>(word: &'a [u8], prefix: &[u8]) -> Option<&'a [u8]> {
    let rest = word.strip_prefix(prefix)?;
    number_of(rest)?;
    Some(rest)
}
