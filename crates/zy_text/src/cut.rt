//! Where the scenario part of an input ends.
ghost use Rattle.std.specs.Prelude.{◌≡◌, ◌==◌, ◌+◌, ◌<◌, ◌∷◌, true, false, length, min, position, codes};
ghost use Rattle.std.specs.List.{list_all};
ghost use Rattle.std.specs.Str.{bytes_eq};
ghost use Rattle.zy_text.specs.Words.{words_of, lines_of};
ghost use Rattle.zy_text.specs.Words as spec;
ghost use Rattle.zy_text.specs.Cut.{cut, is_end};

use crate::line::is_space;
use memchr::memchr;

/// Where a byte first occurs.
fn first_place(bytes: &[u8], sought: u8) -> Option<usize>
    ensures { result ≡ position (λ b. b == sought) bytes.now }
{
    memchr(sought, bytes)
}

/// The bytes before a comment.
fn without_comment(line: &[u8]) -> &[u8]
    ensures { result.now ≡ spec.without_comment line.entry.now }
{
    match first_place(line, b';') {
        Some(end) => &line[..end],
        None => line,
    }
}

/// The first line of a text, and what follows its LF.
fn first_line(text: &[u8]) -> (&[u8], &[u8])
    requires { 0 < length text.now }
    ensures lines { lines_of text.entry.now ≡ result.0.now ∷ lines_of result.1.now }
    ensures parted { length text.entry.now ≡ min (length text.entry.now)
        (length result.0.now + 1) + length result.1.now }
{
    match first_place(text, b'\n') {
        Some(end) => (&text[..end], &text[end + 1..]),
        None => (text, &[]),
    }
}

/// How many words a line has.
fn word_count(line: &[u8]) -> usize
    ensures { result ≡ length (words_of line.now) }
{
    without_comment(line)
        .split(|byte| is_space(*byte))
        .filter(|word| !word.is_empty())
        .count()
}

/// Whether each word of a line is `end`.
fn each_is_end(line: &[u8]) -> bool
    ensures { result ≡ list_all (λ w. bytes_eq w (codes "end")) (words_of line.now) }
{
    without_comment(line)
        .split(|byte| is_space(*byte))
        .filter(|word| !word.is_empty())
        .all(|word| word == b"end".as_slice())
}

/// Whether the first byte shows that the line's first word is not `end`.
fn begins_otherwise(line: &[u8]) -> bool
    ensures { result ≡ true → is_end line.now ≡ false }
{
    match line.first() {
        Some(byte) => !is_space(*byte) && *byte != b';' && *byte != b'e',
        None => false,
    }
}

/// Whether the line's only word is `end`.
fn is_end_line(line: &[u8]) -> bool
    ensures { result ≡ is_end line.now }
{
    if begins_otherwise(line) {
        return false;
    }
    word_count(line) == 1 && each_is_end(line)
}

/// How many bytes the scenario part has: all through the first line whose only word is `end`, or all.
pub fn cut_len(bytes: &[u8]) -> usize
    ensures { result ≡ length (cut bytes.now) }
{
    let mut rest = bytes;
    while !rest.is_empty() {
        let (line, below) = first_line(rest);
        rest = below;
        if is_end_line(line) {
            return bytes.len() - rest.len();
        }
    }
    bytes.len()
}
