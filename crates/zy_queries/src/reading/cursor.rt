//! The words of a text. Spaces part them; a bracket is a word by itself, and so are signs of comparison side by side.
ghost use Rattle.std.specs.Prelude.{◌≡◌, ◌≤◌, false, length, option_map};
ghost use Rattle.std.specs.Str.{bytes_eq};
ghost use Rattle.zy_queries.specs.Words.{words_of, first as first_of, after, are_none, begin_with};
ghost use Rattle.zy_queries.specs.Words as spec;
ghost use Rattle.zy_queries.specs.Cursors.{left, read};

use crate::reading::Parsed;
use crate::refusal::{ExpectedInGoal, WordFault};
use zy_text::names::is;

/// A word of a text, and what is behind it. Behind the last word comes the empty one, again and again.
#[derive(Clone, Copy)]
pub struct GoalCursor<'a> {
    word: &'a [u8],
    /// The bytes behind the word.
    rest: &'a [u8],
    /// How many bytes the whole text has.
    len: usize,
}

fn is_space(byte: u8) -> bool
    ensures { result ≡ spec.is_space byte }
{
    byte == b' ' || byte == b'\t' || byte == b'\n' || byte == b'\r'
}

fn is_bracket(byte: u8) -> bool
    ensures { result ≡ spec.is_bracket byte }
{
    byte == b'(' || byte == b')'
}

fn is_sign(byte: u8) -> bool
    ensures { result ≡ spec.is_sign byte }
{
    byte == b'=' || byte == b'!' || byte == b'<' || byte == b'>'
}

/// What is no space, no bracket and no sign.
fn is_plain(byte: u8) -> bool
    ensures { result ≡ spec.is_plain byte }
{
    !is_space(byte) && !is_bracket(byte) && !is_sign(byte)
}

/// Whether two bytes side by side are of one word.
fn are_joined(first: u8, second: u8) -> bool
    ensures { result ≡ spec.are_joined first second }
{
    (is_sign(first) && is_sign(second)) || (is_plain(first) && is_plain(second))
}

/// Whether a byte is of one word with what comes after it.
fn goes_on(byte: u8, more: &[u8]) -> bool
    ensures { result ≡ spec.goes_on byte more.now }
{
    match more {
        [] => false,
        [next, ..] => are_joined(byte, *next),
    }
}

/// A text without the spaces that it begins with.
#[tactic(auto, unfolding(crate::specs::Words::words_of))]
fn without_spaces(bytes: &[u8]) -> &[u8]
    ensures words { words_of result.now ≡ words_of bytes.entry.now }
    ensures begins { spec.begins_with_space result.now ≡ false }
{
    let mut rest = bytes;
    while let Some((first, more)) = rest.split_first() {
        if !is_space(*first) {
            return rest;
        }
        rest = more;
    }
    rest
}

/// How many bytes the first word of a text has, where no space comes before it.
#[tactic(auto, unfolding(crate::specs::Words::word_len))]
fn word_len(bytes: &[u8]) -> usize
    ensures value { result ≡ spec.word_len bytes.now }
    ensures within { result ≤ length bytes.now }
{
    let mut len = 0usize;
    let mut rest = bytes;
    while let Some((first, more)) = rest.split_first() {
        len += 1;
        if !goes_on(*first, more) {
            return len;
        }
        rest = more;
    }
    len
}

impl<'a> GoalCursor<'a> {
    /// At the first word of what is left of a text of `len` bytes.
    fn at_first(bytes: &'a [u8], len: usize) -> GoalCursor<'a>
        ensures { left result ≡ words_of bytes.entry.now }
    {
        let rest = without_spaces(bytes);
        let (word, rest) = rest.split_at(word_len(rest));
        GoalCursor { word, rest, len }
    }

    /// At the first word of a text.
    pub fn new(text: &'a [u8]) -> GoalCursor<'a>
        ensures { left result ≡ words_of text.entry.now }
    {
        GoalCursor::at_first(text, text.len())
    }

    /// At the next word.
    pub fn next(self) -> GoalCursor<'a>
        ensures { left result ≡ after (left self.entry) }
    {
        if self.word.is_empty() {
            self
        } else {
            GoalCursor::at_first(self.rest, self.len)
        }
    }

    /// The word.
    pub fn word(self) -> &'a [u8]
        ensures { result.now ≡ first_of (left self.entry) }
    {
        self.word
    }

    /// Whether the last word is behind the cursor.
    pub fn is_end(self) -> bool
        ensures { result ≡ are_none (left self.entry) }
    {
        self.word.is_empty()
    }

    /// Whether this is the word.
    pub fn is_at(self, word: &[u8]) -> bool
        ensures { result ≡ begin_with word.now (left self.entry) }
    {
        is(self.word(), word)
    }

    /// Why the word is rejected: what was expected in its place.
    pub fn refuses(self, expected: ExpectedInGoal) -> WordFault
        ensures { result.expected ≡ expected }
    {
        let to = self.len.saturating_sub(self.rest.len());
        WordFault {
            from: to.saturating_sub(self.word.len()),
            to,
            expected,
        }
    }

    /// What the word was found to stand for; it is rejected where nothing was found.
    pub fn gives<T: Copy>(self, found: Option<T>, expected: ExpectedInGoal) -> Parsed<'a, T>
        ensures { read result ≡ option_map (λ x. (x, after (left self.entry))) found }
    {
        match found {
            Some(value) => Ok((value, self.next())),
            None => Err(self.refuses(expected)),
        }
    }
}
