//! The first words of a line.
ghost use Rattle.std.specs.Prelude.{◌≡◌, ◌==◌, ◌<◌, ◌≤◌, ◌∷◌, ◌++◌, [], length, filter, drop, position};
ghost use Rattle.std.specs.List.{position_or_len, before_first};
ghost use Rattle.zy_text.specs.Words.{is_word, lines_of, words_of};
ghost use Rattle.zy_text.specs.Words as spec;
ghost use Rattle.zy_text.specs.Lines.{first_line, lines_below, first_words, texts, ends_word};

use std::marker::Model;

/// The most words that are kept.
const MOST: usize = 6;

/// The first words of a line, at most six: one more than any statement or command has.
#[derive(Drop)]
pub struct Words<'a> {
    words: [&'a [u8]; MOST],
    count: usize,
    ghost few: { count ≤ 6 },
}

impl<'a> Model for Words<'a> {
    ghost use Rattle.std.specs.Prelude.{List, ℕ, take};
    ghost use Rattle.zy_text.specs.Lines.{texts};

    ghost Value = { List (List ℕ) };

    ghost view = { λ w. take w.count (texts w.words) };
}

impl<'a> Words<'a> {
    /// No words.
    pub fn new() -> Words<'a>
        ensures { result ≡ [] }
    {
        Words {
            words: [&[]; MOST],
            count: 0,
        }
    }

    fn clear(&mut self)
        ensures { self.new ≡ [] }
    {
        self.count = 0;
    }

    /// A word more, if it is one, unless six are there.
    #[inline(always)]
    fn push(&mut self, word: &'a [u8])
        ensures { self.new ≡ first_words (self.old ++ filter is_word (word.now ∷ [])) }
    {
        if self.count == MOST {
            return;
        }
        if !word.is_empty() {
            self.words[self.count] = word;
            self.count += 1;
        }
    }

    /// The words in order.
    pub fn as_slice(&self) -> &[&'a [u8]]
        ensures { texts result.now ≡ self.entry.now }
    {
        &self.words[..self.count]
    }
}

/// Whether a byte parts words: a space, a tab or a carriage return.
pub fn is_space(byte: u8) -> bool
    ensures { result ≡ spec.is_space byte }
{
    byte == b' ' || byte == b'\t' || byte == b'\r'
}

/// Where the first byte is that ends a word.
fn word_end(text: &[u8]) -> Option<usize>
    ensures { result ≡ position ends_word text.now }
{
    text.iter().position(|byte| {
        *byte == b' ' || *byte == b'\t' || *byte == b'\r' || *byte == b'\n' || *byte == b';'
    })
}

/// The bytes before the first one that ends a word, and those from there on.
#[inline(always)]
fn first_word(text: &[u8]) -> (&[u8], &[u8])
    ensures word { result.0.now ≡ before_first ends_word text.entry.now }
    ensures behind { result.1.now ≡ drop (position_or_len ends_word text.entry.now) text.entry.now }
{
    match word_end(text) {
        Some(end) => text.split_at(end),
        None => (text, &[]),
    }
}

/// Where a text's first line feed is.
fn line_end(text: &[u8]) -> Option<usize>
    ensures { result ≡ position (λ b. b == 10) text.now }
{
    text.iter().position(|byte| *byte == b'\n')
}

/// What is below a text's first line.
fn below(text: &[u8]) -> &[u8]
    ensures lines { lines_of result.now ≡ lines_below text.entry.now }
    ensures few { length result.now ≤ length text.entry.now }
{
    match line_end(text) {
        Some(end) => &text[end + 1..],
        None => &[],
    }
}

/// Puts the first words of a text's first line, without its comment, in place of what is there, and gives what is below
/// the line.
#[inline(always)]
pub fn take_line<'a>(words: &mut Words<'a>, text: &'a [u8]) -> &'a [u8]
    requires { 0 < length text.now }
    ensures words { words.new ≡ first_words (words_of (first_line text.entry.now)) }
    ensures below { lines_of result.now ≡ lines_below text.entry.now }
    ensures shorter { length result.now < length text.entry.now }
{
    words.clear();
    let mut rest = text;
    loop {
        let (word, behind) = first_word(rest);
        words.push(word);
        let Some((byte, after)) = behind.split_first() else {
            return behind;
        };
        if *byte == b'\n' {
            return after;
        }
        if *byte == b';' {
            return below(after);
        }
        rest = after;
    }
}
