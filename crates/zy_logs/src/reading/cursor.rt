//! The words of a line, from left to right.
ghost use Rattle.std.specs.Prelude.{◌≡◌};
ghost use Rattle.zy_text.specs.Lines.{texts};
ghost use Rattle.zy_logs.specs.Words as spec;
ghost use Rattle.zy_logs.specs.Cursors.{left, read};

use crate::expected::ExpectedInLog;
use zy_text::names::is;

/// How many words are left at one that does not fit, with it, and what may stand in its place.
#[derive(Clone, Copy)]
pub struct Misfit {
    pub left: usize,
    pub expected: ExpectedInLog,
}

/// What the words at hand spell, and the words after them.
pub type Parsed<'a, T> = Result<(T, LogCursor<'a>), Misfit>;

/// The words that are left. Behind the last word comes the empty one, again and again.
#[derive(Clone, Copy)]
pub struct LogCursor<'a> {
    words: &'a [&'a [u8]],
}

impl<'a> LogCursor<'a> {
    /// At the first of some words.
    pub fn new(words: &'a [&'a [u8]]) -> LogCursor<'a>
        ensures { left result ≡ texts words.entry.now }
    {
        LogCursor { words }
    }

    /// At the next word.
    pub fn next(self) -> LogCursor<'a>
        ensures { left result ≡ spec.after (left self.entry) }
    {
        match self.words {
            [] => self,
            [_, words @ ..] => LogCursor { words },
        }
    }

    /// The word.
    pub fn word(self) -> &'a [u8]
        ensures { result.now ≡ spec.first (left self.entry) }
    {
        match self.words {
            [] => &[],
            [word, ..] => word,
        }
    }

    /// Whether the last word is behind the cursor.
    pub fn is_end(self) -> bool
        ensures { result ≡ spec.are_none (left self.entry) }
    {
        self.words.is_empty()
    }

    /// Whether this is the word.
    pub fn is_at(self, word: &[u8]) -> bool
        ensures { result ≡ spec.begin_with word.now (left self.entry) }
    {
        is(self.word(), word)
    }

    /// Whether there is no word, or the message comes.
    pub fn is_message_or_end(self) -> bool
        ensures { result ≡ spec.message_or_end (left self.entry) }
    {
        self.is_end() || self.is_at(b"!")
    }

    /// Whether an outcome ends before the word: there is none, or the message comes, or rows do.
    pub fn ends_outcome(self) -> bool
        ensures { result ≡ spec.end_outcome (left self.entry) }
    {
        self.is_message_or_end() || self.is_at(b"rows")
    }

    /// Why the word is rejected: what may stand in its place.
    pub fn refuses(self, expected: ExpectedInLog) -> Misfit
        ensures { result ≡ spec.stop expected (left self.entry) }
    {
        Misfit {
            left: self.words.len(),
            expected,
        }
    }

    /// What the word was found to stand for; it is rejected where nothing was found.
    pub fn gives<T: Copy>(self, found: Option<T>, expected: ExpectedInLog) -> Parsed<'a, T>
        ensures { read result ≡ spec.gives found expected (left self.entry) }
    {
        match found {
            Some(value) => Ok((value, self.next())),
            None => Err(self.refuses(expected)),
        }
    }
}
