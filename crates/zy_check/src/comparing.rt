//! A sink that compares.
ghost use Rattle.std.specs.Prelude.{◌≡◌, ◌<◌, ◌≤◌, ◌+◌, ◌++◌, [], ℕ, List, length, take};
ghost use Rattle.zy_check.specs.Differs.{common, feeds};
ghost use Rattle.zy_check.specs.Differs as spec;
ghost use Rattle.zy_check.specs.Comparing.{sent_by};

use crate::verdict::{Comparison, Verdict};
use memchr::memchr_iter;
use std::alloc::Global;
use std::io;
use std::marker::Model;
use zy_io::Sink;

/// How long the longest common prefix of two texts is. Where the second is a prefix of the first, whole groups of
/// bytes are compared.
fn common_len(x: &[u8], y: &[u8]) -> usize
    ensures { result ≡ length (common x.now y.now) }
{
    if x.starts_with(y) {
        return y.len();
    }
    first_difference(x, y)
}

/// How long the longest common prefix of two texts is, by comparing byte by byte.
fn first_difference(x: &[u8], y: &[u8]) -> usize
    ensures { result ≡ length (common x.now y.now) }
{
    let mut at = 0;
    while at < x.len() && at < y.len() && x[at] == y[at] {
        at += 1;
    }
    at
}

/// The line, from 1, to which this number of bytes of a text leads.
fn line_after(text: &[u8], count: usize) -> usize
    requires { count ≤ length text.now }
    ensures { result ≡ feeds (take count text.now) + 1 }
{
    let (front, _) = text.split_at(count);
    memchr_iter(b'\n', front).count() + 1
}

/// Compares what it is given with an input. It keeps only the bytes of the call in which one differs: a line, if each call puts
/// a whole line. It takes all bytes through the first that differs, and none behind it, so a writer stops there.
#[derive(Drop)]
pub struct Comparing<'a> {
    input: &'a [u8],
    // How many of its bytes were taken.
    at: usize,
    // The byte taken behind them, which is not the input's there.
    other: Option<u8>,
    // The bytes of the call that it was in; none before, and `None` where memory for them was refused.
    expected: Option<Vec<u8>>,
    // How many calls took nothing.
    refusals: u64,
    alloc: Global,
}

impl<'a> Model for Comparing<'a> {
    ghost use Rattle.std.specs.Prelude.{take, ◌++◌};
    ghost use Rattle.zy_check.specs.Comparing.{Compared, AreCompared};
    ghost use Rattle.std.specs.Option.{option_to_list};

    ghost Value = { Compared };

    ghost view = { λ s. record {
      input = s.input.now;
      text = take s.at s.input.now ++ option_to_list s.other;
      refusals = s.refusals;
    } };

    ghost invariant = { λ s. AreCompared s.input.now s.at s.other s.refusals };
}

impl<'a> Comparing<'a> {
    /// Nothing is taken yet.
    pub fn new(alloc: Global, input: &'a [u8]) -> Comparing<'a>
        ensures { result ≡ record { input = input.now; text = []; refusals = 0 } }
    {
        Comparing {
            input,
            at: 0,
            other: None,
            expected: Some(Vec::new(alloc)),
            refusals: 0,
            alloc,
        }
    }

    /// The verdict on the input and the text that was taken, and the line that was kept. Where bytes were refused, no text behind
    /// them changes the verdict.
    pub fn finish(self) -> Comparison
        ensures whole { result.verdict ≡ spec.verdict self.entry.input self.entry.text }
        ensures prefix { 0 < self.entry.refusals → (back : List ℕ)
            → result.verdict ≡ spec.verdict self.entry.input (self.entry.text ++ back) }
    {
        let verdict = if self.other.is_none() && self.at == self.input.len() {
            Verdict::Table
        } else {
            Verdict::NotTable(line_after(self.input, self.at))
        };
        Comparison {
            verdict,
            expected: self.expected,
        }
    }
}

impl Sink for Comparing<'_> {
    ghost sent = { λ s. sent_by s };

    fn put(&mut self, bytes: &[u8]) -> io::Result<usize> {
        if self.other.is_some() {
            if !bytes.is_empty() {
                self.refusals += 1;
            }
            return Ok(0);
        }
        let (_, rest) = self.input.split_at(self.at);
        let same = common_len(rest, bytes);
        let (_, back) = bytes.split_at(same);
        self.at += same;
        if let Some(byte) = back.first() {
            self.other = Some(*byte);
            self.expected = bytes.to_vec(self.alloc).ok();
            return Ok(same + 1);
        }
        Ok(same)
    }
}
