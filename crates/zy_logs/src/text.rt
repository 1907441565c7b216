//! The lines of a text, and the words of a line.
ghost use Rattle.std.specs.Prelude.{◌≡◌, ◌==◌, ◌<◌, ◌∷◌, IfOk, length, position};
ghost use Rattle.zy_text.specs.Lines.{texts};
ghost use Rattle.zy_text.specs.Words.{lines_of};
ghost use Rattle.zy_text.specs.Words as spec;

use std::alloc::{AllocError, Global};
use zy_text::line::is_space;

/// Where a text's first line feed is.
fn line_end(text: &[u8]) -> Option<usize>
    ensures { result ≡ position (λ b. b == 10) text.now }
{
    text.iter().position(|byte| *byte == b'\n')
}

/// The first line of a text, and what follows its line feed.
pub(crate) fn first_line(text: &[u8]) -> (&[u8], &[u8])
    requires { 0 < length text.now }
    ensures lines { lines_of text.entry.now ≡ result.0.now ∷ lines_of result.1.now }
    ensures shorter { length result.1.now < length text.entry.now }
{
    match line_end(text) {
        Some(end) => (&text[..end], &text[end + 1..]),
        None => (text, &[]),
    }
}

/// Where a line's comment begins.
fn comment_start(line: &[u8]) -> Option<usize>
    ensures { result ≡ position (λ b. b == 59) line.now }
{
    line.iter().position(|byte| *byte == b';')
}

/// The bytes before a comment.
fn without_comment(line: &[u8]) -> &[u8]
    ensures { result.now ≡ spec.without_comment line.entry.now }
{
    match comment_start(line) {
        Some(start) => &line[..start],
        None => line,
    }
}

/// The words of a line.
pub(crate) fn words_of<'a>(alloc: Global, line: &'a [u8]) -> Result<Vec<&'a [u8]>, AllocError>
    ensures { IfOk result (λ v. texts v.items ≡ spec.words_of line.entry.now) }
{
    without_comment(line)
        .split(|byte| is_space(*byte))
        .filter(|word| !word.is_empty())
        .collect(alloc)
}
