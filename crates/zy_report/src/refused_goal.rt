//! Why the text of a goal is rejected.

use std::fmt::{self, Formatter, Write};
use zy_queries::WordFault;
use zy_source_words::{MarkedWord, SourceWord};

/// A goal that is rejected, and the word that does not fit.
#[derive(Clone, Copy)]
pub struct RefusedGoal<'a> {
    text: &'a str,
    is_always: bool,
    refusal: WordFault,
}

impl<'a> RefusedGoal<'a> {
    /// Why the text behind `--always`, or else `--for`, is no goal.
    pub fn of(text: &'a str, is_always: bool, refusal: WordFault) -> RefusedGoal<'a> {
        RefusedGoal {
            text,
            is_always,
            refusal,
        }
    }
}

/// The flag, what is expected, and the text of the goal with the word at fault marked. `>` and `<` are words of goals.
impl fmt::Display for RefusedGoal<'_> {
    fn fmt<W: Write>(&self, f: &mut Formatter<W>) -> fmt::Result {
        let WordFault { from, to, expected } = self.refusal;
        let text = self.text.as_bytes();
        let word = SourceWord {
            start: from,
            bytes: text.get(from..to).unwrap_or(&[]),
        };
        let flag = if self.is_always { "always" } else { "for" };
        let place = MarkedWord::of(text, word).with_lone_marks();
        write!(f, "--{flag}: {expected} ({place})")
    }
}
