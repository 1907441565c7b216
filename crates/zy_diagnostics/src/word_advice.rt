//! Advice on names, instructions, numbers and the number of words.

use crate::header_statement::HeaderStatement;
use crate::instruction_words::{INSTRUCTIONS, is_instruction, show_instructions, show_near};
use crate::statement_form::{Shape, StatementForm};
use crate::text_advice::TextAdvice;
use crate::unknown_word::{begins_other_comment, tell_subtraction};
use std::fmt::{self, Formatter, Write};
use zy_source_words::prefix::number_behind;
use zy_source_words::{Bytes, NearestWord, Negative, Quoted};
use zy_text::names::{is, is_name, label_of};
use zy_text::numbers::number_of;

/// The most bytes of a name.
const MAX_NAME: usize = 32;

impl TextAdvice<'_> {
    /// Says what to write in place of a word that is not a name.
    pub(crate) fn tell_no_name<W: Write>(&self, f: &mut Formatter<W>) -> fmt::Result {
        match self.form() {
            Some(form) if matches!(form.shape, Shape::Jump) && self.at > form.at => {
                tell_target(f, self.word())
            }
            _ => self.tell_bad_name(f, self.word()),
        }
    }

    /// Says what a name is, and how long this one is if it is too long.
    fn tell_bad_name<W: Write>(&self, f: &mut Formatter<W>, word: &[u8]) -> fmt::Result {
        let length = label_of(word).unwrap_or(word).len();
        if length > MAX_NAME {
            write!(f, "{}: this one has {length}", self.reason)
        } else {
            write!(f, "{}", self.reason)
        }
    }

    /// Says what follows a label.
    pub(crate) fn tell_no_instruction<W: Write>(&self, f: &mut Formatter<W>) -> fmt::Result {
        let word = self.word();
        self.tell_reason(f)?;
        if is_instruction(word) {
            write!(
                f,
                "{} is one of version 2, which begins with zephyr 2",
                Bytes(word)
            )
        } else if is(word, b"sub") {
            tell_subtraction(f, self.statement.last())
        } else {
            self.tell_instruction_for(f, word)
        }
    }

    /// Says which instruction is nearest to a word, or which ones there are.
    fn tell_instruction_for<W: Write>(&self, f: &mut Formatter<W>, word: &[u8]) -> fmt::Result {
        match NearestWord::of(word, &INSTRUCTIONS) {
            Some(nearest) => show_near(f, self.above.version, nearest),
            None if label_of(word).is_some() => f.write_str("a line has one label"),
            None => show_instructions(f, self.above.version),
        }
    }

    /// Says how to write a statement that has too few words or too many.
    pub(crate) fn tell_count<W: Write>(&self, f: &mut Formatter<W>) -> fmt::Result {
        match self.form() {
            Some(_) if begins_other_comment(self.word()) => f.write_str("a comment begins with ;"),
            Some(form) if form.is_choice() && self.at >= form.words() => {
                self.tell_times(f, form)
            }
            Some(form) => {
                tell_commas(f, self.statement.bytes)?;
                write!(f, "{form}")
            }
            None => write!(f, "{}", self.reason),
        }
    }

    /// Says what may follow a choice.
    fn tell_times<W: Write>(&self, f: &mut Formatter<W>, form: StatementForm<'_>) -> fmt::Result {
        let word = self.word();
        if let Some(number) = number_behind(word, b"x") {
            write!(
                f,
                "behind a choice comes x {}, with a space between",
                Bytes(number)
            )
        } else if is(word, b"x") {
            form.tell(f, "behind x comes how often")
        } else if self.at > form.words() {
            form.tell(f, "nothing comes behind x N")
        } else {
            write!(f, "{form}")
        }
    }

    /// Says how to write a statement in which a word is not a number in its range.
    pub(crate) fn tell_number<W: Write>(&self, f: &mut Formatter<W>) -> fmt::Result {
        self.tell_reason(f)?;
        match (HeaderStatement::of(self.above.stage), self.form()) {
            (Some(statement), _) => f.write_str(statement.pattern),
            (None, Some(form)) => self.tell_value(f, form),
            (None, None) => Ok(()),
        }
    }

    /// Says how to write a statement with a wrong value.
    fn tell_value<W: Write>(&self, f: &mut Formatter<W>, form: StatementForm<'_>) -> fmt::Result {
        write!(f, "{}", form.pattern())?;
        match Negative::of(self.word()) {
            Some(negative) if form.has_value_at(self.at) => { write!(f, ", here {negative}") }
            _ => Ok(()),
        }
    }
}

/// Says that no comma separates words, if some bytes have one.
pub fn tell_commas<W: Write>(f: &mut Formatter<W>, bytes: &[u8]) -> fmt::Result {
    if bytes.contains(&b',') {
        f.write_str("words have spaces between them, and no comma: ")
    } else {
        Ok(())
    }
}

/// Says what a target is, and that this word is not one.
fn tell_target<W: Write>(f: &mut Formatter<W>, word: &[u8]) -> fmt::Result {
    let (target, name) = target_for(word);
    write!(
        f,
        "a target is {target}{}, and not {}",
        Bytes(name),
        Quoted(word)
    )
}

/// The target to write in place of a word: what a target is, and the name of this one.
fn target_for(word: &[u8]) -> (&'static str, &[u8]) {
    if number_of(word).is_some() {
        return ("a label or @", word);
    }
    match label_of(word) {
        Some(name) if is_name(name) => ("a label without its colon, ", name),
        _ => ("a label or @", b"N"),
    }
}
