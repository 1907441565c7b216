//! Advice on an unknown word.

use crate::instruction_words::{INSTRUCTIONS, is_instruction, show_instructions, show_near};
use crate::statement_form::{CLIENT_ACTIONS, NODE_ACTIONS, Shape, StatementForm};
use crate::text_advice::TextAdvice;
use crate::word_advice::tell_commas;
use std::fmt::{self, Formatter, Write};
use zy_asm::{LinesAbove, Stage};
use zy_source_words::nearest_word::{is_one_of, show_nearest};
use zy_source_words::{Bytes, NearestWord, Negative, Quoted, Statement};
use zy_text::names::is;
use zy_text::numbers::number_of;

/// The first words of the statements that are not instructions and not choices.
const OTHERS: [&'static str; 7] = ["row", "txn", "end", "zephyr", "cap", "pages", "rule"];

impl<'a> TextAdvice<'a> {
    /// Says what is wrong with an unknown word, and what to write.
    pub(crate) fn tell_not_known<W: Write>(&self, f: &mut Formatter<W>) -> fmt::Result {
        match self.form() {
            Some(form) => self.tell_behind(f, form),
            None => self.tell_first(f),
        }
    }

    /// Says what may follow a known word.
    fn tell_behind<W: Write>(&self, f: &mut Formatter<W>, form: StatementForm<'a>) -> fmt::Result {
        match form.shape {
            Shape::OnTxn | Shape::Plain => write!(
                f,
                "behind a choice comes x N or nothing, and not {}: {}",
                Quoted(self.word()),
                form.pattern()
            ),
            Shape::Client => tell_action_of_client(f, self.word()),
            Shape::Node => {
                tell_no_action(f, self.statement.text(0), self.word())?;
                tell_action_of_node(f, self.word(), form)
            }
            _ => self.tell_no_register(f, form),
        }
    }

    /// Says what to write in place of a word that is not a register.
    fn tell_no_register<W: Write>(
        &self,
        f: &mut Formatter<W>,
        form: StatementForm<'a>,
    ) -> fmt::Result {
        let word = self.word();
        write!(
            f,
            "a register r0 to r7 is expected here, not {}: ",
            Quoted(word)
        )?;
        match word {
            [b'R', number @ b'0'..=b'7'] => {
                write!(f, "write it in small letters, r{}", char::from(*number))
            }
            _ => self.tell_registers(f, form),
        }
    }

    /// Says how to write a statement with registers.
    fn tell_registers<W: Write>(
        &self,
        f: &mut Formatter<W>,
        form: StatementForm<'a>,
    ) -> fmt::Result {
        tell_commas(f, self.word())?;
        write!(f, "{}", form.pattern())?;
        match Negative::of(self.word()) {
            Some(negative) if form.has_value_at(self.at) => {
                write!(f, ", with {negative}, in a register")
            }
            _ => Ok(()),
        }
    }

    /// Says what a line may begin with.
    fn tell_first<W: Write>(&self, f: &mut Formatter<W>) -> fmt::Result {
        let word = self.word();
        write!(f, "the word {} is not known here: ", Quoted(word))?;
        if is(word, b"sub") {
            tell_subtraction(f, self.statement.last())
        } else if is_instruction(word) {
            write!(
                f,
                "{} is an instruction of version 2, which begins with zephyr 2",
                Bytes(word)
            )
        } else if is(word, b"li") {
            tell_load(f, self.statement)
        } else if is_action(word) {
            tell_actor(f, word)
        } else {
            self.tell_beginning(f, word)
        }
    }

    /// Says what a line may begin with in place of a word that is no action.
    fn tell_beginning<W: Write>(&self, f: &mut Formatter<W>, word: &[u8]) -> fmt::Result {
        if let Some(told) = advice_for(word, self.statement.text(1)) {
            return f.write_str(told);
        }
        match NearestWord::of(word, &INSTRUCTIONS).or(NearestWord::of(word, &OTHERS)) {
            Some(nearest) => show_near(f, self.above.version, nearest),
            None => tell_statements(f, self.above),
        }
    }
}

/// The advice on the first two words of a line that is the same in every text.
fn advice_for(word: &[u8], next: &[u8]) -> Option<&'static str> {
    match word {
        b"a" | b"b" | b"c" => Some("the actors are A, B and C, in capital letters"),
        _ if begins_other_comment(word) => Some("a comment begins with ;"),
        _ if is_action(next) => Some("the actors are A, B and C"),
        _ => None,
    }
}

/// Says which actor has the action that a line begins with.
fn tell_actor<W: Write>(f: &mut Formatter<W>, action: &[u8]) -> fmt::Result {
    f.write_str("a choice begins with its actor, ")?;
    if is_one_of(action, &CLIENT_ACTIONS) {
        write!(f, "C {}", Bytes(action))
    } else {
        tell_nodes(f, Bytes(action))
    }
}

/// Says how each node writes an action.
fn tell_nodes<W: Write>(f: &mut Formatter<W>, action: Bytes<'_>) -> fmt::Result {
    write!(f, "A {action} or B {action}")
}

/// Says that an actor lacks an action.
fn tell_no_action<W: Write>(f: &mut Formatter<W>, actor: &[u8], action: &[u8]) -> fmt::Result {
    write!(f, "{} has no action {}", Bytes(actor), Quoted(action))
}

/// Says how to subtract the number that a word spells, or else any number.
pub fn tell_subtraction<W: Write>(f: &mut Formatter<W>, word: &[u8]) -> fmt::Result {
    match number_of(word).and_then(Negative::minus) {
        Some(negative) => write!(f, "set a register to {negative}, and add it"),
        None => f.write_str("to take N away, set a register to 2^32 - N, and add it"),
    }
}

/// Says how to put a number into a register.
fn tell_load<W: Write>(f: &mut Formatter<W>, statement: Statement<'_>) -> fmt::Result {
    f.write_str("set rA N puts a number into a register")?;
    match Negative::among(statement) {
        Some(negative) => write!(f, ", here {negative}"),
        None => Ok(()),
    }
}

/// Whether a word begins a comment of another language.
pub fn begins_other_comment(word: &[u8]) -> bool {
    word.starts_with(b"#")
        || word.starts_with(b"//")
        || word.starts_with(b"--")
        || word.starts_with(b"/*")
}

/// Whether a word is an action.
fn is_action(word: &[u8]) -> bool {
    is_one_of(word, &CLIENT_ACTIONS) || is_one_of(word, &NODE_ACTIONS)
}

/// Says that the client lacks an action, and which ones it has.
fn tell_action_of_client<W: Write>(f: &mut Formatter<W>, action: &[u8]) -> fmt::Result {
    tell_no_action(f, b"C", action)?;
    if is(action, b"run") {
        f.write_str(", which is a node's: A run T or B run T")
    } else if is_one_of(action, &NODE_ACTIONS) {
        f.write_str(", which is a node's: ")?;
        tell_nodes(f, Bytes(action))
    } else {
        f.write_str(": ")?;
        show_nearest(
            f,
            NearestWord::of(action, &CLIENT_ACTIONS),
            "C start, C begin T or C kill T",
        )
    }
}

/// Says which actions a node has in place of this one.
fn tell_action_of_node<W: Write>(
    f: &mut Formatter<W>,
    action: &[u8],
    form: StatementForm<'_>,
) -> fmt::Result {
    if is_one_of(action, &CLIENT_ACTIONS) {
        let behind = if is(action, b"start") { "" } else { " T" };
        return write!(f, ", which is the client's: C {}{behind}", Bytes(action));
    }
    f.write_str(": ")?;
    match NearestWord::of(action, &NODE_ACTIONS) {
        Some(nearest) => write!(f, "{nearest}"),
        None => write!(f, "{}", form.pattern()),
    }
}

/// Says which words a line here may begin with.
fn tell_statements<W: Write>(f: &mut Formatter<W>, above: LinesAbove) -> fmt::Result {
    match above.stage {
        Stage::Choices => f.write_str(
            "below the first choice come choices, of A, B and C, and end",
        ),
        Stage::Program => {
            show_instructions(f, above.version)?;
            f.write_str("; below the program come txn, the choices of A, B and C, and end")
        }
        _ => f.write_str("below the header come row, txn, the choices of A, B and C, and end"),
    }
}
