//! The names that a scenario text gives its transactions.
ghost use Rattle.std.specs.Prelude.{◌≡◌, ◌↔◌, ℕ, List, ◌++◌, length, Ok, IfOk, OnOk};
ghost use Rattle.std.specs.Option.{option_copied};
ghost use Rattle.zy_isa.specs.Scenario as isa;
ghost use Rattle.zy_text.specs.Lines.{texts};
ghost use Rattle.zy_text.specs.Words.{lines_with_words};
ghost use Rattle.zy_text.specs.Text as marks;
ghost use Rattle.zy_text.specs.Text.{Draft, Refers, IsDraftOf, SpellEach, statements};
ghost use Rattle.zy_asm.specs.Reading.{reading};
ghost use Rattle.zy_asm.specs.Reading.Progress.{Seen};
ghost use Rattle.zy_asm.specs.Names as spec;

use std::alloc::{AllocError, Global};
use zy_text::Words;
use zy_text::line::take_line;
use zy_text::names::{is, is_name};

/// The word if it is a name, otherwise no bytes.
fn if_name(word: &[u8]) -> &[u8]
    ensures { result.now ≡ spec.if_name word.entry.now }
{
    if is_name(word) { word } else { &[] }
}

/// The name that a line of these words gives a transaction, if it is the head of a program.
fn name_at<'a>(words: &[&'a [u8]]) -> Option<&'a [u8]>
    ensures { option_copied result ≡ spec.name_at (texts words.now) }
{
    match words {
        [first, second, ..] if is(first, b"txn") => Some(if_name(second)),
        _ => None,
    }
}

/// Adds the name that a line of these words gives a transaction, if it is the head of a program.
fn add_name<'a>(names: &mut Vec<&'a [u8]>, words: &[&'a [u8]]) -> Result<(), AllocError>
    ensures { OnOk result (texts names.new.items ≡ texts names.old.items ++ spec.listed (spec.name_at (texts words.now))) }
{
    match name_at(words) {
        Some(name) => {
            names.push(name)?;
            Ok(())
        }
        None => Ok(()),
    }
}

/// The names that a scenario text gives its transactions, indexed by transaction number. The name of a transaction without one is empty.
pub fn names_of(alloc: Global, text: &[u8]) -> Result<Vec<&[u8]>, AllocError>
    ensures { IfOk result (λ v. texts v.items ≡ spec.names_of text.entry.now) }
{
    let mut names = Vec::new(alloc);
    let mut words = Words::new();
    let mut rest = text;
    while !rest.is_empty() {
        rest = take_line(&mut words, rest);
        add_name(&mut names, words.as_slice())?;
    }
    Ok(names)
}

/// The names of a text are those by which its choices name transactions.
pub fn choices_go_by_names()
    // Of a text that means a scenario, a word of a choice refers to the transaction that it stands for by the names.
    ensures choices { (text : List ℕ) → (s : isa.Scenario) → (d : Draft) → IsDraftOf d s
        → SpellEach (statements s d) (lines_with_words text) → (t : ℕ) → (w : List ℕ)
        → Refers (marks.names_of 0 d.programs) t w ↔ spec.StandsFor (spec.names_of text) t w }
    // The names say what the table says by which such a text means its choices.
    ensures meant { (text : List ℕ) → (s : isa.Scenario) → (d : Draft) → IsDraftOf d s
        → SpellEach (statements s d) (lines_with_words text)
        → spec.SayTheSame (spec.names_of text) (length s.programs) (marks.names_of 0 d.programs) }
    // They say what the table says by which a text is read.
    ensures read { (text : List ℕ) → (seen : Seen) → reading text ≡ Ok seen
        → spec.SayTheSame (spec.names_of text) (length seen.programs) seen.names }
{}
