//! The words of the instructions.

use std::fmt::{self, Formatter, Write};
use zy_isa::{Operation, Version};
use zy_source_words::NearestWord;

/// The words of the instructions of all versions, oldest version first.
pub const INSTRUCTIONS: [&'static str; 9] = [
    "set", "read", "write", "insert", "add", "beq", "commit", "abort", "sum",
];

/// Whether a version has an instruction with this word.
fn is_of(version: Version, word: &str) -> bool {
    Operation::named_in(version, word.as_bytes()).is_some()
}

/// Whether a word is an instruction of any version.
pub fn is_instruction(word: &[u8]) -> bool {
    Operation::named(word).is_some()
}

/// Shows a known word that is nearest to another, and where it belongs if it is an instruction that this version lacks.
pub fn show_near<W: Write>(
    f: &mut Formatter<W>,
    version: Version,
    nearest: NearestWord<'_>,
) -> fmt::Result {
    write!(f, "{nearest}")?;
    let word = nearest.word();
    if is_instruction(word.as_bytes()) && !is_of(version, word) {
        f.write_str(", an instruction of version 2, which begins with zephyr 2")
    } else {
        Ok(())
    }
}

/// Shows the words of a version's instructions, with commas between them and `and` before the last.
pub fn show_instructions<W: Write>(f: &mut Formatter<W>, version: Version) -> fmt::Result {
    let of_version = INSTRUCTIONS.iter().filter(|word| is_of(version, **word));
    let count = of_version.count();
    f.write_str("the instructions are ")?;
    for (index, word) in INSTRUCTIONS.iter().take(count).enumerate() {
        let before = separator(index, count);
        write!(f, "{before}{word}")?;
    }
    Ok(())
}

/// What stands before the word of this index, from 0, in a list of this many words.
fn separator(index: usize, count: usize) -> &'static str {
    if index == 0 {
        ""
    } else if index.saturating_add(1) == count {
        " and "
    } else {
        ", "
    }
}
