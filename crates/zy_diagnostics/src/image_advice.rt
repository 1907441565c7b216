//! Advice on a rejected image.

use crate::command::{CommandName, ForText};
use std::fmt::{self, Formatter, Write};
use zy_image::{ImageRefusal, LoadFault};
use zy_isa::{Operation, PairOperation, Version};

/// How many bytes decide whether an input is a text.
const FRONT: usize = 16;

/// Whether an input begins as an image does.
pub fn is_image(input: &[u8]) -> bool {
    input.starts_with(&Version::One.magic()) || input.starts_with(&Version::Two.magic())
}

/// Whether an input begins as a text may.
fn is_text(input: &[u8]) -> bool {
    let front = input.get(..FRONT).unwrap_or(input);
    !front.is_empty()
        && !front.starts_with(b"ZPH")
        && front.iter().all(|byte| may_be_of_text(*byte))
}

/// Whether a byte may be in a text: it prints, is white space, or is part of a longer character of UTF-8.
fn may_be_of_text(byte: u8) -> bool {
    byte.is_ascii_graphic() || byte.is_ascii_whitespace() || byte >= 0x80
}

/// Why a command rejects an image: where, what should be there, what is there, and what to do.
#[derive(Clone, Copy)]
pub struct ImageAdvice<'a> {
    command: CommandName,
    input: &'a [u8],
    refusal: ImageRefusal,
}

impl<'a> ImageAdvice<'a> {
    /// Why this command rejects this input.
    pub fn of(command: CommandName, input: &'a [u8], refusal: ImageRefusal) -> ImageAdvice<'a> {
        ImageAdvice {
            command,
            input,
            refusal,
        }
    }

    /// Whether the bytes at fault have the operation `sum`, which version 1 lacks.
    fn is_sum_too_early(&self) -> bool {
        let opcode = self.input.get(self.refusal.at).copied();
        matches!(self.refusal.fault, LoadFault::Word(_, _))
            && self.input.starts_with(&Version::One.magic())
            && opcode == Some(Operation::Pair(PairOperation::Sum).opcode())
    }
}

impl fmt::Display for ImageAdvice<'_> {
    fn fmt<W: Write>(&self, f: &mut Formatter<W>) -> fmt::Result {
        write!(f, "{}", self.refusal)?;
        if self.input.is_empty() {
            f.write_str("; the input is empty")
        } else if is_text(self.input) {
            write!(f, "; {}", ForText(self.command))
        } else if self.is_sum_too_early() {
            f.write_str("; sum is an instruction of version 2, ZPH2")
        } else {
            Ok(())
        }
    }
}
