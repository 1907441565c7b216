//! Why a line was not read.

use crate::field::Member;
use std::alloc::AllocError;
use thiserror::Error;

/// Why a line is none of a log in JSON. Of several faults the first is reported, in the order of the variants up to `NotObject`,
/// and then field by field: `actor`, `do`, `came`, `value`, `sent`, `rows`.
#[derive(Clone, Copy, Debug, PartialEq, Eq, Error)]
pub enum JsonFault {
    /// The line is no JSON text in UTF-8. The number says about where: how many bytes were passed before the reader stopped. It
    /// is not above the length of the line, and else no contract says which it is.
    #[error("the line is no JSON (byte {0})")]
    NotJson(usize),
    /// The line is JSON, and no object.
    #[error("a line is one object, as {{\"actor\":\"A\",\"do\":\"run 0\",\"came\":\"did\"}}")]
    NotObject,
    /// The object has no such field, and needs one.
    #[error("the field {0} is missing")]
    Missing(Member),
    /// The object has this field twice or more often.
    #[error("the field {0} comes twice")]
    Twice(Member),
    /// The value of this field is no string.
    #[error("the field {0} is no string; leave it out where there is nothing to tell")]
    NotString(Member),
    /// The `value` is not a number from 0 to 4294967295 written in digits alone.
    #[error("the field \"value\" is a whole number from 0 to 4294967295, as 7; leave it out where there is nothing to tell")]
    NotNumber,
    /// There is a `value`, and the outcome is not `did`.
    #[error("the field \"value\" is allowed only beside \"came\":\"did\"")]
    NotDid,
    /// The actor is none of the three.
    #[error("the field \"actor\" is \"C\", \"A\" or \"B\"")]
    NoActor,
    /// The text of this field has a sign that would end it in a line of a log: a line feed, `!`, `;` or `>`.
    #[error("the field {0} has no line feed, no !, no ; and no >")]
    Sign(Member),
    /// There is no memory for the line.
    #[error("there is no memory for the line")]
    Memory,
}

/// The first line of a text that is none of a log in JSON, by its number.
#[derive(Clone, Copy, Debug, Error)]
#[error("Input(line {line}, Json): {fault}")]
pub struct JsonLineFault {
    pub line: usize,
    /// Why it is none; never that there is no memory.
    pub fault: JsonFault,
}

/// Why the lines of a text were not read.
#[derive(Clone, Copy, Debug, Error)]
pub enum JsonLogFault {
    /// A line is none of a log in JSON.
    #[error(transparent)]
    Refused(JsonLineFault),
    /// There is no memory for the lines.
    #[error("there is no memory for the lines")]
    Memory,
}

impl From<AllocError> for JsonLogFault {
    ghost use Rattle.std.specs.Prelude.{◌≡◌};
    ghost use Rattle.zy_json.specs.declared.faults.JsonLogFault.TheVariants.{Memory};

    ghost from_gives = { λ _ e. e ≡ Memory };

    fn from(_e: AllocError) -> JsonLogFault {
        JsonLogFault::Memory
    }
}
