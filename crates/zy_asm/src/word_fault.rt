//! The word of a line that is at fault.
ghost use Rattle.std.specs.Prelude.{◌≡◌};
ghost use Rattle.zy_asm.specs.Reasons.{kind_of};

use crate::faults::{AsmKind, Reason};

/// What is wrong with a line, and the number of the word at fault, from 0.
#[derive(Clone, Copy)]
pub struct WordFault {
    pub at: usize,
    pub reason: Reason,
}

impl Reason {
    /// The word of this number, from 0, is at fault.
    pub fn at(self, at: usize) -> WordFault
        ensures { result.reason ≡ self }
    {
        WordFault { at, reason: self }
    }
}

/// The first word is at fault.
impl From<Reason> for WordFault {
    ghost from_gives = { λ r f. f.reason ≡ r };

    fn from(reason: Reason) -> WordFault {
        reason.at(0)
    }
}

impl WordFault {
    /// The same fault with this many more words in front of the one at fault.
    pub fn behind(self, words: usize) -> WordFault
        ensures { result.reason ≡ self.reason }
    {
        self.reason.at(self.at.saturating_add(words))
    }
}

/// Why a statement with these words behind its first one is rejected, where this many are due: the first word too many is
/// at fault, or else the first one.
pub fn miscounted(words: &[&[u8]], due: usize) -> WordFault
    ensures { kind_of result.reason ≡ AsmKind.Word }
{
    Reason::WordCount.at(if words.len() > due { due + 1 } else { 0 })
}
