//! A fault, with what to do about it.

use crate::faults::RunFault;
use crate::noted::Cause;
use std::fmt;
use zy_diagnostics::{CommandName, TextAdvice};

/// A fault, as standard error shows it. The words are those of `zy_bench`.
#[derive(Clone, Copy)]
pub struct Advised<'a> {
    /// Why there is no listing.
    pub fault: RunFault,
    /// What was read.
    pub input: &'a [u8],
    /// Why it was not read to its end, where the reader failed.
    pub cause: Cause,
}

/// The fault's name, and what to do about it where the input or its reader is at fault.
impl fmt::Display for Advised<'_> {
    fn fmt<W: fmt::Write>(&self, f: &mut fmt::Formatter<W>) -> fmt::Result {
        match self.fault {
            RunFault::Input(refusal) => {
                let (line, kind) = (refusal.line, refusal.reason.kind());
                let advice = TextAdvice::of(CommandName::Run, self.input, refusal);
                write!(f, "Input(line {line}, {kind:?}): {advice}")
            }
            RunFault::Read => write!(f, "Read: {}", self.cause),
            fault => write!(f, "{fault}"),
        }
    }
}
