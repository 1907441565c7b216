//! Why lines of logs were not read.
ghost use Rattle.std.specs.Prelude.{◌≡◌};

use crate::expected::ExpectedInLog;
use std::alloc::AllocError;
use thiserror::Error;

/// The first faulty line, by its number, and its word that does not fit, by how many words come before it, with what may
/// stand in the place of the word.
#[derive(Clone, Copy, Debug, Error)]
#[error("Input(line {line}, {:?}): {expected}", .expected.kind())]
pub struct LogLineFault {
    pub line: usize,
    pub word: usize,
    pub expected: ExpectedInLog,
}

/// Why no logs were read.
#[derive(Clone, Copy, Debug, Error)]
pub enum LogFault {
    /// A line is none of a log, or is one too many.
    #[error(transparent)]
    Refused(LogLineFault),
    /// A request for memory was refused.
    #[error("there is no memory for the logs")]
    Memory,
}

impl From<AllocError> for LogFault {
    ghost use Rattle.zy_logs.specs.declared.faults.LogFault.TheVariants.{Memory};

    ghost from_gives = { λ _ e. e ≡ Memory };

    fn from(_e: AllocError) -> LogFault {
        LogFault::Memory
    }
}

impl From<LogLineFault> for LogFault {
    ghost use Rattle.zy_logs.specs.declared.faults.LogFault.TheVariants.{Refused};

    ghost from_gives = { λ r e. e ≡ Refused r };

    fn from(refusal: LogLineFault) -> LogFault {
        LogFault::Refused(refusal)
    }
}
