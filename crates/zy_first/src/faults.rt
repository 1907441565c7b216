//! Why there is no listing.
ghost use Rattle.std.specs.Prelude.{◌≡◌};
ghost use Rattle.zy_first.specs.Runs.{of_reading, of_refusal, of_writing, status_of};

use std::alloc::AllocError;
use thiserror::Error;
use zy_asm::{AsmKind, LineFault};
use zy_io::{ReadFault, TextFault, WriteFault};

/// Why there is no listing. Names, statuses and texts are those of `zy_engine::BenchFault`.
#[derive(Clone, Copy, Debug, Error)]
pub enum RunFault {
    /// The scenario text is rejected: this is its first faulty line.
    #[error(transparent)]
    Input(LineFault),
    /// There are over 4,194,304 bytes.
    #[error("TooLong: an input has at most 4194304 bytes")]
    TooLong,
    /// The reader failed.
    #[error("Read: the input could not be read to its end")]
    Read,
    /// The writer failed or took no byte.
    #[error("Write: the output could not be written")]
    Write,
    /// Out of memory.
    #[error("Memory: there is not enough memory for this run")]
    Memory,
}

impl RunFault {
    /// The exit status: 1 where the input is rejected, 3 out of memory, 5 where reading or writing failed.
    pub fn status(self) -> u8
        ensures { result ≡ status_of self }
    {
        match self {
            RunFault::Input(_) => 1,
            RunFault::TooLong => 1,
            RunFault::Memory => 3,
            RunFault::Read => 5,
            RunFault::Write => 5,
        }
    }
}

impl From<ReadFault> for RunFault {
    ghost from_gives = { λ f e. e ≡ of_reading f };

    fn from(fault: ReadFault) -> RunFault {
        match fault {
            ReadFault::Read => RunFault::Read,
            ReadFault::TooLong => RunFault::TooLong,
            ReadFault::Memory => RunFault::Memory,
        }
    }
}

impl From<LineFault> for RunFault {
    ghost from_gives = { λ r e. e ≡ of_refusal r };

    fn from(refusal: LineFault) -> RunFault {
        match refusal.reason.kind() {
            AsmKind::Memory => RunFault::Memory,
            _ => RunFault::Input(refusal),
        }
    }
}

impl From<TextFault> for RunFault {
    ghost from_gives = { λ f e. e ≡ of_writing f };

    fn from(fault: TextFault) -> RunFault {
        match fault {
            TextFault::Write => RunFault::Write,
            TextFault::Memory => RunFault::Memory,
        }
    }
}

impl From<WriteFault> for RunFault {
    fn from(_fault: WriteFault) -> RunFault {
        RunFault::Write
    }
}

impl From<AllocError> for RunFault {
    fn from(_error: AllocError) -> RunFault {
        RunFault::Memory
    }
}
