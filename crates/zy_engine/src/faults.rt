//! Why an engine gave up.
ghost use Rattle.std.specs.Prelude.{◌≡◌};
ghost use Rattle.zy_engine.specs.Faults.{of_image_refusal, of_reading, of_refusal, of_writing, status_of};

use std::alloc::AllocError;
use thiserror::Error;
use zy_asm::{AsmKind, LineFault};
use zy_image::{ImageRefusal, LoadFault};
use zy_io::{ReadFault, TextFault};

/// Why an engine gave up. Its text names the fault, and says what is wrong.
#[derive(Clone, Copy, Debug, Error)]
pub enum BenchFault {
    /// The scenario text is rejected: this is its first faulty line.
    #[error(transparent)]
    Input(LineFault),
    /// The image is rejected.
    #[error("Image({:?}): {}", .0.fault, .0)]
    Image(ImageRefusal),
    /// The input is longer than an engine takes.
    #[error("TooLong: an input has at most 4194304 bytes")]
    TooLong,
    /// The reader failed.
    #[error("Read: the input could not be read to its end")]
    Read,
    /// The writer failed or took no byte.
    #[error("Write: the output could not be written")]
    Write,
    /// Out of memory.
    #[error("Memory: there is not enough memory for this run")]
    Memory,
}

impl BenchFault {
    /// The exit status: 1 where the input is rejected, 3 out of memory, 5 where reading or writing failed.
    pub fn status(self) -> u8
        ensures { result ≡ status_of self }
    {
        match self {
            BenchFault::Input(_) => 1,
            BenchFault::Image(_) => 1,
            BenchFault::TooLong => 1,
            BenchFault::Memory => 3,
            BenchFault::Read => 5,
            BenchFault::Write => 5,
        }
    }
}

impl From<ReadFault> for BenchFault {
    ghost from_gives = { λ f e. e ≡ of_reading f };

    fn from(fault: ReadFault) -> BenchFault {
        match fault {
            ReadFault::Read => BenchFault::Read,
            ReadFault::TooLong => BenchFault::TooLong,
            ReadFault::Memory => BenchFault::Memory,
        }
    }
}

impl From<LineFault> for BenchFault {
    ghost from_gives = { λ r e. e ≡ of_refusal r };

    fn from(refusal: LineFault) -> BenchFault {
        match refusal.reason.kind() {
            AsmKind::Memory => BenchFault::Memory,
            _ => BenchFault::Input(refusal),
        }
    }
}

impl From<ImageRefusal> for BenchFault {
    ghost from_gives = { λ r e. e ≡ of_image_refusal r };

    fn from(refusal: ImageRefusal) -> BenchFault {
        match refusal.fault {
            LoadFault::Memory => BenchFault::Memory,
            _ => BenchFault::Image(refusal),
        }
    }
}

impl From<TextFault> for BenchFault {
    ghost from_gives = { λ f e. e ≡ of_writing f };

    fn from(fault: TextFault) -> BenchFault {
        match fault {
            TextFault::Write => BenchFault::Write,
            TextFault::Memory => BenchFault::Memory,
        }
    }
}

impl From<AllocError> for BenchFault {
    ghost use Rattle.zy_engine.specs.declared.faults.BenchFault.TheVariants.{Memory};

    ghost from_gives = { λ _ e. e ≡ Memory };

    fn from(_e: AllocError) -> BenchFault {
        BenchFault::Memory
    }
}
