//! Writes bytes whole.
ghost use Rattle.std.specs.Prelude.{◌≡◌};

use std::alloc::AllocError;
use thiserror::Error;

/// A call failed or, given bytes, took none.
#[derive(Clone, Copy, Debug, PartialEq, Eq, Error)]
#[error("the output could not be written")]
pub struct WriteFault;

/// Why a text was not written whole.
#[derive(Clone, Copy, Debug, PartialEq, Eq, Error)]
pub enum TextFault {
    /// A call failed or, given bytes, took none.
    #[error("the output could not be written")]
    Write,
    /// Out of memory for a line.
    #[error("there is no memory for a line of the output")]
    Memory,
}

impl From<AllocError> for TextFault {
    ghost use Rattle.zy_io.specs.declared.writing.TextFault.TheVariants.{Memory};

    ghost from_gives = { λ _ e. e ≡ Memory };

    fn from(_e: AllocError) -> TextFault {
        TextFault::Memory
    }
}

impl From<WriteFault> for TextFault {
    ghost use Rattle.zy_io.specs.declared.writing.TextFault.TheVariants.{Write};

    ghost from_gives = { λ _ e. e ≡ Write };

    fn from(_e: WriteFault) -> TextFault {
        TextFault::Write
    }
}
