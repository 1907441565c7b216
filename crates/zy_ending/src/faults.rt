//! Why there is no list of choices.
ghost use Rattle.std.specs.Prelude.{◌≡◌};

use std::alloc::AllocError;
use thiserror::Error;

/// Why there is no list of choices that end a migration.
#[derive(Clone, Copy, Debug, Error)]
pub enum EndingFault {
    /// A history has at most 4096 choices, and there is no room for all that end the migration.
    #[error("NoRoom: the choices that end the migration do not fit behind the others, as a scenario has at most 4096")]
    NoRoom,
    /// Out of memory.
    #[error("Memory: there is not enough memory for the choices that end the migration")]
    Memory,
}

impl From<AllocError> for EndingFault {
    ghost use Rattle.zy_ending.specs.declared.faults.EndingFault.TheVariants.{Memory};

    ghost from_gives = { λ _ e. e ≡ Memory };

    fn from(_e: AllocError) -> EndingFault {
        EndingFault::Memory
    }
}
