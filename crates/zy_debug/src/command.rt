//! Commands, replies, and why a command is rejected.
ghost use Rattle.std.specs.Prelude.{◌≡◌};

use std::alloc::AllocError;
use thiserror::Error;
use zy_isa::Node;

/// What a session is asked.
#[derive(Clone, Copy)]
pub enum Command {
    /// Goes this number of choices on.
    Step(u32),
    /// Goes this number of choices back.
    Back(u32),
    /// To a position.
    Goto(u32),
    /// On to the next position at which a stop fires.
    Cont,
    /// Back to the last position below at which a stop fires.
    RCont,
    /// A stop where this page changes its place.
    BreakPage(u32),
    /// A stop where a node changes its mode.
    BreakMode,
    /// A stop where a choice ends in an abort.
    BreakAbort,
    /// A stop where the committed value at this key changes.
    Watch(u32),
    /// Takes the stop of this number away.
    Delete(u32),
    /// Shows a page and its locks.
    Page(u32),
    /// Shows a transaction.
    Txn(u32),
    /// Shows a node: its wireframe, and the pages that it has asked for.
    Node(Node),
    /// Shows both links.
    Links,
    /// Shows the position and the modes.
    Position,
}

/// What a command that is not rejected says.
#[derive(Clone, Copy)]
pub enum Reply {
    /// The session is at this position.
    At(usize),
    /// The stop of this number fires at this position, and the session is there.
    Stop(usize, usize),
    /// The stop has this number.
    Set(usize),
    /// The stop of this number is gone.
    Deleted(u32),
    /// This is read from the session's machine.
    Shown(Shown),
}

/// What is there to be shown of a session's machine.
#[derive(Clone, Copy)]
pub enum Shown {
    /// A page of the scenario, and its locks.
    Page(u16),
    /// A transaction of the scenario.
    Txn(u8),
    /// A node: its wireframe, and the pages that it has asked for.
    Node(Node),
    /// Both links.
    Links,
    /// The position and the modes.
    Position,
}

/// Why a command is rejected.
#[derive(Clone, Copy, Debug, Error)]
pub enum DebugFault {
    /// There is no stop of this number.
    #[error("no such stop")]
    NoSuchStop,
    /// There is no such position, page, key or transaction.
    #[error("out of range")]
    Range,
    /// Sixteen stops are set.
    #[error("too many stops")]
    TooManyStops,
    /// Out of memory.
    #[error("there is not enough memory for this session")]
    Memory,
}

impl From<AllocError> for DebugFault {
    ghost use Rattle.zy_debug.specs.declared.command.DebugFault.TheVariants.{Memory};

    ghost from_gives = { λ _ e. e ≡ Memory };

    fn from(_e: AllocError) -> DebugFault {
        DebugFault::Memory
    }
}
