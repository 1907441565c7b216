//! Makes calls of which one may run out of memory, and compares their effects.

use std::alloc::{AllocError, Global};
use zy_asm::{AsmKind, LineFault};
use zy_debug::DebugFault;
use zy_io::ReadFault;
use zy_isa::ProgramFault;
use zy_wire::WireFault;

/// Why a sweep fails.
#[derive(Clone, Copy)]
pub enum Trouble {
    /// A subject or its twin could not be made: out of memory.
    Setup,
    /// A call ran out of memory although it was made again.
    Memory,
    /// A call failed in another way.
    Fault,
    /// A call ran out of memory and changed its subject.
    Changed,
    /// The subject differs from its twin.
    Different,
}

impl Trouble {
    /// The words that the program prints for it.
    pub fn words(self) -> &'static str {
        match self {
            Trouble::Setup => "no memory outside the calls",
            Trouble::Memory => "out of memory, and no answer when made again",
            Trouble::Fault => "another fault",
            Trouble::Changed => "out of memory, and something is changed",
            Trouble::Different => "another answer",
        }
    }

    fn of(is_memory: bool) -> Trouble {
        if is_memory {
            Trouble::Memory
        } else {
            Trouble::Fault
        }
    }
}

impl From<AllocError> for Trouble {
    fn from(_fault: AllocError) -> Trouble {
        Trouble::Memory
    }
}

impl From<LineFault> for Trouble {
    fn from(fault: LineFault) -> Trouble {
        Trouble::of(matches!(fault.reason.kind(), AsmKind::Memory))
    }
}

impl From<ProgramFault> for Trouble {
    fn from(fault: ProgramFault) -> Trouble {
        Trouble::of(matches!(fault, ProgramFault::Memory))
    }
}

impl From<ReadFault> for Trouble {
    fn from(fault: ReadFault) -> Trouble {
        Trouble::of(matches!(fault, ReadFault::Memory))
    }
}

impl From<DebugFault> for Trouble {
    fn from(fault: DebugFault) -> Trouble {
        Trouble::of(matches!(fault, DebugFault::Memory))
    }
}

impl From<WireFault> for Trouble {
    fn from(fault: WireFault) -> Trouble {
        Trouble::of(matches!(fault, WireFault::Memory))
    }
}

/// The value of a call that is not under test. If it runs out of memory, the sweep cannot be made.
pub fn setup<T: Drop, F: Into<Trouble> + Drop>(made: Result<T, F>) -> Result<T, Trouble> {
    match made {
        Ok(value) => Ok(value),
        Err(fault) => match fault.into() {
            Trouble::Memory => Err(Trouble::Setup),
            trouble => Err(trouble),
        },
    }
}

/// A value on which a sweep makes its calls, in order.
pub trait Subject: Drop {
    /// A fresh subject, before any call.
    fn make(alloc: Global, input: &[u8]) -> Result<Self, Trouble>;

    /// How many calls there are.
    fn len(&self) -> usize;

    /// Makes the call at a place.
    fn call(&mut self, place: usize) -> Result<(), Trouble>;

    /// Whether a caller sees no difference between the two.
    fn is_same(&self, other: &Self) -> bool;
}

/// The result of a sweep in which every call answered.
#[derive(Clone, Copy)]
pub struct Answers {
    /// The number of calls.
    pub count: usize,
    /// Whether one of them ran out of memory at first.
    pub again: bool,
}

/// Makes each call on a subject and then on its twin, and compares them. A run of the program refuses at most one request, so
/// if a call on the subject ran out of memory, none on the twin did.
pub fn sweep<S: Subject>(alloc: Global, input: &[u8]) -> Result<Answers, Trouble> {
    let mut subject = setup(S::make(alloc, input))?;
    let mut twin = setup(S::make(alloc, input))?;
    let count = subject.len();
    let mut again = false;
    for place in 0..count {
        again |= called(&mut subject, &twin, place)?;
        setup(twin.call(place))?;
        if !subject.is_same(&twin) {
            return Err(Trouble::Different);
        }
    }
    Ok(Answers { count, again })
}

/// Makes a call. If it runs out of memory and changes nothing, makes it again. Returns whether it ran out of memory.
fn called<S: Subject>(subject: &mut S, twin: &S, place: usize) -> Result<bool, Trouble> {
    match subject.call(place) {
        Ok(()) => Ok(false),
        Err(Trouble::Memory) if subject.is_same(twin) => {
            subject.call(place)?;
            Ok(true)
        }
        Err(Trouble::Memory) => Err(Trouble::Changed),
        Err(trouble) => Err(trouble),
    }
}
