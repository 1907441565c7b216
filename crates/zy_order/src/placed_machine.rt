//! A machine that knows which path leads to its state.
ghost use Rattle.std.specs.Prelude.{◌≡◌, IfOk, OnOk, None, Some};

use std::alloc::Global;
use std::mem;
use zy_machine::{Fault, Machine};

/// A machine, and the place of the path that leads to its state; none where that is not known.
#[derive(Drop)]
pub(crate) struct PlacedMachine {
    pub machine: Machine,
    pub at: Option<u32>,
}

impl PlacedMachine {
    /// A copy of a machine, of which no place is known.
    pub(crate) fn copy_of(alloc: Global, machine: &Machine) -> Result<PlacedMachine, Fault>
        ensures machine { IfOk result (λ m. m.machine ≡ machine.now) }
        ensures at { IfOk result (λ m. m.at ≡ None) }
    {
        Ok(PlacedMachine {
            machine: machine.copy(alloc)?,
            at: None,
        })
    }

    /// Swaps the machine with another one, whose place is not known.
    pub(crate) fn swap(&mut self, other: &mut Machine)
        ensures taken { self.new ≡ record { machine = other.old; at = None } }
        ensures given { other.new ≡ self.old.machine }
    {
        mem::swap(&mut self.machine, other);
        self.at = None;
    }

    /// Brings the machine to the state of another one, where the path at a place leads.
    pub(crate) fn set_to(&mut self, alloc: Global, at: u32, there: &Machine) -> Result<(), Fault>
        requires { self.old.machine.scenario ≡ there.now.scenario }
        ensures { OnOk result (self.new ≡ record { machine = there.now; at = Some at }) }
    {
        self.at = None;
        self.machine.set_to(alloc, there)?;
        self.at = Some(at);
        Ok(())
    }
}
