//! The machines on which a search makes steps.
ghost use Rattle.std.specs.Prelude.{◌≡◌, IfOk};
ghost use Rattle.zy_search.specs.Visits.{AreOf};

use std::alloc::Global;
use zy_machine::{Fault, Machine};

/// Two copies of a machine.
fn two_copies(alloc: Global, start: &Machine) -> Result<(Machine, Machine), Fault>
    ensures { IfOk result (λ both. (both.0 ≡ start.now) × (both.1 ≡ start.now)) }
{
    let one = start.copy(alloc)?;
    match start.copy(alloc) {
        Ok(other) => Ok((one, other)),
        Err(fault) => {
            one.discard();
            Err(fault)
        }
    }
}

/// Scratch machines of a search.
#[derive(Drop)]
pub struct Scratch {
    /// Where the path leads that the search goes on from, if `is_here` says so.
    pub here: Machine,
    pub is_here: bool,
    /// One that makes a choice from there.
    pub after: Machine,
    /// One on which choices are tried to judge a state.
    pub spare: Machine,
}

impl Scratch {
    /// Scratch machines of the scenario of another one.
    pub(crate) fn new(alloc: Global, start: &Machine) -> Result<Scratch, Fault>
        ensures { IfOk result (AreOf start.now.scenario) }
    {
        let (here, after) = two_copies(alloc, start)?;
        match start.copy(alloc) {
            Ok(spare) => Ok(Scratch {
                here,
                is_here: false,
                after,
                spare,
            }),
            Err(fault) => {
                here.discard();
                after.discard();
                Err(fault)
            }
        }
    }

    /// Drops the machines.
    pub(crate) fn discard(self) {
        let Scratch {
            here,
            after,
            spare,
            ..
        } = self;
        here.discard();
        after.discard();
        spare.discard();
    }
}
