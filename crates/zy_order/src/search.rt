//! What a search holds.
ghost use Rattle.std.specs.Prelude.{◌≡◌, [], IfOk, None};
ghost use Rattle.zy_order.specs.Reaches.{Follows, IsPlan};

use crate::cursors::Cursors;
use crate::note::digest_of;
use crate::plan::Plan;
use crate::reached::Reached;
use crate::recent_machines::RecentMachines;
use zy_machine::{Fault, Machine};

/// What a search holds: the paths that it has reached, and machines to go on by.
#[derive(Drop)]
pub(crate) struct Search {
    /// What it has reached.
    pub reached: Reached,
    /// Machines where some of the paths lead.
    pub recent: RecentMachines,
    /// A scratch machine, which makes one choice more than a path.
    pub twin: Machine,
}

/// A path that a search goes on from.
#[derive(Clone, Copy)]
pub(crate) struct Position<'a> {
    /// What the search goes by.
    pub plan: &'a Plan,
    /// The place of the path.
    pub at: u32,
    /// A machine that is where the path leads.
    pub machine: &'a Machine,
}

/// The scratch machine of a search by a plan, and a recent with no machine but its own.
fn machines_of(plan: &Plan) -> Result<(Machine, RecentMachines), Fault>
    ensures twin { IfOk result (λ r. r.0 ≡ plan.now.start) }
    ensures machines { IfOk result (λ r. r.1.machines.items ≡ []) }
    ensures checkpoints { IfOk result (λ r. r.1.checkpoints.points.items ≡ []) }
    ensures spare { IfOk result (λ r. r.1.spare ≡ record { machine = plan.now.start; at = None }) }
{
    let twin = plan.start.copy(plan.alloc)?;
    match RecentMachines::new(plan.alloc, &plan.start) {
        Ok(recent) => Ok((twin, recent)),
        Err(fault) => {
            twin.discard();
            Err(fault)
        }
    }
}

impl Search {
    /// Nothing is reached but the state of the start, and it is to be followed.
    pub(crate) fn new(plan: &Plan) -> Result<Search, Fault>
        requires { IsPlan plan.now }
        ensures { IfOk result (Follows plan.now) }
    {
        let digest = digest_of(Cursors::at_start(), &plan.start);
        let reached = Reached::new(plan.alloc, digest)?;
        match machines_of(plan) {
            Ok((twin, recent)) => Ok(Search {
                reached,
                recent,
                twin,
            }),
            Err(fault) => {
                drop(reached);
                Err(fault)
            }
        }
    }
}
