//! A whole run: all choices of a scenario, and their listing.
ghost use Rattle.std.specs.Prelude.{◌<◌};
ghost use Rattle.zy_laws.specs.Throughout.{CanEndThroughout, OwnedThroughout, SerialThroughout, StrictThroughout};
ghost use Rattle.zy_listing.specs.Run.{listing_run, WroteRun};

use crate::listing::write_listing;
use std::alloc::Global;
use zy_io::{Sink, TextFault};
use zy_isa::Scenario;
use zy_machine::Machine;

/// Makes the choices of a scenario, writes the listing, and gives the machine that has made them.
pub fn write_run<K: Sink>(
    alloc: Global,
    scenario: Scenario,
    sink: &mut K,
) -> Result<Machine, TextFault>
    requires { (K.sent sink.old).failures < u64.MAX }
    ensures run { WroteRun listing_run scenario (K.sent sink.old) (K.sent sink.new) result }
    // At every point of the run each page is in one place, the run is strictly serializable, under `held` the database
    // is that of the commits one by one, and the migration can be ended.
    ensures owned { OwnedThroughout scenario scenario.choices }
    ensures strict { StrictThroughout scenario scenario.choices }
    ensures serial { SerialThroughout scenario scenario.choices }
    ensures ends { CanEndThroughout scenario scenario.choices }
{
    let machine = Machine::run_all(alloc, scenario)?;
    match write_listing(alloc, &machine, sink) {
        Ok(()) => Ok(machine),
        Err(fault) => {
            machine.discard();
            Err(fault)
        }
    }
}
