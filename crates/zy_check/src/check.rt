//! Compares an input with the listing that it should be.
ghost use Rattle.std.specs.Prelude.{◌≡◌, IfOk};
ghost use Rattle.zy_listing.specs.Run.{listing_of};
ghost use Rattle.zy_check.specs.Differs as spec;

use crate::comparing::Comparing;
use crate::verdict::Comparison;
use std::alloc::{AllocError, Global};
use zy_io::TextFault;
use zy_listing::listing::write_listing;
use zy_machine::Machine;

/// The verdict on an input: whether it is, byte for byte, the listing of a machine. No line of the listing is kept but the first
/// that differs.
pub fn compare(alloc: Global, input: &[u8], machine: &Machine) -> Result<Comparison, AllocError>
    ensures { IfOk result (λ c. c.verdict ≡ spec.verdict input.now (listing_of machine.now)) }
{
    let mut sink = Comparing::new(alloc, input);
    match write_listing(alloc, machine, &mut sink) {
        Ok(()) => Ok(sink.finish()),
        // A byte differs, and the sink took none behind it.
        Err(TextFault::Write) => Ok(sink.finish()),
        Err(TextFault::Memory) => Err(AllocError),
    }
}
