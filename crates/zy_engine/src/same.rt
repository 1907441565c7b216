//! Whether two scenarios are one.
ghost use Rattle.std.specs.Prelude.{◌≡◌, true, IfOk};

use std::alloc::{AllocError, Global};
use zy_image::LoadFault;
use zy_image::load::load;
use zy_image::save::save;
use zy_isa::Scenario;

/// Whether two byte strings are one.
fn same_bytes(one: &[u8], other: &[u8]) -> bool
    ensures { result ≡ true → one.now ≡ other.now }
{
    one == other
}

/// Whether two scenarios are one: they are if and only if they have one image.
pub(crate) fn same_scenario(
    alloc: Global,
    one: &Scenario,
    other: &Scenario,
) -> Result<bool, AllocError>
    ensures { IfOk result (λ is. is ≡ true → one.now ≡ other.now) }
{
    // Proof: both were tested, and an image is that of one scenario.
    let _one = one.programs();
    let _other = other.programs();
    let image = save(alloc, one)?;
    let image_of_other = save(alloc, other)?;
    if !same_bytes(&image, &image_of_other) {
        return Ok(false);
    }
    match load(alloc, &image) {
        Ok(_) => Ok(true),
        Err(LoadFault::Memory) => Err(AllocError),
        Err(_) => Ok(false),
    }
}
