//! Fields of bytes and of numbers. The size is that of the whole input, for a fault.
ghost use Rattle.zy_image.specs.Reading.{Gives};
ghost use Rattle.zy_image.specs.Reading as spec;

use crate::faults::LoadFault;
use zy_isa::Version;

/// The next field of N bytes, and what follows it.
pub fn field<const N: usize>(size: usize, bytes: &[u8]) -> Result<([u8; N], &[u8]), LoadFault>
    ensures { Gives result (spec.field N size bytes.entry.now) }
{
    match bytes.split_first_chunk::<N>() {
        Some((front, left)) => Ok((*front, left)),
        None => Err(LoadFault::Truncated(size)),
    }
}

/// A number of one byte.
pub fn byte(size: usize, bytes: &[u8]) -> Result<(u8, &[u8]), LoadFault>
    ensures { Gives result (spec.byte size bytes.entry.now) }
{
    let ([n], left) = field::<1>(size, bytes)?;
    Ok((n, left))
}

/// A number of two bytes.
pub fn half(size: usize, bytes: &[u8]) -> Result<(u16, &[u8]), LoadFault>
    ensures { Gives result (spec.half size bytes.entry.now) }
{
    let (n, left) = field::<2>(size, bytes)?;
    Ok((u16::from_be_bytes(n), left))
}

/// The version that the first bytes of an image name.
pub fn magic_field(size: usize, bytes: &[u8]) -> Result<(Version, &[u8]), LoadFault>
    ensures { Gives result (spec.magic_field size bytes.entry.now) }
{
    let (front, left) = field::<4>(size, bytes)?;
    match Version::of_magic(front) {
        Some(version) => Ok((version, left)),
        None => Err(LoadFault::Magic),
    }
}
