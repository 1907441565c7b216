//! Reads an input whole.
ghost use Rattle.std.specs.Prelude.{◌≡◌, ◌<◌, ◌≤◌, ◌+◌, Err, IfOk, IfSome, length};
ghost use Rattle.zy_io.specs.Streams.{ReadsAll, max_input, most_read};

use crate::stream::Source;
use std::alloc::{AllocError, Global};
use thiserror::Error;

/// The most bytes of an input.
pub const MAX_INPUT: usize = 4_194_304;

/// How many bytes one call asks for.
const PIECE: usize = 4096;

/// How many bytes there is room for at first. So much comes in whole pages of the system, which more room is put behind
/// without a copy of the bytes.
const FIRST_ROOM: usize = 131_072;

/// Why an input was not read to its end.
#[derive(Clone, Copy, Debug, PartialEq, Eq, Error)]
pub enum ReadFault {
    /// A call failed.
    #[error("the input could not be read")]
    Read,
    /// There are over 4,194,304 bytes.
    #[error("the input has at most 4194304 bytes")]
    TooLong,
    /// Out of memory for the bytes.
    #[error("there is no memory for the input")]
    Memory,
}

impl From<AllocError> for ReadFault {
    ghost use Rattle.zy_io.specs.declared.reading.ReadFault.TheVariants.{Memory};

    ghost from_gives = { λ _ e. e ≡ Memory };

    fn from(_e: AllocError) -> ReadFault {
        ReadFault::Memory
    }
}

/// Reads to the end, to a call that fails, or to the byte after the longest input.
pub fn read_all<S: Source>(alloc: Global, source: &mut S) -> Result<Vec<u8>, ReadFault>
    requires { (S.pulled source.old).failures < u64.MAX }
    ensures reads { ReadsAll (S.pulled source.old) (S.pulled source.new) result }

    // Where the bytes are known beforehand these are they, and it is known when they are too many.
    ensures whole { IfOk result (λ bytes. IfSome (S.pulled source.old).left (λ left. bytes.items ≡ left)) }
    ensures long { result ≡ Err ReadFault.TooLong
        → IfSome (S.pulled source.old).left (λ left. max_input < length left) }

    // Whatever is known of the bytes, the calls give at most one byte more than the longest input has.
    ensures bound { (S.pulled source.new).given ≤ (S.pulled source.old).given + most_read }
{
    let mut bytes = Vec::with_capacity(alloc, FIRST_ROOM)?;
    let mut piece = [0u8; PIECE];
    loop {
        let room = MAX_INPUT - bytes.len();
        let Ok(count) = source.pull(&mut piece[..PIECE.min(room + 1)]) else {
            return Err(ReadFault::Read);
        };
        if count == 0 {
            return Ok(bytes);
        }
        if count > room {
            return Err(ReadFault::TooLong);
        }
        bytes.extend_from_slice(&piece[..count])?;
    }
}
