//! Bytes as text.
ghost use Rattle.std.specs.Prelude.{◌≡◌, Some, None, MatchResult, count_by, ◌==◌};
ghost use Rattle.zy_asm.specs.Input.{utf8_fault};
ghost use Rattle.zy_asm.specs.Reasons.{fault_of};

use crate::faults::{LineFault, Reason};
use crate::state::LinesAbove;
use std::str::from_utf8;

/// How many lines end in these bytes.
fn line_ends(bytes: &[u8]) -> usize
    ensures { result ≡ count_by (λ b. b == 10) bytes.now }
{
    bytes.iter().filter(|byte| **byte == b'\n').count()
}

/// The bytes as text. Where they are not UTF-8, the fault is a wrong word in the line of the first wrong byte.
pub fn text_of(bytes: &[u8]) -> Result<&str, LineFault>
    ensures { MatchResult result (λ text. (text.now ≡ bytes.entry.now) × (utf8_fault bytes.entry.now ≡ None))
        (λ r. utf8_fault bytes.entry.now ≡ Some (fault_of r)) }
{
    match from_utf8(bytes) {
        Ok(text) => Ok(text),
        Err(error) => {
            let (valid, _) = bytes.split_at(error.valid_up_to());
            Err(LineFault {
                line: 1 + line_ends(valid),
                at: 0,
                reason: Reason::NotText,
                above: LinesAbove::none(),
            })
        }
    }
}
