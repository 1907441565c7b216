//! Numbers in their ranges.
ghost use Rattle.std.specs.Prelude.{◌≡◌, ◌≤◌, IfOk, IfSome, None, Err};
ghost use Rattle.std.specs.Result.{result_ok};
ghost use Rattle.zy_asm.specs.Reasons.{by_kind, kind_of};
ghost use Rattle.zy_asm.specs.Steps as spec;

use crate::faults::Reason;
use crate::shown::WordStart;
use zy_text::numbers::number_of;

/// The number that a word spells, where it is from `least` to `most`.
pub fn within(word: &[u8], least: u64, most: u64) -> Option<u64>
    ensures value { result ≡ result_ok (spec.number_in word.now least most) }
    ensures range { IfSome result (λ n. (least ≤ n) × (n ≤ most)) }
{
    let number = number_of(word)?;
    if number < least || most < number {
        return None;
    }
    Some(number)
}

/// Why a word spells no number from `least` to `most`.
fn not_within(word: &[u8], least: u64, most: u64) -> Reason
    requires { result_ok (spec.number_in word.now least most) ≡ None }
    ensures { spec.number_in word.now least most ≡ Err (kind_of result) }
{
    match number_of(word) {
        Some(number) => Reason::OutOfRange {
            number,
            least,
            most,
        },
        None => Reason::NotDigits(WordStart::of(word)),
    }
}

/// The number that a word spells, from `least` to `most`.
pub fn number_in(word: &[u8], least: u64, most: u64) -> Result<u64, Reason>
    ensures value { by_kind result ≡ spec.number_in word.now least most }
    ensures range { IfOk result (λ n. (least ≤ n) × (n ≤ most)) }
{
    match within(word, least, most) {
        Some(number) => Ok(number),
        None => Err(not_within(word, least, most)),
    }
}
