//! Words that are numbers.
ghost use Rattle.std.specs.Prelude.{◌≡◌};
ghost use Rattle.zy_text.specs.Words as spec;

/// The most digits of a number.
const MAX_DIGITS: usize = 10;

/// The number that 1 to 10 digits spell.
pub fn number_of(word: &[u8]) -> Option<u64>
    ensures { result ≡ spec.number_of word.now }
{
    if word.is_empty() || word.len() > MAX_DIGITS {
        return None;
    }
    let mut number = 0u64;
    for byte in word {
        if !byte.is_ascii_digit() {
            return None;
        }
        number = 10 * number + u64::from(*byte - b'0');
    }
    Some(number)
}
