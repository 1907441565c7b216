//! Words that are names, labels or numbers, by their form alone.
ghost use Rattle.std.specs.Prelude.{◌≡◌};
ghost use Rattle.std.specs.Option.{option_copied};
ghost use Rattle.zy_text.specs.Names as text_names;
ghost use Rattle.zy_text.specs.Words as text_words;

pub use zy_isa::operation::is;

/// The most bytes behind the first one of a name.
const MAX_PARTS: usize = 31;

fn is_letter(byte: u8) -> bool
    ensures { result ≡ text_names.is_letter byte }
{
    (b'A' <= byte && byte <= b'Z') || (b'a' <= byte && byte <= b'z') || byte == b'_'
}

fn are_parts(bytes: &[u8]) -> bool
    ensures { result ≡ text_names.are_parts bytes.now }
{
    bytes
        .iter()
        .all(|byte| is_letter(*byte) || byte.is_ascii_digit())
}

/// Whether a word is a name.
pub fn is_name(word: &[u8]) -> bool
    ensures { result ≡ text_names.is_name word.now }
{
    match word {
        [] => false,
        [first, rest @ ..] => is_letter(*first) && are_parts(rest) && rest.len() <= MAX_PARTS,
    }
}

/// Whether a word begins with a digit.
pub fn is_numeral(word: &[u8]) -> bool
    ensures { result ≡ text_words.is_numeral word.now }
{
    match word {
        [] => false,
        [first, ..] => first.is_ascii_digit(),
    }
}

/// What is before the colon that a word ends with.
pub fn label_of(word: &[u8]) -> Option<&[u8]>
    ensures { option_copied result ≡ text_names.label_of word.entry.now }
{
    match word.split_last() {
        Some((last, name)) if *last == b':' => Some(name),
        _ => None,
    }
}

/// Where a name stands among names.
pub fn place_among(names: &[&[u8]], name: &[u8]) -> Option<usize>
    ensures { result ≡ text_names.place_among names.now name.now }
{
    names.iter().position(|other| is(other, name))
}
