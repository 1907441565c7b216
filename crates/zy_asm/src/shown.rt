//! A word of a text, as a fault shows it.

use std::fmt;

/// How many bytes of a word are shown.
const MOST: usize = 24;

/// The first bytes of a word.
#[derive(Clone, Copy)]
pub struct WordStart {
    bytes: [u8; MOST],
    count: usize,
    is_cut: bool,
}

impl WordStart {
    /// The word, or a prefix of it where it is long.
    pub fn of(word: &[u8]) -> WordStart {
        let count = word.len().min(MOST);
        let mut bytes = [0u8; MOST];
        bytes[..count].copy_from_slice(&word[..count]);
        WordStart {
            bytes,
            count,
            is_cut: word.len() > MOST,
        }
    }
}

/// In quotes; a byte that does not print is shown as `\xNN`, and what was cut off as two dots.
impl fmt::Display for WordStart {
    fn fmt<W: fmt::Write>(&self, f: &mut fmt::Formatter<W>) -> fmt::Result {
        f.write_str("'")?;
        for byte in self.bytes.iter().take(self.count) {
            tell_byte(f, *byte)?;
        }
        f.write_str(if self.is_cut { "'.." } else { "'" })
    }
}

/// Writes a byte, or its number where it does not print.
fn tell_byte<W: fmt::Write>(f: &mut fmt::Formatter<W>, byte: u8) -> fmt::Result {
    if byte.is_ascii_graphic() {
        f.write_char(char::from(byte))
    } else {
        write!(f, "\\x{byte:02x}")
    }
}
