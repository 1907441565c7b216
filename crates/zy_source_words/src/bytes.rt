//! Bytes of a source, as a message shows them.

use std::fmt::{self, Formatter, Write};

/// Some bytes of a source. A byte that does not print is shown as `\xNN`.
#[derive(Clone, Copy)]
pub struct Bytes<'a>(pub &'a [u8]);

impl fmt::Display for Bytes<'_> {
    fn fmt<W: Write>(&self, f: &mut Formatter<W>) -> fmt::Result {
        for byte in self.0 {
            show_byte(f, *byte)?;
        }
        Ok(())
    }
}

/// Shows a byte.
pub fn show_byte<W: Write>(f: &mut Formatter<W>, byte: u8) -> fmt::Result {
    if byte.is_ascii_graphic() || byte == b' ' {
        f.write_char(char::from(byte))
    } else {
        show_code(f, byte)
    }
}

/// Shows a byte as `\xNN`.
pub fn show_code<W: Write>(f: &mut Formatter<W>, byte: u8) -> fmt::Result {
    write!(f, "\\x{byte:02x}")
}

/// A word of a source in quotes. Two dots stand for what follows its first 40 bytes.
#[derive(Clone, Copy)]
pub struct Quoted<'a>(pub &'a [u8]);

/// The most bytes of a word that are shown.
const MOST: usize = 40;

impl fmt::Display for Quoted<'_> {
    fn fmt<W: Write>(&self, f: &mut Formatter<W>) -> fmt::Result {
        let front = Bytes(self.0.get(..MOST).unwrap_or(self.0));
        let dots = if self.0.len() > MOST { ".." } else { "" };
        write!(f, "'{front}'{dots}")
    }
}
