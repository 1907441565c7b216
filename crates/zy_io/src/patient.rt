//! A writer that makes interrupted calls again.
use std::io;
use std::io::{ErrorKind, Write};

/// How often a call is made again at most. No system interrupts one as often as this.
const TRIES: u32 = 1_000_000;

/// A writer over another one, whose calls it makes again where a signal has interrupted them.
#[derive(Drop)]
pub struct Patient<W> {
    writer: W,
}

impl<W> Patient<W> {
    /// Nothing was written yet.
    pub fn new(writer: W) -> Patient<W> {
        Patient { writer }
    }
}

impl<W: Write> Write for Patient<W> {
    ghost contents = { λ s. W.contents s.writer };

    fn write(&mut self, bytes: &[u8]) -> io::Result<usize> {
        for _ in 0..TRIES {
            match self.writer.write(bytes) {
                Err(error) if error.kind() == ErrorKind::Interrupted => {}
                outcome => return outcome,
            }
        }
        self.writer.write(bytes)
    }

    fn flush(&mut self) -> io::Result<()> {
        self.writer.flush()
    }
}
