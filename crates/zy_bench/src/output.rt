//! Standard output, and whether anybody reads it.
ghost use Rattle.std.specs.Prelude.{◌≡◌, ◌<◌, IfOk};

use std::alloc::{AllocError, Global};
use std::io;
use std::io::Write;
use std::marker::Model;
use zy_engine::BenchFault;
use zy_io::{Buffered, CountingWriter, Patient, Pending, Sink};

/// How many bytes are kept back at most.
const MOST_PENDING: usize = 8192;

/// What commands write to: it keeps bytes back, and passes on many at a time.
pub type Output<W> = Buffered<PipeSink<Patient<W>>>;

/// An output over a writer, to which nothing was written yet.
pub fn output_to<W: Drop>(alloc: Global, writer: W) -> Result<Output<W>, AllocError>
    ensures { IfOk result (λ o. o.sink.1 ≡ 0) }
{
    let pending = Pending::new(alloc, MOST_PENDING)?;
    Ok(Buffered::new(PipeSink::new(Patient::new(writer)), pending))
}

/// A sink over a writer that notes whether a call has failed since nobody reads any more.
#[derive(Drop)]
pub struct PipeSink<W> {
    sink: CountingWriter<W>,
    is_unread: bool,
}

impl<W> Model for PipeSink<W> {
    ghost use Rattle.std.specs.Prelude.{ℕ};

    ghost Value = { W × ℕ };

    ghost view = { λ s. s.sink };
}

impl<W> PipeSink<W> {
    /// Nothing was written yet.
    pub fn new(writer: W) -> PipeSink<W>
        ensures { result ≡ (writer, 0) }
    {
        PipeSink {
            sink: CountingWriter::new(writer),
            is_unread: false,
        }
    }

    /// How many calls so far failed or, given bytes, took none.
    pub fn failures(&self) -> u64
        ensures { result ≡ self.now.1 }
    {
        self.sink.failures()
    }

    /// Whether a call has failed since the reader of a pipe has closed it.
    pub fn is_unread(&self) -> bool {
        self.is_unread
    }
}

impl<W: Write> Sink for PipeSink<W> {
    ghost sent = { λ s. record { written = W.contents s.0; failures = s.1 } };

    fn put(&mut self, bytes: &[u8]) -> io::Result<usize> {
        let outcome = self.sink.put(bytes);
        self.is_unread |=
            matches!(&outcome, Err(error) if error.kind() == io::ErrorKind::BrokenPipe);
        outcome
    }
}

/// Passes on what is kept back for standard output.
pub fn pass<W: Write>(output: &mut Output<W>) -> Result<(), BenchFault>
    requires { output.old.sink.1 < u64.MAX }
{
    match output.pass() {
        Ok(()) => Ok(()),
        Err(_) => Err(BenchFault::Write),
    }
}

/// Passes on what a command that has ended with a fault has left, unless the writer has failed.
pub fn pass_rest<W: Write>(output: &mut Output<W>) {
    if output.sink().failures() == 0 {
        let _ = output.pass();
    }
}
